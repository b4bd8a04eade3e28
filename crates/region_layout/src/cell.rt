//! The cells of records.
ghost use Rattle.std.specs.Prelude.{◌≡◌, ◌≢◌, ◌↔◌, ◌==◌, ◌+◌, ◌<◌, length, slice_index};
ghost use Rattle.persist_model.specs.Kinds.{kind_number, kind_of, outcome_number};
ghost use Rattle.region_layout.specs.Cell.{cell_at, word_of_cell};

use persist_model::{Look, Outcome, RecordKind};

/// The words of a record, in order. A gate of 0 is a closed cell, another is the record's number.
#[derive(Clone, Copy, Debug, PartialEq, Eq)]
pub struct Cell {
    pub lsn: u64,
    pub transaction: u64,
    pub kind: u64,
    pub word: u64,
    pub before: u64,
    pub after: u64,
    pub undo_next: u64,
    pub outcome: u64,
}

impl Cell {
    /// The kind of its record, or None where its number is no kind's.
    pub fn record_kind(&self) -> Option<RecordKind>
        ensures is { result ≡ kind_of self.now.kind }
        ensures some { (kind : RecordKind) → (result ≡ Some kind) ↔ (self.now.kind ≡ kind_number kind) }
        ensures none { result ≡ None → (kind : RecordKind) → self.now.kind ≢ kind_number kind }
    {
        RecordKind::read(self.kind)
    }

    /// Whether its record is of this kind.
    pub fn is(&self, kind: RecordKind) -> bool
        ensures { result ≡ (self.now.kind == kind_number kind) }
    {
        self.kind == kind.number()
    }

    /// Whether its record has this outcome.
    pub fn has_outcome(&self, outcome: Outcome) -> bool
        ensures { result ≡ (self.now.outcome == outcome_number outcome) }
    {
        self.outcome == outcome.number()
    }
}

/// The cell whose gate stands at this address.
pub fn read_cell<W: Look>(words: &W, at: u32) -> Cell
    requires { at + 7 < length (W.words words.now) }
    ensures { result ≡ cell_at (slice_index (W.words words.now)) at }
{
    let size = words.size();
    prove!(at < size);
    Cell {
        lsn: words.word(at),
        transaction: words.word(at + 1),
        kind: words.word(at + 2),
        word: words.word(at + 3),
        before: words.word(at + 4),
        after: words.word(at + 5),
        undo_next: words.word(at + 6),
        outcome: words.word(at + 7),
    }
}

/// Word i of the cell.
pub fn cell_word(cell: &Cell, i: u32) -> u64
    requires { i < 8 }
    ensures { result ≡ word_of_cell cell.now i }
{
    match i {
        0 => cell.lsn,
        1 => cell.transaction,
        2 => cell.kind,
        3 => cell.word,
        4 => cell.before,
        5 => cell.after,
        6 => cell.undo_next,
        _ => cell.outcome,
    }
}
