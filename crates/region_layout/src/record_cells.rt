//! The cells of records. Their gates are closed: the number is drawn when the append is made.
ghost use Rattle.std.specs.Prelude.{◌≡◌};
ghost use Rattle.persist_model.specs.Kinds.{kind_number};
ghost use Rattle.region_layout.specs.RecordCells.{
  cell_of_compensation,
  cell_of_rollback,
  cell_of_end,
  cell_of_checkpoint,
  plain,
  with_number,
};

use crate::cell::Cell;
use persist_model::format::NO_OUTCOME;
use persist_model::{Outcome, RecordKind};

/// The change of an update's word back to its value before.
pub fn compensation_cell(update: &Cell) -> Cell
    ensures { result ≡ cell_of_compensation update.now }
{
    Cell {
        lsn: 0,
        transaction: update.transaction,
        kind: RecordKind::Compensation.number(),
        word: update.word,
        before: update.after,
        after: update.before,
        undo_next: update.undo_next,
        outcome: NO_OUTCOME,
    }
}

/// A record that names no word.
pub fn plain_cell(transaction: u64, kind: RecordKind, outcome: u64) -> Cell
    ensures { result ≡ plain transaction (kind_number kind) outcome }
{
    Cell {
        lsn: 0,
        transaction,
        kind: kind.number(),
        word: 0,
        before: 0,
        after: 0,
        undo_next: 0,
        outcome,
    }
}

/// The begin of a transaction's undo.
pub fn rollback_cell(transaction: u64) -> Cell
    ensures { result ≡ cell_of_rollback transaction }
{
    plain_cell(transaction, RecordKind::Rollback, NO_OUTCOME)
}

/// The end of a transaction.
pub fn end_cell(transaction: u64, outcome: Outcome) -> Cell
    ensures { result ≡ cell_of_end transaction outcome }
{
    plain_cell(transaction, RecordKind::End, outcome.number())
}

/// A checkpoint, which is of no transaction.
pub fn checkpoint_cell() -> Cell
    ensures { result ≡ cell_of_checkpoint }
{
    plain_cell(0, RecordKind::Checkpoint, NO_OUTCOME)
}

/// The cell with its number, as it is appended.
pub fn numbered(cell: Cell, number: u64) -> Cell
    ensures { result ≡ with_number number cell }
{
    Cell {
        lsn: number,
        ..cell
    }
}
