//! The kinds of records and the outcomes of ends. A cell holds each as a number, and each number has one reading.
ghost use Rattle.std.specs.Prelude.{◌≡◌, ◌≢◌, ◌↔◌};
ghost use Rattle.persist_model.specs.Kinds.{kind_number, kind_of, outcome_number, outcome_of};

use crate::format::{
    CHECKPOINT, COMMITTED, COMPENSATION, DELETION, END, ROLLBACK, ROLLED_BACK, UPDATE,
};

/// What a record says of its transaction.
#[derive(Clone, Copy, Debug, PartialEq, Eq)]
pub enum RecordKind {
    /// It changes a word.
    Update,
    /// It undoes an update.
    Compensation,
    /// It begins to be undone.
    Rollback,
    /// It is ended, with an outcome.
    End,
    /// Of no transaction: all that was changed before is kept.
    Checkpoint,
    /// It gives a block back when it commits.
    Deletion,
}

impl RecordKind {
    /// The kind that a cell's number names, or None of a number that no kind has.
    pub fn read(number: u64) -> Option<RecordKind>
        ensures is { result ≡ kind_of number }
        ensures some { (kind : RecordKind) → (result ≡ Some kind) ↔ (number ≡ kind_number kind) }
        ensures none { result ≡ None → (kind : RecordKind) → number ≢ kind_number kind }
    {
        match number {
            UPDATE => Some(RecordKind::Update),
            COMPENSATION => Some(RecordKind::Compensation),
            ROLLBACK => Some(RecordKind::Rollback),
            END => Some(RecordKind::End),
            CHECKPOINT => Some(RecordKind::Checkpoint),
            DELETION => Some(RecordKind::Deletion),
            _ => None,
        }
    }

    /// The number by which a cell holds the kind.
    pub fn number(self) -> u64
        ensures { result ≡ kind_number self }
    {
        match self {
            RecordKind::Update => UPDATE,
            RecordKind::Compensation => COMPENSATION,
            RecordKind::Rollback => ROLLBACK,
            RecordKind::End => END,
            RecordKind::Checkpoint => CHECKPOINT,
            RecordKind::Deletion => DELETION,
        }
    }
}

/// How a transaction ended.
#[derive(Clone, Copy, Debug, PartialEq, Eq)]
pub enum Outcome {
    Committed,
    RolledBack,
}

impl Outcome {
    /// The outcome that a cell's number names, or None of a number that no outcome has.
    pub fn read(number: u64) -> Option<Outcome>
        ensures { result ≡ outcome_of number }
    {
        match number {
            COMMITTED => Some(Outcome::Committed),
            ROLLED_BACK => Some(Outcome::RolledBack),
            _ => None,
        }
    }

    /// The number by which the cell of an end holds the outcome.
    pub fn number(self) -> u64
        ensures { result ≡ outcome_number self }
    {
        match self {
            Outcome::Committed => COMMITTED,
            Outcome::RolledBack => ROLLED_BACK,
        }
    }
}
