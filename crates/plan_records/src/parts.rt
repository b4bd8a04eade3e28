//! The parts of the plans of transactions, and what the plans are made from.
use persist_model::{Event, List};
use region_layout::Cell;

/// A part of a transaction's plan.
#[derive(Clone, Copy, Debug)]
pub enum Part {
    /// The append of a record. Its gate is filled in when the append is made.
    Append(Cell),
    /// One event on a heap word.
    Word(Event),
    /// Waits until all that the lane stored is kept.
    Fence,
    /// Closes records of transactions that are ended.
    Clear,
}

/// A word's change by a transaction.
#[derive(Clone, Copy, Debug, PartialEq, Eq)]
pub struct Update {
    pub transaction: u64,
    /// The word's address.
    pub word: u32,
    /// Its value before the change.
    pub before: u64,
    /// Its value after the change.
    pub after: u64,
    /// The number of the update that the transaction would undo next, or 0.
    pub undo_next: u64,
}

/// A block that a transaction gives back.
#[derive(Clone, Copy, Debug, PartialEq, Eq)]
pub struct Giving {
    pub transaction: u64,
    /// The address of the block's owner.
    pub owner_word: u32,
    /// What stands there: the structure's number and 1.
    pub owner: u64,
}

/// The end of a transaction that commits.
#[derive(Drop)]
pub struct Closing {
    pub transaction: u64,
    /// The owner words of the blocks that it gave back, in the order in which it did.
    pub deletions: List<u32>,
}

/// The end of a transaction that is undone.
#[derive(Drop)]
pub struct Undoing {
    pub transaction: u64,
    /// Its updates that no compensation names, newest first.
    pub updates: List<Cell>,
}
