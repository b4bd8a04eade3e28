//! The reserved cells of partitions, 5 of which are kept for checkpoints.
ghost use Rattle.std.specs.Prelude.{◌≤◌, length};

use crate::deed::Nothing;
use lane_book::Book;
use std::process::Abort;

/// Those of the log's one partition.
pub fn reserved(book: &Book<Nothing>, rt: &impl Abort) -> u64 {
    assert!(rt; book.lanes.len() <= 16);
    book.reserved(1, 5, 0)
}

/// Those of each of two partitions.
pub fn reserved_in_two(book: &Book<Nothing>, rt: &impl Abort) -> (u64, u64) {
    assert!(rt; book.lanes.len() <= 16);
    (book.reserved(2, 5, 0), book.reserved(2, 5, 1))
}
