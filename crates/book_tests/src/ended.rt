//! A book that is finished.
ghost use Rattle.std.specs.Prelude.{◌≡◌, ◌≤◌, length};

use crate::deed::Nothing;
use lane_book::{Book, Commits, Stock};
use lane_types::Entry;
use std::alloc::Global;
use std::process::Abort;
use std::test::Fail;

/// Whether the lane's commit is in flight.
pub fn flies(book: &Book<Nothing>, rt: &impl Abort, lane: u32) -> bool {
    assert!(rt; (lane as usize) < book.lanes.len());
    book.in_flight(lane).is_some()
}

/// The commits of the book, with room made for those in flight.
pub fn finish(
    rt: &impl Abort,
    alloc: Global,
    mut book: Book<Nothing>,
) -> Result<Commits<Nothing>, Fail> {
    assert!(rt; book.lanes.len() <= 16);
    let mut flight = Stock::new(alloc);
    flight.reserve(16)?;
    book.flight = flight;
    Ok(book.finish())
}

/// Whether it is the entry of the lane's transaction with this count and number, and has these writes.
pub fn is_entry(
    entry: &Entry<Nothing>,
    lane: u32,
    number: u64,
    transaction: u64,
    writes: &[(u32, u64)],
) -> bool {
    if entry.lane != lane || entry.number != number || entry.transaction != transaction {
        return false;
    }
    let have = entry.writes.as_slice();
    if have.len() != writes.len() {
        return false;
    }
    for k in 0..writes.len() {
        if have[k].address != writes[k].0 || have[k].value != writes[k].1 {
            return false;
        }
    }
    true
}
