ghost use Rattle.std.specs.Prelude.{◌≡◌, ◌+◌, ◌≤◌, ℕ, length, get_or, IfOk};
ghost use Rattle.lane_book.specs.FacesOf as FacesOf;
ghost use Rattle.lane_book.specs.FacesOf.{idle_lane};
ghost use Rattle.lane_book.specs.Books.{IsBook, IsFresh};

use crate::book::Book;
use crate::lane::{Doing, Lane};
use crate::stock::Stock;
use lane_types::{Phase, Tally};
use offset_alloc::Blocks;
use persist_model::{List, NoMemory};
use std::alloc::Global;

/// The tally of a lane that has done nothing.
fn no_tally() -> Tally
    ensures { result ≡ FacesOf.no_tally }
{
    Tally {
        steps: 0,
        last: None,
        cells: 0,
        checkpoints: 0,
        takes: 0,
        full: false,
        heap: false,
        stopped: false,
    }
}

impl<E> Lane<E> {
    /// A lane before its first call, which takes no memory.
    fn idle(alloc: Global) -> Self
        ensures { result ≡ idle_lane }
    {
        Lane {
            phase: Phase::Out,
            held: 0,
            begun: 0,
            commits: 0,
            answer: None,
            tally: no_tally(),
            doing: Doing::Nothing,
            part: 0,
            transaction: 0,
            joined: 0,
            writes: Stock::new(alloc),
            updates: Stock::new(alloc),
            stored: 0,
            gives: Stock::new(alloc),
            gates: Stock::new(alloc),
            taken: Stock::new(alloc),
            untaken: Stock::new(alloc),
            points: Stock::new(alloc),
            has_records: false,
            rolled: false,
            ended: false,
            point: 0,
            entry: None,
            entered: false,
            owed_events: 0,
            owed_records: 0,
            promised: 0,
        }
    }
}

/// So many lanes before their first calls.
fn idle_lanes<E: Drop>(alloc: Global, count: u32) -> Result<Vec<Lane<E>>, NoMemory>
    ensures many { IfOk result (λ lanes. length lanes.items ≡ count) }
    ensures idle { IfOk result (λ lanes. (l : ℕ) → get_or lanes.items l idle_lane ≡ idle_lane) }
{
    let mut lanes = Vec::new(alloc);
    lanes.reserve(count as usize)?;
    for _ in 0..count {
        lanes.push_reserved(Lane::idle(alloc));
    }
    Ok(lanes)
}

impl<E: Drop> Book<E> {
    /// The book of a world that begins: so many lanes before their first calls, and no commit.
    pub fn new(
        alloc: Global,
        lanes: u32,
        blocks: Blocks,
        sorts: List<u64>,
    ) -> Result<Book<E>, NoMemory>
        ensures is { IfOk result (λ book. IsFresh lanes blocks sorts book) }
        ensures book { IfOk result (λ book. IsBook book) }
    {
        let lanes = idle_lanes(alloc, lanes)?;
        let mut flight = Stock::new(alloc);
        flight.reserve(16)?;
        Ok(Book {
            lanes,
            history: Stock::new(alloc),
            flight,
            blocks,
            sorts,
            next_transaction: 1,
            stopped: false,
            touched: None,
        })
    }
}
