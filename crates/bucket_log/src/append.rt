ghost use Rattle.std.specs.Prelude.{◌≡◌, ◌<◌, ◌^◌, true, slice_get};
ghost use Rattle.persist_model.specs.declared.format.TheConstants.{MAX_WORDS};
ghost use Rattle.region_layout.specs.Cell.{record_of};
ghost use Rattle.bucket_log.specs.Plans.{append_plan, cell_plan, place_address};

use atomic_list::{Insert, insert_event};
use persist_model::Event;
use region_layout::{Cell, Layout};

/// Where the next record goes.
#[derive(Clone, Copy, Debug, PartialEq, Eq)]
pub struct Place {
    /// The bucket's address.
    pub bucket: u32,
    /// The number of the cell in it.
    pub cell: u32,
    /// The bucket isn't in the chain: it is put behind the tail first.
    pub fresh: bool,
    /// The chain's last bucket, or 0.
    pub tail: u32,
}

/// How many events put a bucket behind the chain.
const INSERTION: u32 = 11;

// Event i of writing the cell at this address: its body, and then its gate.
fn cell_event(at: u32, cell: &Cell, i: u32) -> Option<Event>
    requires { at < 2 ^ 31 }
    ensures { result ≡ slice_get (cell_plan (record_of at cell.now)) i }
{
    let event = match i {
        0 => Event::PStore(at + 1, cell.transaction),
        1 => Event::PStore(at + 2, cell.kind),
        2 => Event::PStore(at + 3, cell.word),
        3 => Event::PStore(at + 4, cell.before),
        4 => Event::PStore(at + 5, cell.after),
        5 => Event::PStore(at + 6, cell.undo_next),
        6 => Event::PStore(at + 7, cell.outcome),
        8 => Event::PStore(at, cell.lsn),
        7 | 9 => Event::Fence,
        _ => return None,
    };
    Some(event)
}

// Event i of an append in a fresh bucket.
fn fresh_event(layout: Layout, place: Place, cell: &Cell, i: u32) -> Option<Event>
    requires bucket { place.bucket < MAX_WORDS }
    requires below { place.cell < layout.cells }
    requires fresh { place.fresh ≡ true }
    ensures { result ≡ slice_get (append_plan layout.cells place (record_of (place_address place) cell.now)) i }
{
    if i < layout.cells {
        return Some(Event::PStore(place.bucket + 8 + 8 * i, 0));
    }
    let after = i - layout.cells;
    if after < INSERTION {
        let insert = Insert {
            node: place.bucket,
            tail: place.tail,
        };
        return insert_event(insert, after);
    }
    cell_event(place.bucket + 8 + 8 * place.cell, cell, after - INSERTION)
}

/// Event i of the append of a cell, with the addresses of the partition's view: 21 and the cells of a bucket for a fresh bucket,
/// 10 for another.
pub fn append_event(layout: Layout, place: Place, cell: &Cell, i: u32) -> Option<Event>
    requires bucket { place.bucket < MAX_WORDS }
    requires below { place.cell < layout.cells }
    ensures { result ≡ slice_get (append_plan layout.cells place (record_of (place_address place) cell.now)) i }
{
    if place.fresh {
        return fresh_event(layout, place, cell, i);
    }
    cell_event(place.bucket + 8 + 8 * place.cell, cell, i)
}
