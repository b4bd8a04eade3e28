// One event of what a lane has under way in its partition of the log.
ghost use Rattle.std.specs.Prelude.{◌≡◌, ◌%◌, ◌<◌, ◌≤◌, ◌^◌, length, ◌+◌};
ghost use Rattle.region_layout.specs.Layout.{layout_shape};
ghost use Rattle.lane_book.specs.FacesOf.{lane_at};
ghost use Rattle.lane_book.specs.Books.{IsBook};
ghost use Rattle.log_keeper.specs.Fitting.{FitsLayout};
ghost use Rattle.log_keeper.specs.Keeper.{keeping_of};
ghost use Rattle.log_keeper.specs.Logged.{plan_in};
ghost use Rattle.log_keeper.specs.Making.{is_over};
ghost use Rattle.txn_state.specs.ReadLaws.{HasNextEvent};
ghost use Rattle.txn_core.specs.Running.{IsStoredCell, Runs, Pays};

use lane_book::Book;
use lane_traits::{Device, Done};
use log_keeper::{LogKeeper, Part};
use persist_model::Event;
use region_layout::{Cell, Layout};

/// What came of the next event of a lane's part.
#[derive(Clone, Copy, Debug, PartialEq, Eq)]
pub enum Ran {
    /// The device has stopped.
    Stopped,
    /// It is made, and is none of the others.
    Going,
    /// It stored the gate of the record of this cell.
    Stored(Cell),
    /// It was the part's last.
    Whole,
}

// Whether the next event of the partition's part is its last.
fn is_last(log: &LogKeeper, layout: Layout, p: u32) -> bool
    requires slot { p < length log.now.slots.items }
    requires partition { p < 3 }
    requires fits { FitsLayout layout ((keeping_of log.now).runs p).part }
    requires few { ((keeping_of log.now).runs p).made ≤ 2 ^ 63 }
    ensures { result ≡ is_over (plan_in (layout_shape layout) (keeping_of log.now) p) (((keeping_of log.now).runs p).made + 1) }
{
    let slot = &log.slots[p as usize];
    slot.is_over(layout, p, slot.made + 1)
}

// The cell of the record whose gate the next event stores, if it does that.
fn stored_cell(log: &LogKeeper, layout: Layout, p: u32) -> Option<Cell>
    requires slot { p < length log.now.slots.items }
    requires partition { p < 3 }
    requires fits { FitsLayout layout ((keeping_of log.now).runs p).part }
    requires few { ((keeping_of log.now).runs p).made ≤ 2 ^ 63 }
    ensures { IsStoredCell layout log.now p result }
{
    let slot = &log.slots[p as usize];
    match slot.part {
        Part::Append(_, cell) => {
            if slot.is_over(layout, p, slot.made + 2) {
                Some(cell)
            } else {
                None
            }
        }
        Part::Rest | Part::Close | Part::TakeBack | Part::Drop(_) => None,
    }
}

/// The next event of the lane's part is made, and the keeper and the lane's book have it. After `Stopped` keeper, book and words are as they were.
pub fn run<D: Device, E>(
    device: &mut D,
    layout: Layout,
    log: &mut LogKeeper,
    book: &mut Book<E>,
    lane: u32,
) -> Ran
    requires lane { lane < length book.old.lanes.items }
    requires few { length book.old.lanes.items ≤ 16 }
    requires slots { length log.old.slots.items ≡ layout.partitions }
    requires holder { (keeping_of log.old).holder (lane % layout.partitions) ≡ lane }
    requires fits { FitsLayout layout ((keeping_of log.old).runs (lane % layout.partitions)).part }
    requires next { HasNextEvent layout log.old (D.cells device.old) (lane % layout.partitions) }
    requires owed { 1 ≤ (lane_at book.old lane).owed_events }
    requires spare { 1 ≤ D.spare device.old }
    requires book { IsBook book.old }
    ensures runs { Runs layout log.old log.new (D.cells device.old) (D.cells device.new) (D.counts device.old) (D.counts device.new) lane (D.spare device.old) (D.spare device.new) result }
    ensures pays { Pays book.old book.new lane result }
    ensures book { IsBook book.new }
{
    let p = lane % layout.partitions;
    let last = is_last(log, layout, p);
    let stored = stored_cell(log, layout, p);
    // There is one, as `next` says.
    let Some(event) = log.next_event(layout, p) else {
        return Ran::Stopped;
    };
    match device.event(lane, event) {
        Done::Stopped => return Ran::Stopped,
        Done::Made => {}
    }
    book.pay_event(lane);
    log.made(layout, p);
    if last {
        return Ran::Whole;
    }
    match stored {
        Some(cell) => Ran::Stored(cell),
        None => Ran::Going,
    }
}
