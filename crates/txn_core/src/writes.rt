// A write: its update is appended, and then its word is stored.
ghost use Rattle.std.specs.Prelude.{◌≡◌, ◌<◌, length, reverse};
ghost use Rattle.persist_model.specs.Region.{newest};
ghost use Rattle.lane_book.specs.FacesOf.{lane_at};
ghost use Rattle.lane_book.specs.declared.lane.Doing.TheVariants as Doing;
ghost use Rattle.txn_state.specs.AppendLaws as AppendLaws;
ghost use Rattle.txn_state.specs.Stages.{Naming, Storing, stage_of};
ghost use Rattle.txn_core.specs.Exact.{GoesExactly};
ghost use Rattle.txn_core.specs.States.{HasWorld};
ghost use Rattle.txn_core.specs.Putting.{Puts};
ghost use Rattle.txn_core.specs.Stepping.{StepsWorld};

use crate::advancing::{Went, append};
use crate::events::{changed, make};
use lane_book::Book;
use lane_traits::{Device, Done};
use lane_types::{Deed, Stepped};
use log_keeper::LogKeeper;
use persist_model::Event;
use plan_records::{Update, update_cell};
use region_layout::{Cell, Layout};
use txn_state::parts::STORE;

// The number of the newest of these updates, oldest first, or 0.
fn top_number(updates: &[Cell]) -> u64
    ensures { result ≡ AppendLaws.top_cell (reverse updates.now) }
{
    match updates.last() {
        Some(cell) => cell.lsn,
        None => 0,
    }
}

// The cell of the update of what the lane is to write.
fn write_cell<D: Device, E: Deed>(device: &D, book: &Book<E>, lane: u32, a: u32, v: u64) -> Cell
    requires lane { lane < length book.now.lanes.items }
    requires word { a < (D.cells device.now).size }
    ensures { result ≡ AppendLaws.write_cell (D.cells device.now) (lane_at book.now lane) (record { address = a; value = v }) }
{
    let kept = &book.lanes[lane as usize];
    update_cell(&Update {
        transaction: kept.transaction,
        word: a,
        before: device.word(a),
        after: v,
        undo_next: top_number(kept.updates.as_slice()),
    })
}

// The update of the write, or of the take, is appended, event by event.
pub(crate) fn append_update<D: Device, E: Deed>(
    device: &mut D,
    layout: Layout,
    log: &mut LogKeeper,
    book: &mut Book<E>,
    lane: u32,
    a: u32,
    v: u64,
) -> Stepped
    requires lane { lane < length book.old.lanes.items }
    requires puts { Puts layout (lane_at book.old lane).doing a v }
    requires stage { stage_of (lane_at book.old lane) ≡ Naming }
    requires world { HasWorld E.meaning layout book.old log.old (D.cells device.old) (D.spare device.old) (D.counts device.old) }
    ensures steps { StepsWorld E.meaning layout book.old book.new log.old log.new (D.cells device.old) (D.cells device.new) (D.spare device.old) (D.spare device.new) (D.counts device.old) (D.counts device.new) lane result }
    ensures exact { GoesExactly layout book.old book.new log.old (D.counts device.old) (D.counts device.new) lane result }
{
    let part = book.part(lane);
    let cell = write_cell(device, book, lane, a, v);
    match append(device, layout, log, book, lane, cell) {
        Went::Answered(answer) => answer,
        Went::Stored(stored) => book.update_stored(lane, stored, part),
        Went::Whole => {
            log.release_latch(lane % layout.partitions);
            book.go_on(lane, STORE)
        }
    }
}

// The word is stored, and the write is answered.
pub(crate) fn store_word<D: Device, E: Deed>(
    device: &mut D,
    layout: Layout,
    log: &mut LogKeeper,
    book: &mut Book<E>,
    lane: u32,
    a: u32,
    v: u64,
) -> Stepped
    requires lane { lane < length book.old.lanes.items }
    requires doing { (lane_at book.old lane).doing ≡ Doing.Write a v }
    requires stage { stage_of (lane_at book.old lane) ≡ Storing }
    requires world { HasWorld E.meaning layout book.old log.old (D.cells device.old) (D.spare device.old) (D.counts device.old) }
    ensures steps { StepsWorld E.meaning layout book.old book.new log.old log.new (D.cells device.old) (D.cells device.new) (D.spare device.old) (D.spare device.new) (D.counts device.old) (D.counts device.new) lane result }
    ensures exact { GoesExactly layout book.old book.new log.old (D.counts device.old) (D.counts device.new) lane result }
{
    let touched = changed(device, a, v);
    match make(device, book, lane, Event::PStore(a, v)) {
        Done::Stopped => book.stop(lane),
        Done::Made => book.written(lane, a, v, touched),
    }
}
