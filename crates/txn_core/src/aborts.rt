// An abort takes back what its transaction wrote: the rollback record, and for each update, newest first, its compensation and its word.
ghost use Rattle.std.specs.Prelude.{◌≡◌, ◌<◌, ◌∷◌, List, length, reverse};
ghost use Rattle.region_layout.specs.declared.cell.Cell.{Cell};
ghost use Rattle.lane_types.specs.declared.call.Phase.TheVariants as Phase;
ghost use Rattle.lane_book.specs.FacesOf.{lane_at};
ghost use Rattle.txn_state.specs.AppendLaws as AppendLaws;
ghost use Rattle.txn_state.specs.Stages.{Opening, Undoing, TakingBack, stage_of};
ghost use Rattle.txn_core.specs.Exact.{GoesExactly};
ghost use Rattle.txn_core.specs.States.{HasWorld};
ghost use Rattle.txn_core.specs.Stepping.{StepsWorld};

use crate::advancing::{Went, append};
use crate::events::{changed_data, make};
use lane_book::Book;
use lane_traits::{Device, Done};
use lane_types::{Deed, Stepped};
use log_keeper::LogKeeper;
use persist_model::Event;
use region_layout::{Cell, Layout, compensation_cell, rollback_cell};
use txn_state::parts::{KEEP, STORE, UNDO};

// The part behind the rollback record, or behind a word that was taken back.
fn undo_part<E>(book: &Book<E>, lane: u32) -> u64
    requires { lane < length book.now.lanes.items }
    ensures { result ≡ AppendLaws.undo_part (lane_at book.now lane) }
{
    if book.lanes[lane as usize].updates.len() == 0 {
        KEEP
    } else {
        UNDO
    }
}

// The newest update that stands, where there is one.
fn newest_update<E>(book: &Book<E>, lane: u32) -> Cell
    requires { lane < length book.now.lanes.items }
    ensures { (c : Cell) (others : List Cell) → reverse (lane_at book.now lane).updates.items ≡ c ∷ others → result ≡ c }
{
    match book.lanes[lane as usize].updates.as_slice().last() {
        Some(cell) => *cell,
        None => rollback_cell(0),
    }
}

// The rollback record is appended.
pub(crate) fn append_rollback<D: Device, E: Deed>(
    device: &mut D,
    layout: Layout,
    log: &mut LogKeeper,
    book: &mut Book<E>,
    lane: u32,
) -> Stepped
    requires lane { lane < length book.old.lanes.items }
    requires calling { (lane_at book.old lane).phase ≡ Phase.Calling }
    requires stage { stage_of (lane_at book.old lane) ≡ Opening }
    requires world { HasWorld E.meaning layout book.old log.old (D.cells device.old) (D.spare device.old) (D.counts device.old) }
    ensures steps { StepsWorld E.meaning layout book.old book.new log.old log.new (D.cells device.old) (D.cells device.new) (D.spare device.old) (D.spare device.new) (D.counts device.old) (D.counts device.new) lane result }
    ensures exact { GoesExactly layout book.old book.new log.old (D.counts device.old) (D.counts device.new) lane result }
{
    let part = book.part(lane);
    let cell = rollback_cell(book.lanes[lane as usize].transaction);
    match append(device, layout, log, book, lane, cell) {
        Went::Answered(answer) => answer,
        Went::Stored(_) => book.rollback_stored(lane, part),
        Went::Whole => {
            let next = undo_part(book, lane);
            log.release_latch(lane % layout.partitions);
            book.go_on(lane, next)
        }
    }
}

// The compensation of the newest update is appended. Behind the store of its gate that update is no more among those that stand, and the cell
// that is made here is of no use.
pub(crate) fn append_compensation<D: Device, E: Deed>(
    device: &mut D,
    layout: Layout,
    log: &mut LogKeeper,
    book: &mut Book<E>,
    lane: u32,
) -> Stepped
    requires lane { lane < length book.old.lanes.items }
    requires calling { (lane_at book.old lane).phase ≡ Phase.Calling }
    requires stage { stage_of (lane_at book.old lane) ≡ Undoing }
    requires world { HasWorld E.meaning layout book.old log.old (D.cells device.old) (D.spare device.old) (D.counts device.old) }
    ensures steps { StepsWorld E.meaning layout book.old book.new log.old log.new (D.cells device.old) (D.cells device.new) (D.spare device.old) (D.spare device.new) (D.counts device.old) (D.counts device.new) lane result }
    ensures exact { GoesExactly layout book.old book.new log.old (D.counts device.old) (D.counts device.new) lane result }
{
    let part = book.part(lane);
    let cell = compensation_cell(&newest_update(book, lane));
    match append(device, layout, log, book, lane, cell) {
        Went::Answered(answer) => answer,
        Went::Stored(_) => book.compensation_stored(lane, part),
        Went::Whole => {
            log.release_latch(lane % layout.partitions);
            book.go_on(lane, STORE)
        }
    }
}

// The word whose update was compensated last becomes what the compensation says.
pub(crate) fn take_word_back<D: Device, E: Deed>(
    device: &mut D,
    layout: Layout,
    log: &mut LogKeeper,
    book: &mut Book<E>,
    lane: u32,
) -> Stepped
    requires lane { lane < length book.old.lanes.items }
    requires calling { (lane_at book.old lane).phase ≡ Phase.Calling }
    requires stage { stage_of (lane_at book.old lane) ≡ TakingBack }
    requires world { HasWorld E.meaning layout book.old log.old (D.cells device.old) (D.spare device.old) (D.counts device.old) }
    ensures steps { StepsWorld E.meaning layout book.old book.new log.old log.new (D.cells device.old) (D.cells device.new) (D.spare device.old) (D.spare device.new) (D.counts device.old) (D.counts device.new) lane result }
    ensures exact { GoesExactly layout book.old book.new log.old (D.counts device.old) (D.counts device.new) lane result }
{
    let kept = &book.lanes[lane as usize];
    let a = kept.writes.as_slice()[kept.stored as usize - 1].address;
    // There is a change, which is the compensation.
    let Some(v) = log.change_of(kept.transaction, u64::from(a)) else {
        return book.stop(lane);
    };
    let next = undo_part(book, lane);
    let touched = changed_data(device, layout, a, v);
    match make(device, book, lane, Event::PStore(a, v)) {
        Done::Stopped => book.stop(lane),
        Done::Made => book.word_taken_back(lane, touched, next),
    }
}
