// The end of a transaction: a fence, the append of its end, with which a commit's entry joins the history.
ghost use Rattle.std.specs.Prelude.{◌≡◌, ◌⊎◌, ◌<◌, length};
ghost use Rattle.lane_book.specs.FacesOf.{lane_at};
ghost use Rattle.lane_book.specs.declared.lane.Doing.TheVariants as Doing;
ghost use Rattle.txn_state.specs.Stages.{Securing, Keeping, Ending, stage_of};
ghost use Rattle.txn_core.specs.Exact.{GoesExactly};
ghost use Rattle.txn_core.specs.Phases.{IsPhased};
ghost use Rattle.txn_core.specs.States.{HasWorld};
ghost use Rattle.txn_core.specs.Stepping.{StepsWorld};

use crate::advancing::{Went, append};
use crate::events::make;
use lane_book::Book;
use lane_traits::{Device, Done};
use lane_types::{Deed, Stepped};
use log_keeper::LogKeeper;
use persist_model::{Event, Outcome};
use region_layout::{Layout, end_cell};
use txn_state::parts::{CLOSE, END};

// A commit's fence, or an abort's behind all that it took back: the end comes next.
pub(crate) fn fence<D: Device, E: Deed>(
    device: &mut D,
    layout: Layout,
    log: &mut LogKeeper,
    book: &mut Book<E>,
    lane: u32,
) -> Stepped
    requires lane { lane < length book.old.lanes.items }
    requires stage { (stage_of (lane_at book.old lane) ≡ Securing) ⊎ (stage_of (lane_at book.old lane) ≡ Keeping) }
    requires world { HasWorld E.meaning layout book.old log.old (D.cells device.old) (D.spare device.old) (D.counts device.old) }
    ensures steps { StepsWorld E.meaning layout book.old book.new log.old log.new (D.cells device.old) (D.cells device.new) (D.spare device.old) (D.spare device.new) (D.counts device.old) (D.counts device.new) lane result }
    ensures exact { GoesExactly layout book.old book.new log.old (D.counts device.old) (D.counts device.new) lane result }
{
    match make(device, book, lane, Event::Fence) {
        Done::Stopped => book.stop(lane),
        Done::Made => book.go_on(lane, END),
    }
}

// The end of a commit is appended. Behind its last event its entry is in the history, and its records are closed.
pub(crate) fn append_commit<D: Device, E: Deed>(
    device: &mut D,
    layout: Layout,
    log: &mut LogKeeper,
    book: &mut Book<E>,
    lane: u32,
) -> Stepped
    requires lane { lane < length book.old.lanes.items }
    requires phased { IsPhased (lane_at book.old lane) }
    requires doing { (lane_at book.old lane).doing ≡ Doing.Commit }
    requires stage { stage_of (lane_at book.old lane) ≡ Ending }
    requires world { HasWorld E.meaning layout book.old log.old (D.cells device.old) (D.spare device.old) (D.counts device.old) }
    ensures steps { StepsWorld E.meaning layout book.old book.new log.old log.new (D.cells device.old) (D.cells device.new) (D.spare device.old) (D.spare device.new) (D.counts device.old) (D.counts device.new) lane result }
    ensures exact { GoesExactly layout book.old book.new log.old (D.counts device.old) (D.counts device.new) lane result }
{
    let part = book.part(lane);
    let transaction = book.lanes[lane as usize].transaction;
    let cell = end_cell(transaction, Outcome::Committed);
    match append(device, layout, log, book, lane, cell) {
        Went::Answered(answer) => answer,
        Went::Stored(_) => book.end_stored(lane, part),
        Went::Whole => {
            log.begin_closing(lane % layout.partitions, transaction);
            book.join(lane, CLOSE)
        }
    }
}

// And the end of an abort.
pub(crate) fn append_undone<D: Device, E: Deed>(
    device: &mut D,
    layout: Layout,
    log: &mut LogKeeper,
    book: &mut Book<E>,
    lane: u32,
) -> Stepped
    requires lane { lane < length book.old.lanes.items }
    requires doing { (lane_at book.old lane).doing ≡ Doing.Abort }
    requires stage { stage_of (lane_at book.old lane) ≡ Ending }
    requires world { HasWorld E.meaning layout book.old log.old (D.cells device.old) (D.spare device.old) (D.counts device.old) }
    ensures steps { StepsWorld E.meaning layout book.old book.new log.old log.new (D.cells device.old) (D.cells device.new) (D.spare device.old) (D.spare device.new) (D.counts device.old) (D.counts device.new) lane result }
    ensures exact { GoesExactly layout book.old book.new log.old (D.counts device.old) (D.counts device.new) lane result }
{
    let part = book.part(lane);
    let transaction = book.lanes[lane as usize].transaction;
    let cell = end_cell(transaction, Outcome::RolledBack);
    match append(device, layout, log, book, lane, cell) {
        Went::Answered(answer) => answer,
        Went::Stored(_) => book.end_stored(lane, part),
        Went::Whole => {
            log.begin_closing(lane % layout.partitions, transaction);
            book.go_on(lane, CLOSE)
        }
    }
}
