// Steps without an event.
ghost use Rattle.std.specs.Prelude.{◌≡◌, ◌<◌, false, length, true};
ghost use Rattle.lane_types.specs.declared.call.Phase.TheVariants as Phase;
ghost use Rattle.lane_book.specs.FacesOf.{lane_at};
ghost use Rattle.lane_book.specs.declared.lane.Doing.TheVariants as Doing;
ghost use Rattle.txn_state.specs.Stages.{Leaving, stage_of};
ghost use Rattle.txn_core.specs.Exact.{GoesExactly, StepsExactly};
ghost use Rattle.txn_core.specs.Latched.{HaveBegun};
ghost use Rattle.txn_core.specs.States.{HasWorld};
ghost use Rattle.txn_core.specs.Quiet.{KeepsWorld};

use lane_book::Book;
use lane_traits::Device;
use lane_types::{Deed, Stepped};
use log_keeper::LogKeeper;
use persist_model::Look;
use region_layout::Layout;

// The lane has no call in progress.
pub(crate) fn idle<D: Device, E: Deed>(
    device: &D,
    layout: Layout,
    log: &LogKeeper,
    book: &mut Book<E>,
    lane: u32,
) -> Stepped
    requires lane { lane < length book.old.lanes.items }
    requires running { book.old.stopped ≡ false }
    requires doing { (lane_at book.old lane).doing ≡ Doing.Nothing }
    requires world { HasWorld E.meaning layout book.old log.now (D.cells device.now) (D.spare device.now) (D.counts device.now) }
    ensures steps { KeepsWorld E.meaning layout book.old book.new log.now (D.cells device.now) (D.spare device.now) (D.counts device.now) lane result }
    ensures exact { StepsExactly layout book.old book.new log.now (D.counts device.now) (D.counts device.now) lane result }
{
    book.idle(lane)
}

// The device has stopped before.
pub(crate) fn stop<D: Device, E: Deed>(
    device: &D,
    layout: Layout,
    log: &LogKeeper,
    book: &mut Book<E>,
    lane: u32,
) -> Stepped
    requires lane { lane < length book.old.lanes.items }
    requires stopped { book.old.stopped ≡ true }
    requires world { HasWorld E.meaning layout book.old log.now (D.cells device.now) (D.spare device.now) (D.counts device.now) }
    ensures begins { HaveBegun layout book.new log.now }
    ensures steps { KeepsWorld E.meaning layout book.old book.new log.now (D.cells device.now) (D.spare device.now) (D.counts device.now) lane result }
    ensures exact { StepsExactly layout book.old book.new log.now (D.counts device.now) (D.counts device.now) lane result }
{
    book.stop(lane)
}

// A transaction begins, or waits for a structure.
pub(crate) fn begin_transaction<D: Device, E: Deed>(
    device: &D,
    layout: Layout,
    log: &LogKeeper,
    book: &mut Book<E>,
    lane: u32,
    set: u8,
) -> Stepped
    requires lane { lane < length book.old.lanes.items }
    requires calling { (lane_at book.old lane).phase ≡ Phase.Calling }
    requires doing { (lane_at book.old lane).doing ≡ Doing.Begin set }
    requires world { HasWorld E.meaning layout book.old log.now (D.cells device.now) (D.spare device.now) (D.counts device.now) }
    ensures steps { KeepsWorld E.meaning layout book.old book.new log.now (D.cells device.now) (D.spare device.now) (D.counts device.now) lane result }
    ensures exact { GoesExactly layout book.old book.new log.now (D.counts device.now) (D.counts device.now) lane result }
{
    book.begin(lane, set)
}

// The word is read.
pub(crate) fn read_word<D: Device, E: Deed>(
    device: &D,
    layout: Layout,
    log: &LogKeeper,
    book: &mut Book<E>,
    lane: u32,
    a: u32,
) -> Stepped
    requires lane { lane < length book.old.lanes.items }
    requires calling { (lane_at book.old lane).phase ≡ Phase.Calling }
    requires doing { (lane_at book.old lane).doing ≡ Doing.Read a }
    requires world { HasWorld E.meaning layout book.old log.now (D.cells device.now) (D.spare device.now) (D.counts device.now) }
    ensures steps { KeepsWorld E.meaning layout book.old book.new log.now (D.cells device.now) (D.spare device.now) (D.counts device.now) lane result }
    ensures exact { GoesExactly layout book.old book.new log.now (D.counts device.now) (D.counts device.now) lane result }
{
    let value = device.word(a);
    book.read(lane, a, value)
}

// Each commit is written to the heap as it ends, so that a checkpoint has nothing to do.
pub(crate) fn checkpoint<D: Device, E: Deed>(
    device: &D,
    layout: Layout,
    log: &LogKeeper,
    book: &mut Book<E>,
    lane: u32,
) -> Stepped
    requires lane { lane < length book.old.lanes.items }
    requires calling { (lane_at book.old lane).phase ≡ Phase.Calling }
    requires doing { (lane_at book.old lane).doing ≡ Doing.Checkpoint }
    requires world { HasWorld E.meaning layout book.old log.now (D.cells device.now) (D.spare device.now) (D.counts device.now) }
    ensures steps { KeepsWorld E.meaning layout book.old book.new log.now (D.cells device.now) (D.spare device.now) (D.counts device.now) lane result }
    ensures exact { GoesExactly layout book.old book.new log.now (D.counts device.now) (D.counts device.now) lane result }
{
    book.checkpointed(lane)
}

// A commit without a record joins the history.
pub(crate) fn commit_unrecorded<D: Device, E: Deed>(
    device: &D,
    layout: Layout,
    log: &LogKeeper,
    book: &mut Book<E>,
    lane: u32,
) -> Stepped
    requires lane { lane < length book.old.lanes.items }
    requires calling { (lane_at book.old lane).phase ≡ Phase.Calling }
    requires doing { (lane_at book.old lane).doing ≡ Doing.Commit }
    requires unjoined { (lane_at book.old lane).entered ≡ false }
    requires stage { stage_of (lane_at book.old lane) ≡ Leaving }
    requires world { HasWorld E.meaning layout book.old log.now (D.cells device.now) (D.spare device.now) (D.counts device.now) }
    ensures steps { KeepsWorld E.meaning layout book.old book.new log.now (D.cells device.now) (D.spare device.now) (D.counts device.now) lane result }
    ensures exact { GoesExactly layout book.old book.new log.now (D.counts device.now) (D.counts device.now) lane result }
{
    book.commit(lane)
}

// An abort without a record has nothing to take back.
pub(crate) fn abort_unrecorded<D: Device, E: Deed>(
    device: &D,
    layout: Layout,
    log: &LogKeeper,
    book: &mut Book<E>,
    lane: u32,
) -> Stepped
    requires lane { lane < length book.old.lanes.items }
    requires calling { (lane_at book.old lane).phase ≡ Phase.Calling }
    requires doing { (lane_at book.old lane).doing ≡ Doing.Abort }
    requires stage { stage_of (lane_at book.old lane) ≡ Leaving }
    requires world { HasWorld E.meaning layout book.old log.now (D.cells device.now) (D.spare device.now) (D.counts device.now) }
    ensures steps { KeepsWorld E.meaning layout book.old book.new log.now (D.cells device.now) (D.spare device.now) (D.counts device.now) lane result }
    ensures exact { GoesExactly layout book.old book.new log.now (D.counts device.now) (D.counts device.now) lane result }
{
    book.aborted(lane)
}
