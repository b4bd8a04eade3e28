// A step of a lane's call, by the call and the part of its plan.
ghost use Rattle.std.specs.Prelude.{◌≡◌, ◌≢◌, ◌<◌, true, length};
ghost use Rattle.lane_types.specs.declared.call.Phase.TheVariants as Phase;
ghost use Rattle.lane_book.specs.FacesOf.{lane_at};
ghost use Rattle.lane_book.specs.declared.lane.Doing.TheVariants as Doing;
ghost use Rattle.txn_state.specs.Stages.{stage_of, end_stage};
ghost use Rattle.txn_state.specs.declared.parts.TheConstants as parts;
ghost use Rattle.txn_core.specs.Exact.{GoesExactly, StepsExactly};
ghost use Rattle.txn_core.specs.Latched.{HaveBegun};
ghost use Rattle.txn_core.specs.Phases.{IsPhased};
ghost use Rattle.txn_core.specs.States.{HasWorld};
ghost use Rattle.txn_core.specs.Stepping.{StepsWorld};

use crate::aborts::{append_compensation, append_rollback, take_word_back};
use crate::clearing::{clear_further, close_records};
use crate::ends::{append_commit, append_undone, fence};
use crate::quiet::{
    abort_unrecorded, begin_transaction, checkpoint, commit_unrecorded, idle, read_word, stop,
};
use crate::takes::store_owner;
use crate::writes::{append_update, store_word};
use lane_book::{Book, Doing};
use lane_traits::Device;
use lane_types::{Deed, Stepped};
use log_keeper::LogKeeper;
use region_layout::Layout;
use txn_state::parts::{CLOSE, END, FIRST, KEEP, STORE, UNDO};

// Whether the lane's transaction has a record.
fn has_records<E>(book: &Book<E>, lane: u32) -> bool
    requires { lane < length book.now.lanes.items }
    ensures { result ≡ (lane_at book.now lane).has_records }
{
    book.lanes[lane as usize].has_records
}

// A write: its update is appended, and then its word is stored.
fn step_write<D: Device, E: Deed>(
    device: &mut D,
    layout: Layout,
    log: &mut LogKeeper,
    book: &mut Book<E>,
    lane: u32,
    a: u32,
    v: u64,
) -> Stepped
    requires lane { lane < length book.old.lanes.items }
    requires calling { (lane_at book.old lane).phase ≡ Phase.Calling }
    requires phased { IsPhased (lane_at book.old lane) }
    requires doing { (lane_at book.old lane).doing ≡ Doing.Write a v }
    requires world { HasWorld E.meaning layout book.old log.old (D.cells device.old) (D.spare device.old) (D.counts device.old) }
    ensures steps { StepsWorld E.meaning layout book.old book.new log.old log.new (D.cells device.old) (D.cells device.new) (D.spare device.old) (D.spare device.new) (D.counts device.old) (D.counts device.new) lane result }
    ensures exact { GoesExactly layout book.old book.new log.old (D.counts device.old) (D.counts device.new) lane result }
{
    let part = book.part(lane);
    if part == STORE {
        return store_word(device, layout, log, book, lane, a, v);
    }
    append_update(device, layout, log, book, lane, a, v)
}

// A take: the update of the block's owner word is appended, and then the word is stored.
fn step_take<D: Device, E: Deed>(
    device: &mut D,
    layout: Layout,
    log: &mut LogKeeper,
    book: &mut Book<E>,
    lane: u32,
    structure: u32,
    block: u32,
) -> Stepped
    requires lane { lane < length book.old.lanes.items }
    requires calling { (lane_at book.old lane).phase ≡ Phase.Calling }
    requires phased { IsPhased (lane_at book.old lane) }
    requires doing { (lane_at book.old lane).doing ≡ Doing.Take structure block }
    requires world { HasWorld E.meaning layout book.old log.old (D.cells device.old) (D.spare device.old) (D.counts device.old) }
    ensures steps { StepsWorld E.meaning layout book.old book.new log.old log.new (D.cells device.old) (D.cells device.new) (D.spare device.old) (D.spare device.new) (D.counts device.old) (D.counts device.new) lane result }
    ensures exact { GoesExactly layout book.old book.new log.old (D.counts device.old) (D.counts device.new) lane result }
{
    let part = book.part(lane);
    if part == STORE {
        return store_owner(device, layout, log, book, lane, structure, block);
    }
    let owner = u64::from(structure) + 1;
    append_update(device, layout, log, book, lane, layout.block(block), owner)
}

// Behind the append of the end: its transaction's records are closed, and buckets are taken out.
fn step_clearing<D: Device, E: Deed>(
    device: &mut D,
    layout: Layout,
    log: &mut LogKeeper,
    book: &mut Book<E>,
    lane: u32,
) -> Stepped
    requires lane { lane < length book.old.lanes.items }
    requires calling { (lane_at book.old lane).phase ≡ Phase.Calling }
    requires phased { IsPhased (lane_at book.old lane) }
    requires stage { stage_of (lane_at book.old lane) ≡ end_stage (lane_at book.old lane).part }
    requires behind { (lane_at book.old lane).part ≢ parts.END }
    requires world { HasWorld E.meaning layout book.old log.old (D.cells device.old) (D.spare device.old) (D.counts device.old) }
    ensures steps { StepsWorld E.meaning layout book.old book.new log.old log.new (D.cells device.old) (D.cells device.new) (D.spare device.old) (D.spare device.new) (D.counts device.old) (D.counts device.new) lane result }
    ensures exact { GoesExactly layout book.old book.new log.old (D.counts device.old) (D.counts device.new) lane result }
{
    let part = book.part(lane);
    if part == CLOSE {
        return close_records(device, layout, log, book, lane);
    }
    clear_further(device, layout, log, book, lane)
}

// A commit.
fn step_commit<D: Device, E: Deed>(
    device: &mut D,
    layout: Layout,
    log: &mut LogKeeper,
    book: &mut Book<E>,
    lane: u32,
) -> Stepped
    requires lane { lane < length book.old.lanes.items }
    requires calling { (lane_at book.old lane).phase ≡ Phase.Calling }
    requires phased { IsPhased (lane_at book.old lane) }
    requires doing { (lane_at book.old lane).doing ≡ Doing.Commit }
    requires world { HasWorld E.meaning layout book.old log.old (D.cells device.old) (D.spare device.old) (D.counts device.old) }
    ensures steps { StepsWorld E.meaning layout book.old book.new log.old log.new (D.cells device.old) (D.cells device.new) (D.spare device.old) (D.spare device.new) (D.counts device.old) (D.counts device.new) lane result }
    ensures exact { GoesExactly layout book.old book.new log.old (D.counts device.old) (D.counts device.new) lane result }
{
    let recorded = has_records(book, lane);
    if !recorded {
        return commit_unrecorded(device, layout, log, book, lane);
    }
    let part = book.part(lane);
    if part == FIRST {
        return fence(device, layout, log, book, lane);
    }
    if part == END {
        return append_commit(device, layout, log, book, lane);
    }
    step_clearing(device, layout, log, book, lane)
}

// An abort of a transaction that has records.
fn step_undo<D: Device, E: Deed>(
    device: &mut D,
    layout: Layout,
    log: &mut LogKeeper,
    book: &mut Book<E>,
    lane: u32,
) -> Stepped
    requires lane { lane < length book.old.lanes.items }
    requires calling { (lane_at book.old lane).phase ≡ Phase.Calling }
    requires phased { IsPhased (lane_at book.old lane) }
    requires doing { (lane_at book.old lane).doing ≡ Doing.Abort }
    requires recorded { (lane_at book.old lane).has_records ≡ true }
    requires world { HasWorld E.meaning layout book.old log.old (D.cells device.old) (D.spare device.old) (D.counts device.old) }
    ensures steps { StepsWorld E.meaning layout book.old book.new log.old log.new (D.cells device.old) (D.cells device.new) (D.spare device.old) (D.spare device.new) (D.counts device.old) (D.counts device.new) lane result }
    ensures exact { GoesExactly layout book.old book.new log.old (D.counts device.old) (D.counts device.new) lane result }
{
    let part = book.part(lane);
    if part == FIRST {
        return append_rollback(device, layout, log, book, lane);
    }
    if part == STORE {
        return take_word_back(device, layout, log, book, lane);
    }
    if part == UNDO {
        return append_compensation(device, layout, log, book, lane);
    }
    if part == KEEP {
        return fence(device, layout, log, book, lane);
    }
    if part == END {
        return append_undone(device, layout, log, book, lane);
    }
    step_clearing(device, layout, log, book, lane)
}

// An abort.
fn step_abort<D: Device, E: Deed>(
    device: &mut D,
    layout: Layout,
    log: &mut LogKeeper,
    book: &mut Book<E>,
    lane: u32,
) -> Stepped
    requires lane { lane < length book.old.lanes.items }
    requires calling { (lane_at book.old lane).phase ≡ Phase.Calling }
    requires phased { IsPhased (lane_at book.old lane) }
    requires doing { (lane_at book.old lane).doing ≡ Doing.Abort }
    requires world { HasWorld E.meaning layout book.old log.old (D.cells device.old) (D.spare device.old) (D.counts device.old) }
    ensures steps { StepsWorld E.meaning layout book.old book.new log.old log.new (D.cells device.old) (D.cells device.new) (D.spare device.old) (D.spare device.new) (D.counts device.old) (D.counts device.new) lane result }
    ensures exact { GoesExactly layout book.old book.new log.old (D.counts device.old) (D.counts device.new) lane result }
{
    let recorded = has_records(book, lane);
    if recorded {
        return step_undo(device, layout, log, book, lane);
    }
    abort_unrecorded(device, layout, log, book, lane)
}

/// Goes on with the lane's call, by one event at most. Once a step was answered `Stopped`, each later one is.
pub fn step<D: Device, E: Deed>(
    device: &mut D,
    layout: Layout,
    log: &mut LogKeeper,
    book: &mut Book<E>,
    lane: u32,
) -> Stepped
    requires lane { lane < length book.old.lanes.items }
    requires phased { IsPhased (lane_at book.old lane) }
    requires world { HasWorld E.meaning layout book.old log.old (D.cells device.old) (D.spare device.old) (D.counts device.old) }
    ensures steps { StepsWorld E.meaning layout book.old book.new log.old log.new (D.cells device.old) (D.cells device.new) (D.spare device.old) (D.spare device.new) (D.counts device.old) (D.counts device.new) lane result }
    ensures exact { StepsExactly layout book.old book.new log.old (D.counts device.old) (D.counts device.new) lane result }
    ensures begins { HaveBegun layout book.old log.old → HaveBegun layout book.new log.new }
{
    if book.stopped {
        return stop(device, layout, log, book, lane);
    }
    match book.doing(lane) {
        Doing::Nothing => idle(device, layout, log, book, lane),
        Doing::Begin(set) => begin_transaction(device, layout, log, book, lane, set),
        Doing::Read(a) => read_word(device, layout, log, book, lane, a),
        Doing::Write(a, v) => step_write(device, layout, log, book, lane, a, v),
        Doing::Commit => step_commit(device, layout, log, book, lane),
        Doing::Abort => step_abort(device, layout, log, book, lane),
        Doing::Checkpoint => checkpoint(device, layout, log, book, lane),
        Doing::Take(structure, block) => step_take(
            device, layout, log, book, lane, structure, block,
        ),
        // No lane has such a call in progress.
        Doing::Give(_) => stop(device, layout, log, book, lane),
        Doing::Batch(_) => stop(device, layout, log, book, lane),
        Doing::Savepoint => stop(device, layout, log, book, lane),
        Doing::RollbackTo(_) => stop(device, layout, log, book, lane),
    }
}
