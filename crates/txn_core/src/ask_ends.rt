// The calls that end a transaction are asked.
ghost use Rattle.std.specs.Prelude.{◌≡◌, ◌<◌, ◌≤◌, length, OnOk, OnErr, IfErr};
ghost use Rattle.lane_types.specs.Asks as Asks;
ghost use Rattle.lane_types.specs.declared.call.Call.TheVariants as Call;
ghost use Rattle.lane_types.specs.declared.call.Phase.TheVariants as Phase;
ghost use Rattle.lane_book.specs.declared.lane.Doing.TheVariants as Doing;
ghost use Rattle.lane_book.specs.Books.{IsBook};
ghost use Rattle.lane_book.specs.Entries.{AreBlocks};
ghost use Rattle.lane_book.specs.FacesOf.{lane_at};
ghost use Rattle.log_keeper.specs.Keeper.{keeping_of};
ghost use Rattle.txn_state.specs.QuietLaws.{HasMorePlaces};
ghost use Rattle.txn_core.specs.Exact.{KeepsBeside, MayMake};
ghost use Rattle.txn_core.specs.Asking.{ChangesFace, IsUnasked, StaysTaken, StaysRefused};
ghost use Rattle.txn_core.specs.AskedEnds.{IsCommitAsked};
ghost use Rattle.txn_core.specs.Phases.{ArePhased};
ghost use Rattle.txn_core.specs.States.{HasWorld};

use crate::ask_memory::take_memory;
use crate::ask_wants::{abort_wants, commit_wants};
use lane_book::{Book, Doing};
use lane_traits::Device;
use lane_types::{Call, Deed};
use log_keeper::LogKeeper;
use persist_model::NoMemory;
use region_layout::Layout;
use std::alloc::Global;

/// An abort is the lane's call, with memory for all that it may want. After `NoMemory` no face is another.
pub(crate) fn ask_abort<D: Device, E: Deed>(
    device: &mut D,
    layout: Layout,
    log: &mut LogKeeper,
    book: &mut Book<E>,
    lane: u32,
) -> Result<(), NoMemory>
    requires lane { lane < length book.old.lanes.items }
    requires nothing { (lane_at book.old lane).doing ≡ Doing.Nothing }
    requires phase { (lane_at book.old lane).phase ≡ Phase.In }
    requires world { HasWorld E.meaning layout book.old log.old (D.cells device.old) (D.spare device.old) (D.counts device.old) }
    ensures cells { D.cells device.new ≡ D.cells device.old }
    ensures counts { D.counts device.new ≡ D.counts device.old }
    ensures log { keeping_of log.new ≡ keeping_of log.old }
    ensures face { OnOk result (ChangesFace (Asks.asked Call.Abort) book.old book.new lane) }
    ensures same_face { OnErr result (ChangesFace (λ face. face) book.old book.new lane) }
    ensures stays { OnOk result (StaysTaken E.meaning layout Call.Abort book.old book.new log.old log.new (D.cells device.old) (D.spare device.old) (D.spare device.new) (D.counts device.old) lane) }
    ensures still { OnErr result (StaysRefused E.meaning layout book.old book.new log.old log.new (D.cells device.old) (D.spare device.old) (D.spare device.new) (D.counts device.old)) }
    ensures unasked { OnErr result (IsUnasked book.old book.new log.old log.new (D.spare device.old) (D.spare device.new) lane) }
    ensures phased { ArePhased book.old → ArePhased book.new }
    ensures beside { KeepsBeside book.old book.new lane }
    ensures owes { OnOk result (MayMake layout Call.Abort book.old book.new lane) }
    ensures book { IsBook book.new }
{
    let kept = &book.lanes[lane as usize];
    let n = log.records_of(kept.transaction);
    let wants = abort_wants(layout, n, kept.updates.len() as u64);
    match take_memory(device, log, book, lane, lane % layout.partitions, wants) {
        Ok(()) => book.ask_plain(lane, &Call::Abort, Doing::Abort),
        Err(refused) => Err(refused),
    }
}

// The writes of the entry are made, and the commit is the lane's call.
fn ask_entry<E: Deed>(
    alloc: Global,
    layout: Layout,
    book: &mut Book<E>,
    lane: u32,
    deed: E,
) -> Result<(), (NoMemory, E)>
    requires lane { lane < length book.old.lanes.items }
    requires nothing { (lane_at book.old lane).doing ≡ Doing.Nothing }
    requires book { IsBook book.old }
    requires begun { 1 ≤ (lane_at book.old lane).begun }
    requires inside { AreBlocks layout (lane_at book.old lane).gives.items }
    ensures asked { OnOk result (IsCommitAsked layout deed book.old book.new lane) }
    ensures places { OnErr result (HasMorePlaces book.old book.new) }
    ensures deed { IfErr result (λ refused. refused.1 ≡ deed) }
    ensures book { IsBook book.new }
{
    match book.entry_writes(alloc, layout, lane) {
        Ok(writes) => {
            book.ask_commit(lane, deed, writes);
            Ok(())
        }
        Err(refused) => Err((refused, deed)),
    }
}

/// A commit with this deed is the lane's call, with memory for all that it may want. After `NoMemory`, with which the deed is given back, no face is
/// another.
pub(crate) fn ask_commit<D: Device, E: Deed>(
    alloc: Global,
    device: &mut D,
    layout: Layout,
    log: &mut LogKeeper,
    book: &mut Book<E>,
    lane: u32,
    deed: E,
) -> Result<(), (NoMemory, E)>
    requires lane { lane < length book.old.lanes.items }
    requires nothing { (lane_at book.old lane).doing ≡ Doing.Nothing }
    requires phase { (lane_at book.old lane).phase ≡ Phase.In }
    requires world { HasWorld E.meaning layout book.old log.old (D.cells device.old) (D.spare device.old) (D.counts device.old) }
    ensures cells { D.cells device.new ≡ D.cells device.old }
    ensures counts { D.counts device.new ≡ D.counts device.old }
    ensures log { keeping_of log.new ≡ keeping_of log.old }
    ensures face { OnOk result (ChangesFace (Asks.asked (Call.Commit deed)) book.old book.new lane) }
    ensures same_face { OnErr result (ChangesFace (λ face. face) book.old book.new lane) }
    ensures stays { OnOk result (StaysTaken E.meaning layout (Call.Commit deed) book.old book.new log.old log.new (D.cells device.old) (D.spare device.old) (D.spare device.new) (D.counts device.old) lane) }
    ensures still { OnErr result (StaysRefused E.meaning layout book.old book.new log.old log.new (D.cells device.old) (D.spare device.old) (D.spare device.new) (D.counts device.old)) }
    ensures unasked { OnErr result (IsUnasked book.old book.new log.old log.new (D.spare device.old) (D.spare device.new) lane) }
    ensures phased { ArePhased book.old → ArePhased book.new }
    ensures beside { KeepsBeside book.old book.new lane }
    ensures owes { OnOk result (MayMake layout (Call.Commit deed) book.old book.new lane) }
    ensures deed { IfErr result (λ refused. refused.1 ≡ deed) }
    ensures book { IsBook book.new }
{
    let n = log.records_of(book.lanes[lane as usize].transaction);
    let wants = commit_wants(layout, n);
    match take_memory(device, log, book, lane, lane % layout.partitions, wants) {
        Ok(()) => ask_entry(alloc, layout, book, lane, deed),
        Err(refused) => Err((refused, deed)),
    }
}
