//! A lane's call is asked: the words stay, and a step of the lane goes on with it.
ghost use Rattle.std.specs.Prelude.{◌≡◌, ◌<◌, length, OnOk, OnErr, IfErr};
ghost use Rattle.lane_types.specs.May.{May};
ghost use Rattle.lane_book.specs.FacesOf.{lane_at, faces_of};
ghost use Rattle.lane_book.specs.Lanes.{IsRoomier};
ghost use Rattle.log_keeper.specs.Keeper.{keeping_of};
ghost use Rattle.txn_core.specs.Exact.{KeepsBeside, MayMake};
ghost use Rattle.txn_core.specs.Asking.{IsBuilt, IsAsked, IsUnasked, LacksMemory, CanBeAsked, Accepts, Refuses};
ghost use Rattle.txn_core.specs.Phases.{ArePhased};
ghost use Rattle.txn_core.specs.States.{base_of, IsKept, HasWorld};

use crate::ask_calls::ask_quiet;
use crate::ask_ends::{ask_abort, ask_commit};
use crate::ask_refusals::refusal;
use crate::ask_takes::ask_take;
use crate::ask_writes::ask_write;
use lane_book::{Book, Doing};
use lane_traits::Device;
use lane_types::{Call, Deed, Refusal};
use log_keeper::LogKeeper;
use persist_model::{List, NoMemory};
use region_layout::Layout;
use std::alloc::Global;
use std::snapshot::Snapshot;

// A call that is no commit.
fn ask_plainly<D: Device, E: Deed>(
    device: &mut D,
    layout: Layout,
    log: &mut LogKeeper,
    book: &mut Book<E>,
    lane: u32,
    call: &Call<E>,
) -> Result<(), NoMemory>
    requires can { CanBeAsked layout book.old (D.words device.old) lane call.now }
    requires world { HasWorld E.meaning layout book.old log.old (D.cells device.old) (D.spare device.old) (D.counts device.old) }
    ensures cells { D.cells device.new ≡ D.cells device.old }
    ensures counts { D.counts device.new ≡ D.counts device.old }
    ensures log { keeping_of log.new ≡ keeping_of log.old }
    ensures asked { OnOk result (IsAsked E.meaning layout call.now book.old book.new log.old log.new (D.cells device.old) (D.spare device.old) (D.spare device.new) (D.counts device.old) lane) }
    ensures lacks { OnErr result (LacksMemory E.meaning layout book.old book.new log.old log.new (D.cells device.old) (D.spare device.old) (D.spare device.new) (D.counts device.old) lane) }
    ensures unasked { OnErr result (IsUnasked book.old book.new log.old log.new (D.spare device.old) (D.spare device.new) lane) }
    ensures beside { KeepsBeside book.old book.new lane }
    ensures owes { OnOk result (MayMake layout call.now book.old book.new lane) }
{
    match call {
        Call::Begin(set) => ask_quiet(book, lane, call, Doing::Begin(*set)),
        Call::Read(a) => ask_quiet(book, lane, call, Doing::Read(*a)),
        Call::Write(a, v) => ask_write(device, layout, log, book, lane, *a, *v),
        Call::Take(structure) => ask_take(device, layout, log, book, lane, *structure),
        Call::Abort => ask_abort(device, layout, log, book, lane),
        Call::Checkpoint => ask_quiet(book, lane, call, Doing::Checkpoint),
        // A commit is asked by itself, and no other call is built.
        _ => Err(NoMemory),
    }
}

// A call against which nothing stands but want of memory. It is given back where there is none.
fn ask_fitting<D: Device, E: Deed>(
    alloc: Global,
    device: &mut D,
    layout: Layout,
    log: &mut LogKeeper,
    book: &mut Book<E>,
    lane: u32,
    call: Call<E>,
) -> Result<(), (NoMemory, Call<E>)>
    requires can { CanBeAsked layout book.old (D.words device.old) lane call }
    requires world { HasWorld E.meaning layout book.old log.old (D.cells device.old) (D.spare device.old) (D.counts device.old) }
    ensures cells { D.cells device.new ≡ D.cells device.old }
    ensures counts { D.counts device.new ≡ D.counts device.old }
    ensures log { keeping_of log.new ≡ keeping_of log.old }
    ensures asked { OnOk result (IsAsked E.meaning layout call book.old book.new log.old log.new (D.cells device.old) (D.spare device.old) (D.spare device.new) (D.counts device.old) lane) }
    ensures lacks { OnErr result (LacksMemory E.meaning layout book.old book.new log.old log.new (D.cells device.old) (D.spare device.old) (D.spare device.new) (D.counts device.old) lane) }
    ensures unasked { OnErr result (IsUnasked book.old book.new log.old log.new (D.spare device.old) (D.spare device.new) lane) }
    ensures beside { KeepsBeside book.old book.new lane }
    ensures owes { OnOk result (MayMake layout call book.old book.new lane) }
    ensures returned { IfErr result (λ refused. refused.1 ≡ call) }
{
    match call {
        Call::Commit(deed) => match ask_commit(alloc, device, layout, log, book, lane, deed) {
            Ok(()) => Ok(()),
            Err((refused, deed)) => Err((refused, Call::Commit(deed))),
        },
        call => match ask_plainly(device, layout, log, book, lane, &call) {
            Ok(()) => Ok(()),
            Err(refused) => Err((refused, call)),
        },
    }
}

// And where there is no memory, what the lane owes is as it was.
fn ask_whole<D: Device, E: Deed>(
    alloc: Global,
    device: &mut D,
    layout: Layout,
    log: &mut LogKeeper,
    book: &mut Book<E>,
    lane: u32,
    call: Call<E>,
) -> Result<(), (NoMemory, Call<E>)>
    requires can { CanBeAsked layout book.old (D.words device.old) lane call }
    requires world { HasWorld E.meaning layout book.old log.old (D.cells device.old) (D.spare device.old) (D.counts device.old) }
    ensures cells { D.cells device.new ≡ D.cells device.old }
    ensures counts { D.counts device.new ≡ D.counts device.old }
    ensures log { keeping_of log.new ≡ keeping_of log.old }
    ensures asked { OnOk result (IsAsked E.meaning layout call book.old book.new log.old log.new (D.cells device.old) (D.spare device.old) (D.spare device.new) (D.counts device.old) lane) }
    ensures lacks { OnErr result (LacksMemory E.meaning layout book.old book.new log.old log.new (D.cells device.old) (D.spare device.old) (D.spare device.new) (D.counts device.old) lane) }
    ensures leaves { OnErr result (IsRoomier (lane_at book.old lane) (lane_at book.new lane)) }
    ensures beside { KeepsBeside book.old book.new lane }
    ensures owes { OnOk result (MayMake layout call book.old book.new lane) }
    ensures returned { IfErr result (λ refused. refused.1 ≡ call) }
{
    let kept = &book.lanes[lane as usize];
    let events = kept.owed_events;
    let records = kept.owed_records;
    match ask_fitting(alloc, device, layout, log, book, lane, call) {
        Ok(()) => Ok(()),
        Err(refused) => {
            book.owe(lane, events, records);
            Err(refused)
        }
    }
}

/// Makes this the lane's call in progress, for which no step is made: the words of the device stay. The world began at `begun`, with these sorts.
///
/// It is refused where the lane is not in the call's phase, where it names what the lane doesn't hold, where its partition of the log has too little
/// room beside what is reserved, and for want of memory, in this order. The call then comes back, and only the lane's tally is another.
pub fn ask<D: Device, E: Deed>(
    alloc: Global,
    device: &mut D,
    layout: Layout,
    log: &mut LogKeeper,
    book: &mut Book<E>,
    begun: &Snapshot<D>,
    sorts: &Snapshot<List<u64>>,
    lane: u32,
    call: Call<E>,
) -> Result<(), (Refusal, Call<E>)>
    requires lane { lane < length book.old.lanes.items }
    requires kept { IsKept E.meaning layout (base_of layout sorts.now.value (D.words begun.now.value) (D.counts begun.now.value)) book.old log.old (D.cells device.old) (D.spare device.old) (D.counts device.old) }
    requires phased { ArePhased book.old }
    requires built { IsBuilt call }
    requires may { May E.meaning (faces_of (base_of layout sorts.now.value (D.words begun.now.value) (D.counts begun.now.value)) book.old lane) call }
    ensures cells { D.cells device.new ≡ D.cells device.old }
    ensures counts { D.counts device.new ≡ D.counts device.old }
    ensures log { keeping_of log.new ≡ keeping_of log.old }
    ensures kept { IsKept E.meaning layout (base_of layout sorts.now.value (D.words begun.now.value) (D.counts begun.now.value)) book.new log.new (D.cells device.new) (D.spare device.new) (D.counts device.new) }
    ensures phased { ArePhased book.new }
    ensures accepts { OnOk result (Accepts (base_of layout sorts.now.value (D.words begun.now.value) (D.counts begun.now.value)) call book.old book.new lane) }
    ensures refuses { IfErr result (λ refused. Refuses layout (base_of layout sorts.now.value (D.words begun.now.value) (D.counts begun.now.value)) (D.words device.old) call refused.0 book.old book.new lane) }
    ensures beside { KeepsBeside book.old book.new lane }
    ensures owes { OnOk result (MayMake layout call book.old book.new lane) }
    ensures returned { IfErr result (λ refused. refused.1 ≡ call) }
{
    match refusal(device, layout, book, lane, &call) {
        Some(refusal) => {
            book.refuse(lane, &call, refusal);
            Err((refusal, call))
        }
        None => match ask_whole(alloc, device, layout, log, book, lane, call) {
            Ok(()) => Ok(()),
            Err((_, call)) => Err((Refusal::NoMemory, call)),
        },
    }
}
