// Memory for all that a call may want, which is taken before the call is asked.
ghost use Rattle.std.specs.Prelude.{◌≡◌, ◌-◌, ◌<◌, ◌≤◌, ◌^◌, length, OnOk, OnErr};
ghost use Rattle.lane_book.specs.FacesOf.{lane_at};
ghost use Rattle.lane_book.specs.Books.{IsBook};
ghost use Rattle.log_keeper.specs.Keeper.{keeping_of, free_places, HasRoomIn, KeepsSlots};
ghost use Rattle.txn_state.specs.Changes as Changes;
ghost use Rattle.txn_core.specs.Asking.{HasNoLess, Owes, StaysBetween};

use lane_book::Book;
use lane_traits::Device;
use lane_types::Deed;
use log_keeper::LogKeeper;
use persist_model::NoMemory;

/// What a call may want at the most: events, records that it begins to append, and places in each list of its partition.
#[derive(Clone, Copy, Debug, PartialEq, Eq)]
pub struct Wants {
    pub events: u64,
    pub records: u64,
    pub gates: u64,
}

// Places of the device for so many events, of the ledger for so many records, and of the partition's lists for so many gates. The greatest number
// stands for all that are greater, and for that there is no memory.
fn reserve_all<D: Device>(
    device: &mut D,
    log: &mut LogKeeper,
    p: u32,
    wants: Wants,
) -> Result<(), NoMemory>
    requires slot { p < length log.old.slots.items }
    ensures cells { D.cells device.new ≡ D.cells device.old }
    ensures counts { D.counts device.new ≡ D.counts device.old }
    ensures spare { D.spare device.old ≤ D.spare device.new }
    ensures log { Changes.IsKept log.old log.new (keeping_of log.old) }
    ensures small_events { OnOk result (wants.events < 2 ^ 64 - 1) }
    ensures small_records { OnOk result (wants.records < 2 ^ 64 - 1) }
    ensures small_gates { OnOk result (wants.gates < 2 ^ 64 - 1) }
    ensures events { OnOk result (wants.events ≤ D.spare device.new) }
    ensures records { OnOk result (wants.records ≤ free_places log.new) }
    ensures lists { OnOk result (HasRoomIn log.new.slots.items p wants.gates) }
{
    if wants.events == u64::MAX {
        return Err(NoMemory);
    }
    if wants.records == u64::MAX {
        return Err(NoMemory);
    }
    if wants.gates == u64::MAX {
        return Err(NoMemory);
    }
    device.reserve(wants.events)?;
    log.reserve(wants.records as usize)?;
    log.reserve_lists(p, wants.gates as usize)
}

/// The lane owes what its next call may want, and there is memory for it beside what the other lanes owe. After `NoMemory` it owes nothing.
pub(crate) fn take_memory<D: Device, E: Deed>(
    device: &mut D,
    log: &mut LogKeeper,
    book: &mut Book<E>,
    lane: u32,
    p: u32,
    wants: Wants,
) -> Result<(), NoMemory>
    requires lane { lane < length book.old.lanes.items }
    requires slot { p < length log.old.slots.items }
    requires book { IsBook book.old }
    ensures cells { D.cells device.new ≡ D.cells device.old }
    ensures counts { D.counts device.new ≡ D.counts device.old }
    ensures log { keeping_of log.new ≡ keeping_of log.old }
    ensures slots { length log.new.slots.items ≡ length log.old.slots.items }
    ensures more { HasNoLess log.old log.new (D.spare device.old) (D.spare device.new) }
    ensures book { IsBook book.new }
    ensures stays { StaysBetween E.meaning book.old book.new log.old log.new (D.cells device.old) (D.spare device.old) (D.spare device.new) (D.counts device.old) lane }
    ensures owes { OnOk result (Owes book.old book.new lane wants.events wants.records) }
    ensures small_events { OnOk result (wants.events < 2 ^ 64 - 1) }
    ensures small_records { OnOk result (wants.records < 2 ^ 64 - 1) }
    ensures small_gates { OnOk result (wants.gates < 2 ^ 64 - 1) }
    ensures lists { OnOk result (HasRoomIn log.new.slots.items p wants.gates) }
    ensures owes_nothing { OnErr result (Owes book.old book.new lane 0 0) }
{
    book.owe(lane, wants.events, wants.records);
    let all = Wants {
        events: book.owed_events(),
        records: book.owed_records(),
        gates: wants.gates,
    };
    match reserve_all(device, log, p, all) {
        Ok(()) => Ok(()),
        Err(refused) => {
            book.owe(lane, 0, 0);
            Err(refused)
        }
    }
}
