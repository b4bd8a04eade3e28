// The keeper of a region at rest.
ghost use Rattle.std.specs.Prelude.{◌≡◌, ◌++◌, [], ◌∷◌, IfOk, length, map};
ghost use Rattle.log_keeper.specs.Keeper.{keeping_of};
ghost use Rattle.log_keeper.specs.Ordered.{IsOrdered};
ghost use Rattle.log_keeper.specs.Starting.{starting, found_entry, AreFree, AreOldestFirst};

use crate::keeper::LogKeeper;
use crate::ledger::{Entry, Progress};
use crate::slots::{NOBODY, Slot};
use bucket_log::Placed;
use persist_model::NoMemory;
use std::alloc::{AllocError, Global};

// A slot more.
fn put(slots: &mut Vec<Slot>, slot: Slot) -> Result<(), NoMemory>
    ensures { IfOk result (λ u. slots.new.items ≡ slots.old.items ++ slot ∷ []) }
{
    slots.push(slot).map_err(AllocError::from)?;
    Ok(())
}

// Slots in which nothing is under way.
fn free_slots(alloc: Global, partitions: u32) -> Result<Vec<Slot>, NoMemory>
    ensures count { IfOk result (λ slots. length slots.items ≡ partitions) }
    ensures free { IfOk result (λ slots. AreFree slots.items) }
{
    let mut slots = Vec::new(alloc);
    for _ in 0..partitions {
        put(&mut slots, Slot::new(alloc))?;
    }
    Ok(slots)
}

// A record more that was found.
fn find(entries: &mut Vec<Entry>, placed: Placed) -> Result<(), NoMemory>
    ensures { IfOk result (λ u. entries.new.items ≡ entries.old.items ++ found_entry placed ∷ []) }
{
    let entry = Entry {
        lane: NOBODY,
        placed,
        stage: Progress::Settled,
    };
    entries.push(entry).map_err(AllocError::from)?;
    Ok(())
}

// The records that were found.
fn found_entries(alloc: Global, records: &[Placed]) -> Result<Vec<Entry>, NoMemory>
    ensures { IfOk result (λ entries. entries.items ≡ map found_entry records.now) }
{
    let mut entries = Vec::new(alloc);
    for placed in records {
        find(&mut entries, *placed)?;
    }
    Ok(entries)
}

impl LogKeeper {
    /// The keeper of a region at rest with these records, oldest first, which are settled: nothing is under way, and no latch is held.
    pub fn new(
        alloc: Global,
        partitions: u32,
        records: &[Placed],
        next_lsn: u64,
    ) -> Result<LogKeeper, NoMemory>
        ensures kept { IfOk result (λ keeper. keeping_of keeper ≡ starting records.now) }
        ensures number { IfOk result (λ keeper. keeper.next_lsn ≡ next_lsn) }
        ensures slots { IfOk result (λ keeper. length keeper.slots.items ≡ partitions) }
        ensures ordered { AreOldestFirst next_lsn records.now → IfOk result (λ keeper. IsOrdered (keeping_of keeper) keeper.next_lsn) }
    {
        let ledger = found_entries(alloc, records)?;
        let slots = free_slots(alloc, partitions)?;
        Ok(LogKeeper {
            ledger,
            slots,
            next_lsn,
        })
    }
}
