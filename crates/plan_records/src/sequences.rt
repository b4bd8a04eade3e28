//! The parts that the plans of both policies share.
ghost use Rattle.std.specs.Prelude.{◌≡◌, ◌<◌, ◌^◌, All, length, slice_get};
ghost use Rattle.plan_records.specs.Sequences.{store_of, undo_parts, owner_parts, HasAddress};
ghost use Rattle.plan_records.specs.Courses.{write_parts, give_parts};

use crate::cells::{deletion_cell, update_cell};
use crate::parts::{Giving, Part, Update};
use persist_model::{Event, List};
use region_layout::{Cell, Policy, compensation_cell};

/// The store of a value to a heap word, which is kept from the next fence on under force, and isn't asked to be kept under no-force.
pub fn word_store(policy: Policy, word: u32, value: u64) -> Event
    ensures { result ≡ store_of policy word value }
{
    match policy {
        Policy::Force => Event::PStore(word, value),
        Policy::NoForce => Event::Store(word, value),
    }
}

/// Part i of the write of a word: its record, and then the store.
pub fn write_part(update: &Update, policy: Policy, i: u64) -> Option<Part>
    ensures { result ≡ slice_get (write_parts policy update.now) i }
{
    match i {
        0 => Some(Part::Append(update_cell(update))),
        1 => Some(Part::Word(word_store(policy, update.word, update.after))),
        _ => None,
    }
}

/// Part i of the giving back of a block: the record of its deletion.
pub fn give_part(giving: &Giving, i: u64) -> Option<Part>
    ensures { result ≡ slice_get (give_parts giving.now) i }
{
    match i {
        0 => Some(Part::Append(deletion_cell(giving))),
        _ => None,
    }
}

/// Part i of the undo of updates, newest first: for each the append of its compensation and the store of its value before.
pub fn undo_part(updates: &List<Cell>, policy: Policy, i: u64) -> Option<Part>
    requires { All HasAddress updates.now }
    ensures { result ≡ slice_get (undo_parts policy updates.now) i }
{
    match updates.get((i / 2) as usize) {
        None => None,
        Some(update) => {
            if i % 2 == 0 {
                Some(Part::Append(compensation_cell(update)))
            } else {
                Some(Part::Word(word_store(policy, update.word as u32, update.before)))
            }
        }
    }
}

/// Part i of the deletion of blocks: a store of 0 to each owner word, and then a fence; nothing where there are none.
pub fn owner_part(owners: &List<u32>, i: u64) -> Option<Part>
    ensures { result ≡ slice_get (owner_parts owners.now) i }
{
    let count = owners.len() as u64;
    match owners.get(i as usize) {
        Some(owner) => Some(Part::Word(Event::PStore(*owner, 0))),
        None => {
            if count > 0 && i == count {
                Some(Part::Fence)
            } else {
                None
            }
        }
    }
}

/// How many parts the deletion of these blocks has.
pub fn owner_part_count(owners: &List<u32>) -> u64
    ensures { result ≡ length (owner_parts owners.now) }
{
    let count = owners.as_slice().len() as u64;
    if count == 0 { 0 } else { count + 1 }
}
