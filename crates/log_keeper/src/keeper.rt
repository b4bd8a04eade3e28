ghost use Rattle.std.specs.Prelude.{◌≡◌, ℕ, ◌<◌, ◌≤◌, ◌+◌, ◌==◌, ◌^◌, [], true, false, length, map, not, slice_get, OnOk};
ghost use Rattle.std.specs.List.{list_any};
ghost use Rattle.std.specs.Vec.{vec_len, vec_capacity};
ghost use Rattle.persist_model.specs.declared.format.TheConstants.{MAX_WORDS};
ghost use Rattle.region_layout.specs.Cell.{record_of};
ghost use Rattle.region_layout.specs.Layout.{layout_shape};
ghost use Rattle.bucket_log.specs.Plans.{place_address};
ghost use Rattle.log_keeper.specs.Fitting.{FitsLayout};
ghost use Rattle.log_keeper.specs.Parts.{rests, closes, takes_back, drops, plan_of};
ghost use Rattle.log_keeper.specs.Logged.{plan_in, latched};
ghost use Rattle.log_keeper.specs.Noting.{ledger_of};
ghost use Rattle.log_keeper.specs.Slots.{HasRoomOf, run_of_slot};
ghost use Rattle.log_keeper.specs.Making.{settled_by, stored_if, made_part};
ghost use Rattle.log_keeper.specs.Keeper.{keeping_of, HasListsFor, HasListFor, numbered, begun_in, appending, latched_if, held_by, is_held, all_latched_if, HasRoomIn, KeepsSlots, free_places};
ghost use Rattle.log_keeper.specs.Ordered.{IsOrdered};
ghost use Rattle.log_keeper.specs.Listing.{gates_in};
ghost use Rattle.log_keeper.specs.Ledger.{AreNewestFirst};
ghost use Rattle.log_keeper.specs.Changes.{all_records, IsLastChange};

use crate::changes::last_change;
use crate::ledger::{Entry, Progress, close_listed, come_to, note};
use crate::listing::count_gates;
use crate::slots::{NOBODY, Part, Slot};
use atomic_list::Remove;
use bucket_log::{Place, Placed};
use persist_model::{Event, NoMemory};
use region_layout::{Cell, Layout};

/// The log's keeper: the records of all lanes, what is under way in each partition and who holds its latch, and the next record's number.
#[derive(Drop)]
pub struct LogKeeper {
    /// The records that have numbers and aren't closed, oldest first.
    pub ledger: Vec<Entry>,
    /// One for each partition.
    pub slots: Vec<Slot>,
    pub next_lsn: u64,
}

// Somebody holds a latch.
fn any_held(slots: &[Slot]) -> bool
    ensures { result ≡ list_any is_held slots.now }
{
    slots.iter().any(|slot| slot.holder != NOBODY)
}

// Each latch is the lane's.
fn latch_all(slots: &mut [Slot], lane: u32)
    ensures { slots.new ≡ map (held_by lane) slots.old }
{
    for slot in slots.iter_mut() {
        slot.holder = lane;
    }
}

// The part is whole: what it leaves of the ledger. The slot's lists have made their events, and are sorted here.
fn settle(ledger: &mut Vec<Entry>, slot: &mut Slot)
    ensures ledger { ledger_of ledger.new.items ≡ settled_by (run_of_slot slot.old).part (ledger_of ledger.old.items) }
    ensures len { vec_len ledger.new ≤ vec_len ledger.old }
    ensures capacity { vec_capacity ledger.new ≡ vec_capacity ledger.old }
    ensures holder { slot.new.holder ≡ slot.old.holder }
    ensures memory { (n : ℕ) → HasRoomOf slot.old n → HasRoomOf slot.new n }
{
    match slot.part {
        Part::Rest => {}
        Part::Append(_, cell) => come_to(ledger, cell.lsn, Progress::Settled),
        Part::Close => {
            slot.sort();
            close_listed(
                ledger,
                slot.gates.as_slice(),
                slot.ends.as_slice(),
                slot.checkpoints.as_slice(),
            );
        }
        Part::TakeBack => {
            slot.sort();
            close_listed(ledger, slot.gates.as_slice(), &[], &[]);
        }
        Part::Drop(_) => {}
    }
}

// The store of an append's gate was made, if that is the part's last event but one.
fn store(ledger: &mut Vec<Entry>, slot: &Slot, last_but_one: bool)
    ensures ledger { ledger_of ledger.new.items ≡ stored_if last_but_one (run_of_slot slot.now).part (ledger_of ledger.old.items) }
    ensures len { vec_len ledger.new ≡ vec_len ledger.old }
    ensures capacity { vec_capacity ledger.new ≡ vec_capacity ledger.old }
{
    if !last_but_one {
        return;
    }
    match slot.part {
        Part::Append(_, cell) => come_to(ledger, cell.lsn, Progress::Stored),
        Part::Rest | Part::Close | Part::TakeBack | Part::Drop(_) => {}
    }
}

impl LogKeeper {
    /// The next event of the partition's part, none where nothing is under way.
    pub fn next_event(&self, layout: Layout, p: u32) -> Option<Event>
        requires slot { p < length self.now.slots.items }
        requires partition { p < 3 }
        requires fits { FitsLayout layout ((keeping_of self.now).runs p).part }
        ensures { result ≡ slice_get (plan_in (layout_shape layout) (keeping_of self.now) p) ((keeping_of self.now).runs p).made }
    {
        let slot = &self.slots[p as usize];
        slot.event_at(layout, p, slot.made)
    }

    /// The next event of the partition's part was made. With the store of an append's gate its record is stored, and with the last event of a
    /// part nothing is under way: an append's record is settled, and those of a closing leave the ledger.
    pub fn made(&mut self, layout: Layout, p: u32)
        requires slot { p < length self.old.slots.items }
        requires partition { p < 3 }
        requires fits { FitsLayout layout ((keeping_of self.old).runs p).part }
        requires few { ((keeping_of self.old).runs p).made ≤ 2 ^ 63 }
        ensures kept { keeping_of self.new ≡ made_part (layout_shape layout) p (keeping_of self.old) }
        ensures number { self.new.next_lsn ≡ self.old.next_lsn }
        ensures places { free_places self.old ≤ free_places self.new }
        ensures slots { KeepsSlots self.old.slots.items self.new.slots.items }
        ensures ordered { IsOrdered (keeping_of self.old) self.old.next_lsn → IsOrdered (keeping_of self.new) self.new.next_lsn }
    {
        let slot = &mut self.slots[p as usize];
        if slot.is_over(layout, p, slot.made + 1) {
            settle(&mut self.ledger, slot);
            slot.begin(Part::Rest);
        } else {
            let last_but_one = slot.is_over(layout, p, slot.made + 2);
            store(&mut self.ledger, slot, last_but_one);
            slot.advance();
        }
    }

    /// The holder of the partition's latch begins an append. The record gets the next number, and its entry goes to memory that was taken before.
    pub fn begin_append(&mut self, p: u32, place: Place, cell: Cell)
        requires slot { p < length self.old.slots.items }
        requires place { (place.bucket < MAX_WORDS) × (place.cell < 2 ^ 16) }
        requires room { vec_len self.old.ledger < vec_capacity self.old.ledger }
        requires numbers { self.old.next_lsn < 2 ^ 63 }
        ensures kept { keeping_of self.new ≡ appending p place (record_of (place_address place) (numbered self.old.next_lsn cell)) (keeping_of self.old) }
        ensures number { self.new.next_lsn ≡ self.old.next_lsn + 1 }
        ensures places { free_places self.new + 1 ≡ free_places self.old }
        ensures slots { KeepsSlots self.old.slots.items self.new.slots.items }
        ensures ordered { IsOrdered (keeping_of self.old) self.old.next_lsn → IsOrdered (keeping_of self.new) self.new.next_lsn }
    {
        let cell = Cell {
            lsn: self.next_lsn,
            ..cell
        };
        let slot = &mut self.slots[p as usize];
        let at = place.bucket + 8 + 8 * place.cell;
        let placed = Placed { at, cell };
        note(
            &mut self.ledger,
            Entry {
                lane: slot.holder,
                placed,
                stage: Progress::Drawn,
            },
        );
        slot.begin(Part::Append(place, cell));
        self.next_lsn += 1;
    }

    /// The holder of the partition's latch begins to close these gates, in the order of the lists. They are listed in memory that was taken before.
    pub fn begin_group(&mut self, p: u32, gates: &[u32], ends: &[u32], checkpoints: &[u32])
        requires slot { p < length self.old.slots.items }
        requires room { HasListsFor self.old.slots.items p gates.now ends.now checkpoints.now }
        ensures kept { keeping_of self.new ≡ begun_in p (closes gates.now ends.now checkpoints.now) (keeping_of self.old).ledger (keeping_of self.old) }
        ensures number { self.new.next_lsn ≡ self.old.next_lsn }
        ensures ledger { self.new.ledger ≡ self.old.ledger }
        ensures slots { KeepsSlots self.old.slots.items self.new.slots.items }
        ensures ordered { IsOrdered (keeping_of self.old) self.old.next_lsn → IsOrdered (keeping_of self.new) self.new.next_lsn }
    {
        self.slots[p as usize].begin_group(gates, ends, checkpoints);
    }

    /// The holder of the partition's latch begins to close all records of the transaction but its end, in the order of their numbers. They are listed
    /// in memory that was taken before.
    pub fn begin_closing(&mut self, p: u32, transaction: u64)
        requires slot { p < length self.old.slots.items }
        requires room { HasRoomIn self.old.slots.items p (length (gates_in transaction false (keeping_of self.old).ledger)) }
        ensures kept { keeping_of self.new ≡ begun_in p (closes (gates_in transaction false (keeping_of self.old).ledger) [] []) (keeping_of self.old).ledger (keeping_of self.old) }
        ensures number { self.new.next_lsn ≡ self.old.next_lsn }
        ensures ledger { self.new.ledger ≡ self.old.ledger }
        ensures slots { KeepsSlots self.old.slots.items self.new.slots.items }
        ensures ordered { IsOrdered (keeping_of self.old) self.old.next_lsn → IsOrdered (keeping_of self.new) self.new.next_lsn }
    {
        let entries = self.ledger.as_slice();
        self.slots[p as usize].begin_closing(entries, transaction);
    }

    /// The holder of the partition's latch begins to close the transaction's end, in memory that was taken before.
    pub fn begin_closing_end(&mut self, p: u32, transaction: u64)
        requires slot { p < length self.old.slots.items }
        requires room { HasRoomIn self.old.slots.items p (length (gates_in transaction true (keeping_of self.old).ledger)) }
        ensures kept { keeping_of self.new ≡ begun_in p (closes [] (gates_in transaction true (keeping_of self.old).ledger) []) (keeping_of self.old).ledger (keeping_of self.old) }
        ensures number { self.new.next_lsn ≡ self.old.next_lsn }
        ensures ledger { self.new.ledger ≡ self.old.ledger }
        ensures slots { KeepsSlots self.old.slots.items self.new.slots.items }
        ensures ordered { IsOrdered (keeping_of self.old) self.old.next_lsn → IsOrdered (keeping_of self.new) self.new.next_lsn }
    {
        let entries = self.ledger.as_slice();
        self.slots[p as usize].begin_closing_end(entries, transaction);
    }

    /// The holder of the partition's latch begins to close the gates, in their order, of deletions that its transaction takes back.
    pub fn begin_taking_back(&mut self, p: u32, gates: &[u32])
        requires slot { p < length self.old.slots.items }
        requires room { HasListFor self.old.slots.items p gates.now }
        ensures kept { keeping_of self.new ≡ begun_in p (takes_back gates.now) (keeping_of self.old).ledger (keeping_of self.old) }
        ensures number { self.new.next_lsn ≡ self.old.next_lsn }
        ensures ledger { self.new.ledger ≡ self.old.ledger }
        ensures slots { KeepsSlots self.old.slots.items self.new.slots.items }
        ensures ordered { IsOrdered (keeping_of self.old) self.old.next_lsn → IsOrdered (keeping_of self.new) self.new.next_lsn }
    {
        self.slots[p as usize].begin_taking_back(gates);
    }

    /// The holder of the partition's latch begins to take out a bucket.
    pub fn begin_removal(&mut self, p: u32, r: Remove)
        requires slot { p < length self.old.slots.items }
        ensures kept { keeping_of self.new ≡ begun_in p (drops r) (keeping_of self.old).ledger (keeping_of self.old) }
        ensures number { self.new.next_lsn ≡ self.old.next_lsn }
        ensures ledger { self.new.ledger ≡ self.old.ledger }
        ensures slots { KeepsSlots self.old.slots.items self.new.slots.items }
        ensures ordered { IsOrdered (keeping_of self.old) self.old.next_lsn → IsOrdered (keeping_of self.new) self.new.next_lsn }
    {
        self.slots[p as usize].begin(Part::Drop(r));
    }

    /// The lane takes the partition's latch, if it is free.
    pub fn take_latch(&mut self, p: u32, lane: u32) -> bool
        requires { p < length self.old.slots.items }
        ensures result { result ≡ ((keeping_of self.old).holder p == NOBODY) }
        ensures kept { keeping_of self.new ≡ latched_if result p lane (keeping_of self.old) }
        ensures number { self.new.next_lsn ≡ self.old.next_lsn }
        ensures ledger { self.new.ledger ≡ self.old.ledger }
        ensures slots { KeepsSlots self.old.slots.items self.new.slots.items }
        ensures ordered { IsOrdered (keeping_of self.old) self.old.next_lsn → IsOrdered (keeping_of self.new) self.new.next_lsn }
    {
        let slot = &mut self.slots[p as usize];
        if slot.holder == NOBODY {
            slot.holder = lane;
            true
        } else {
            false
        }
    }

    /// The partition's latch is let go, where nothing is under way.
    pub fn release_latch(&mut self, p: u32)
        requires slot { p < length self.old.slots.items }
        requires rests { ((keeping_of self.old).runs p).part ≡ rests }
        ensures kept { keeping_of self.new ≡ latched p NOBODY (keeping_of self.old) }
        ensures number { self.new.next_lsn ≡ self.old.next_lsn }
        ensures ledger { self.new.ledger ≡ self.old.ledger }
        ensures slots { KeepsSlots self.old.slots.items self.new.slots.items }
        ensures ordered { IsOrdered (keeping_of self.old) self.old.next_lsn → IsOrdered (keeping_of self.new) self.new.next_lsn }
    {
        self.slots[p as usize].holder = NOBODY;
    }

    /// The lane takes the latches of all partitions, as a checkpoint does, or none where one is held.
    pub fn take_latches(&mut self, lane: u32) -> bool
        ensures result { result ≡ not (list_any is_held self.old.slots.items) }
        ensures kept { keeping_of self.new ≡ all_latched_if result lane (length self.old.slots.items) (keeping_of self.old) }
        ensures number { self.new.next_lsn ≡ self.old.next_lsn }
        ensures ledger { self.new.ledger ≡ self.old.ledger }
        ensures slots { KeepsSlots self.old.slots.items self.new.slots.items }
        ensures ordered { IsOrdered (keeping_of self.old) self.old.next_lsn → IsOrdered (keeping_of self.new) self.new.next_lsn }
    {
        if any_held(self.slots.as_slice()) {
            return false;
        }
        latch_all(self.slots.as_mut_slice(), lane);
        true
    }

    /// How many records of the transaction the ledger has, its end aside.
    pub fn records_of(&self, transaction: u64) -> u64
        ensures { result ≡ length (gates_in transaction false (keeping_of self.now).ledger) }
    {
        count_gates(self.ledger.as_slice(), transaction, false)
    }

    /// What the transaction's newest change of the word left: the NEW of its newest update or compensation, None where it has none.
    pub fn change_of(&self, transaction: u64, word: u64) -> Option<u64>
        ensures { AreNewestFirst (keeping_of self.now).ledger → IsLastChange transaction word (all_records (keeping_of self.now).ledger) result }
    {
        last_change(self.ledger.as_slice(), transaction, word)
    }

    /// Takes memory for so many more records. Nothing else changes.
    pub fn reserve(&mut self, more: usize) -> Result<(), NoMemory>
        ensures kept { keeping_of self.new ≡ keeping_of self.old }
        ensures number { self.new.next_lsn ≡ self.old.next_lsn }
        ensures slots { self.new.slots ≡ self.old.slots }
        ensures room { OnOk result (vec_len self.new.ledger + more ≤ vec_capacity self.new.ledger) }
        ensures places { free_places self.old ≤ free_places self.new }
        ensures kept_places { OnOk result (more ≤ free_places self.new) }
        ensures ordered { IsOrdered (keeping_of self.old) self.old.next_lsn → IsOrdered (keeping_of self.new) self.new.next_lsn }
    {
        self.ledger.reserve(more)?;
        Ok(())
    }

    /// Takes memory for so many gates in each list of the partition. Nothing else changes.
    pub fn reserve_lists(&mut self, p: u32, gates: usize) -> Result<(), NoMemory>
        requires { p < length self.old.slots.items }
        ensures kept { keeping_of self.new ≡ keeping_of self.old }
        ensures number { self.new.next_lsn ≡ self.old.next_lsn }
        ensures ledger { self.new.ledger ≡ self.old.ledger }
        ensures room { OnOk result (HasRoomIn self.new.slots.items p gates) }
        ensures slots { KeepsSlots self.old.slots.items self.new.slots.items }
        ensures ordered { IsOrdered (keeping_of self.old) self.old.next_lsn → IsOrdered (keeping_of self.new) self.new.next_lsn }
    {
        self.slots[p as usize].reserve(gates)
    }
}
