ghost use Rattle.std.specs.Prelude.{◌≡◌, ℕ, ◌<◌, ◌≤◌, ◌+◌, ◌^◌, [], true, false, option_map, slice_get, length, OnOk};
ghost use Rattle.std.specs.Vec.{vec_capacity};
ghost use Rattle.persist_model.specs.declared.format.TheConstants.{MAX_WORDS};
ghost use Rattle.persist_model.specs.Chain.{out_event};
ghost use Rattle.atomic_list.specs.Plans.{removal};
ghost use Rattle.region_layout.specs.Cell.{record_of};
ghost use Rattle.bucket_log.specs.Plans.{append_plan, place_address};
ghost use Rattle.region_layout.specs.Layout.{layout_shape};
ghost use Rattle.log_keeper.specs.Logged.{begun};
ghost use Rattle.log_keeper.specs.Parts.{plan_of, closes, takes_back};
ghost use Rattle.log_keeper.specs.Slots.{run_of_slot, with_part, HasRoomFor, HasRoomOf, IsSortedOf};
ghost use Rattle.log_keeper.specs.Fitting.{FitsLayout};
ghost use Rattle.log_keeper.specs.Noting.{ledger_of};
ghost use Rattle.log_keeper.specs.Listing.{gates_in};
ghost use Rattle.log_keeper.specs.Making.{is_over};
ghost use Rattle.log_keeper.specs.Starting.{IsFree};

use crate::closing::{closing_event, gates_event};
use crate::ledger::Entry;
use crate::listing::list_gates;
use atomic_list::{Remove, remove_event};
use bucket_log::{Place, append_event};
use log_partition::region_event;
use persist_model::{Event, NoMemory};
use region_layout::{Cell, Layout};
use std::alloc::Global;

/// The holder of a latch that is free: no lane has this number.
pub const NOBODY: u32 = 17;

/// What is under way in a partition. The gates that are closed or taken back are the slot's.
#[derive(Clone, Copy, Debug, PartialEq, Eq)]
pub enum Part {
    Rest,
    Append(Place, Cell),
    Close,
    TakeBack,
    Drop(Remove),
}

/// What the keeper has of a partition: who holds its latch, `NOBODY` where it is free, its part, and how many of its events were made.
#[derive(Drop)]
pub struct Slot {
    pub holder: u32,
    pub part: Part,
    pub made: u64,
    /// The gates that are being closed of all but ends and checkpoint records, or that are taken back.
    pub gates: Vec<u32>,
    pub ends: Vec<u32>,
    pub checkpoints: Vec<u32>,
}

// The region's event for one of the partition's view.
fn out_some(p: u32, e: Option<Event>) -> Option<Event>
    requires { p < 3 }
    ensures { result ≡ option_map (out_event p) e }
{
    match e {
        Some(event) => Some(region_event(p, event)),
        None => None,
    }
}

// No append and no removal has so many events.
const MANY: u64 = 64;

// Event i of an append, none behind its last.
fn append_event_at(layout: Layout, place: Place, cell: &Cell, i: u64) -> Option<Event>
    requires bucket { place.bucket < MAX_WORDS }
    requires below { place.cell < layout.cells }
    ensures { result ≡ slice_get (append_plan layout.cells place (record_of (place_address place) cell.now)) i }
{
    if i >= MANY {
        return None;
    }
    append_event(layout, place, cell, i as u32)
}

// Event i of a removal, none behind its last.
fn remove_event_at(r: Remove, i: u64) -> Option<Event>
    requires { r.next < MAX_WORDS }
    ensures { result ≡ slice_get (removal r) i }
{
    if i >= MANY {
        return None;
    }
    remove_event(r, i as u32)
}

// The list gets these gates, in memory that was taken before.
fn fill(list: &mut Vec<u32>, gates: &[u32])
    requires { length gates.now ≤ vec_capacity list.old }
    ensures items { list.new.items ≡ gates.now }
    ensures capacity { vec_capacity list.old ≤ vec_capacity list.new }
{
    list.clear();
    match list.extend_from_slice(gates) {
        Ok(()) => {}
        Err(_) => {}
    }
}

// The list in the order of its addresses, which wants no memory.
fn sort_gates(list: &mut Vec<u32>)
    ensures sorted { IsSortedOf list.old.items list.new.items }
    ensures capacity { vec_capacity list.new ≡ vec_capacity list.old }
{
    list.sort_unstable();
}

impl Slot {
    /// Nothing is under way, and the latch is free. Its lists take no memory yet.
    pub fn new(alloc: Global) -> Slot
        ensures free { IsFree result }
    {
        Slot {
            holder: NOBODY,
            part: Part::Rest,
            made: 0,
            gates: Vec::new(alloc),
            ends: Vec::new(alloc),
            checkpoints: Vec::new(alloc),
        }
    }

    /// Event i of the partition's part, none behind its last.
    pub fn event_at(&self, layout: Layout, p: u32, i: u64) -> Option<Event>
        requires partition { p < 3 }
        requires fits { FitsLayout layout (run_of_slot self.now).part }
        ensures { result ≡ slice_get (plan_of (layout_shape layout) p (run_of_slot self.now).part) i }
    {
        match self.part {
            Part::Rest => None,
            Part::Append(place, cell) => out_some(p, append_event_at(layout, place, &cell, i)),
            Part::Close => closing_event(
                self.gates.as_slice(),
                self.ends.as_slice(),
                self.checkpoints.as_slice(),
                i,
            ),
            Part::TakeBack => gates_event(self.gates.as_slice(), i),
            Part::Drop(r) => out_some(p, remove_event_at(r, i)),
        }
    }

    /// The part has no more than i events.
    pub fn is_over(&self, layout: Layout, p: u32, i: u64) -> bool
        requires partition { p < 3 }
        requires fits { FitsLayout layout (run_of_slot self.now).part }
        ensures { result ≡ is_over (plan_of (layout_shape layout) p (run_of_slot self.now).part) i }
    {
        self.event_at(layout, p, i).is_none()
    }

    /// The next event was made.
    pub fn advance(&mut self)
        requires { self.now.made ≤ 2 ^ 63 }
        ensures { self.new ≡ with_part self.old.part (self.old.made + 1) self.old }
    {
        self.made += 1;
    }

    /// A part begins. A group begins by `begin_group`, as its gates are to be listed.
    pub fn begin(&mut self, part: Part)
        ensures { self.new ≡ with_part part 0 self.old }
    {
        self.part = part;
        self.made = 0;
    }

    /// The closing of these gates begins, in memory that was taken before.
    pub fn begin_group(&mut self, gates: &[u32], ends: &[u32], checkpoints: &[u32])
        requires { HasRoomFor self.old gates.now ends.now checkpoints.now }
        ensures run { run_of_slot self.new ≡ begun (closes gates.now ends.now checkpoints.now) }
        ensures holder { self.new.holder ≡ self.old.holder }
        ensures gates { self.new.gates.items ≡ gates.now }
        ensures ends { self.new.ends.items ≡ ends.now }
        ensures checkpoints { self.new.checkpoints.items ≡ checkpoints.now }
        ensures memory { (n : ℕ) → HasRoomOf self.old n → HasRoomOf self.new n }
    {
        fill(&mut self.gates, gates);
        fill(&mut self.ends, ends);
        fill(&mut self.checkpoints, checkpoints);
        self.part = Part::Close;
        self.made = 0;
    }

    /// The closing of these deletions, which are taken back, begins, in memory that was taken before.
    pub fn begin_taking_back(&mut self, gates: &[u32])
        requires { length gates.now ≤ vec_capacity self.old.gates }
        ensures run { run_of_slot self.new ≡ begun (takes_back gates.now) }
        ensures holder { self.new.holder ≡ self.old.holder }
        ensures gates { self.new.gates.items ≡ gates.now }
        ensures ends { self.new.ends.items ≡ self.old.ends.items }
        ensures checkpoints { self.new.checkpoints.items ≡ self.old.checkpoints.items }
        ensures memory { (n : ℕ) → HasRoomOf self.old n → HasRoomOf self.new n }
    {
        fill(&mut self.gates, gates);
        self.part = Part::TakeBack;
        self.made = 0;
    }

    /// The closing of the transaction's records begins, but for its end, in memory that was taken before.
    pub(crate) fn begin_closing(&mut self, entries: &[Entry], transaction: u64)
        requires { length (gates_in transaction false (ledger_of entries.now)) ≤ vec_capacity self.old.gates }
        ensures run { run_of_slot self.new ≡ begun (closes (gates_in transaction false (ledger_of entries.now)) [] []) }
        ensures holder { self.new.holder ≡ self.old.holder }
        ensures memory { (n : ℕ) → HasRoomOf self.old n → HasRoomOf self.new n }
    {
        list_gates(&mut self.gates, entries, transaction, false);
        self.ends.clear();
        self.checkpoints.clear();
        self.part = Part::Close;
        self.made = 0;
    }

    /// The closing of the transaction's end begins, in memory that was taken before.
    pub(crate) fn begin_closing_end(&mut self, entries: &[Entry], transaction: u64)
        requires { length (gates_in transaction true (ledger_of entries.now)) ≤ vec_capacity self.old.ends }
        ensures run { run_of_slot self.new ≡ begun (closes [] (gates_in transaction true (ledger_of entries.now)) []) }
        ensures holder { self.new.holder ≡ self.old.holder }
        ensures memory { (n : ℕ) → HasRoomOf self.old n → HasRoomOf self.new n }
    {
        self.gates.clear();
        list_gates(&mut self.ends, entries, transaction, true);
        self.checkpoints.clear();
        self.part = Part::Close;
        self.made = 0;
    }

    /// Takes memory for so many gates in each list. Nothing else changes.
    pub fn reserve(&mut self, gates: usize) -> Result<(), NoMemory>
        ensures run { run_of_slot self.new ≡ run_of_slot self.old }
        ensures holder { self.new.holder ≡ self.old.holder }
        ensures room { OnOk result (HasRoomOf self.new gates) }
        ensures memory { (n : ℕ) → HasRoomOf self.old n → HasRoomOf self.new n }
    {
        self.gates.reserve(gates)?;
        self.ends.reserve(gates)?;
        self.checkpoints.reserve(gates)?;
        Ok(())
    }

    /// The lists in the order of their addresses, so that a gate is found fast. Nothing else changes.
    pub(crate) fn sort(&mut self)
        ensures gates { IsSortedOf self.old.gates.items self.new.gates.items }
        ensures ends { IsSortedOf self.old.ends.items self.new.ends.items }
        ensures checkpoints { IsSortedOf self.old.checkpoints.items self.new.checkpoints.items }
        ensures holder { self.new.holder ≡ self.old.holder }
        ensures memory { (n : ℕ) → HasRoomOf self.old n → HasRoomOf self.new n }
    {
        sort_gates(&mut self.gates);
        sort_gates(&mut self.ends);
        sort_gates(&mut self.checkpoints);
    }
}
