ghost use Rattle.std.specs.Prelude.{◌≡◌, ◌≢◌, ◌<◌, ◌≤◌, ◌-◌, ◌^◌, ◌++◌, [], ℕ, Bool, min, true, false, length, slice_index, Some, OnOk, IfOk, IfErr};
ghost use Rattle.std.specs.List.{filter};
ghost use Rattle.std.specs.Option.{option_copied};
ghost use Rattle.persist_model.specs.Region.{AreSettled};
ghost use Rattle.lane_types.specs.declared.call.Phase.TheVariants as Phase;
ghost use Rattle.lane_types.specs.declared.face.Entry as face;
ghost use Rattle.lane_types.specs.Asks.{has_word};
ghost use Rattle.lane_types.specs.Faces.{Base};
ghost use Rattle.lane_book.specs.declared.lane.Doing.TheVariants as Doing;
ghost use Rattle.lane_book.specs.FacesOf.{lane_at, faces_of};
ghost use Rattle.lane_book.specs.Flights.{flight_at, flights_of};
ghost use Rattle.lane_book.specs.Steps.{IsStep, IsLawfulFrom, held_by};
ghost use Rattle.lane_types.specs.May.{May};
ghost use Rattle.lane_types.specs.Seen.{AreInAgreement};
ghost use Rattle.rest_check.specs.Rest.{IsRestCause};
ghost use Rattle.txn_core.specs.Asking.{IsBuilt, Accepts, Refuses};
ghost use Rattle.txn_core.specs.Laning.{seen_in};
ghost use Rattle.log_keeper.specs.declared.slots.TheConstants.{NOBODY};
ghost use Rattle.log_keeper.specs.Keeper.{keeping_of};
ghost use Rattle.txn_core.specs.Exact.{events_owed, world_events, KeepsBeside, MayMake, StepsExactly};
ghost use Rattle.txn_core.specs.Latched.{HasMadeOne, HaveBegun, HoldsLatch};
ghost use Rattle.txn_core.specs.Images.{LeavesNothing};
ghost use Rattle.txn_core.specs.Phases.{ArePhased};
ghost use Rattle.txn_core.specs.Starting.{IsForced, Starts};
ghost use Rattle.txn_core.specs.States.{base_of, IsKept};
ghost use Rattle.txn_core.specs.Stepping.{HasMade, IsCause, TouchesWord};
ghost use Rattle.txn_core.specs.Worlds.{IsNew, StandForCommits};
ghost use Rattle.txn_state.specs.ReadLaws.{room_seen};
ghost use Rattle.txn_state.specs.States.{reserved_for};

use crate::asking::ask;
use crate::starting::{Begun, start};
use crate::stepping::step;
use bucket_log::room;
use lane_book::{Book, Stock};
use lane_traits::Device;
use lane_types::{Call, Deed, Entry, Face, Refusal, Remains, Stepped};
use log_keeper::LogKeeper;
use log_partition::PartView;
use persist_model::{List, Look, NoMemory};
use region_layout::Layout;
use rest_check::RestFault;
use std::alloc::Global;
use std::snapshot::Snapshot;

/// Transactions of several lanes on one device.
///
/// A lane makes one call at a time: it asks, and then makes steps until one is answered. A step makes at most one event of the device. After each
/// ask and each step of any lane, whatever a stop leaves of the device stands for the history and those commits in flight that it has.
#[derive(Drop)]
pub struct World<D: Device, E: Deed> {
    pub(crate) device: D,
    pub(crate) layout: Layout,
    pub(crate) book: Book<E>,
    pub(crate) log: LogKeeper,
    /// Where the commits in flight are put when the world is finished.
    pub(crate) flight: Stock<Entry<E>>,
    /// The device when the world began, and what the deeds have in common.
    pub(crate) begun: Snapshot<D>,
    pub(crate) sorts: Snapshot<List<u64>>,
    /// What a commit's entry takes memory from.
    pub(crate) alloc: Global,
    pub(crate) ghost kept: { IsKept E.meaning layout (base_of layout sorts.value (D.words begun.value) (D.counts begun.value)) book log (D.cells device) (D.spare device) (D.counts device) },
    /// Where a call is in progress, and a commit's entry has joined.
    pub(crate) ghost phased: { ArePhased book },
    /// An append that is begun has made an event, or a step was told to have stopped.
    pub(crate) ghost begins: { HaveBegun layout book log },
    /// What its faces show is in the words.
    pub(crate) ghost agreed: { AreInAgreement (seen_in (D.words device) (base_of layout sorts.value (D.words begun.value) (D.counts begun.value)) book) },
    pub(crate) ghost none_put: { flight.items ≡ [] },
    pub(crate) ghost room: { 16 ≤ flight.capacity },
}

// Room for the commits in flight.
fn flight_room<E: Drop>(alloc: Global) -> Result<Stock<Entry<E>>, NoMemory>
    ensures none { IfOk result (λ flight. flight.items ≡ []) }
    ensures room { IfOk result (λ flight. 16 ≤ flight.capacity) }
{
    let mut flight = Stock::new(alloc);
    flight.reserve(16)?;
    Ok(flight)
}

impl<D: Device, E: Deed> World<D, E> {
    /// A world of so many lanes begins on the device, whose words are settled: no event is made. All deeds have these sorts.
    ///
    /// It is refused where the words are no sound image, where they are one that isn't recovered, and for want of memory. The device then comes back
    /// as it was. Otherwise no lane has begun anything, no commit is in the history or in flight, and the blocks are those that the heap's owner
    /// words tell.
    pub fn start(
        alloc: Global,
        device: D,
        lanes: u32,
        sorts: List<u64>,
    ) -> Result<World<D, E>, (RestFault, D)>
        requires some { 1 ≤ lanes }
        requires few { lanes ≤ 16 }
        requires settled { AreSettled (D.cells device) }
        requires force { IsForced (D.words device) }
        ensures starts { IfOk result (λ world. Starts E.meaning lanes sorts (D.words device) (D.cells device) (D.spare device) (D.counts device) world.layout world.book world.log) }
        ensures is_new { IfOk result (λ world. IsNew lanes world.book) }
        ensures device { IfOk result (λ world. world.device ≡ device) }
        ensures begun { IfOk result (λ world. world.begun.value ≡ device) }
        ensures sorts { IfOk result (λ world. world.sorts.value ≡ sorts) }
        ensures cause { IfErr result (λ refused. IsRestCause (length (D.words device)) (slice_index (D.words device)) refused.0) }
        ensures back { IfErr result (λ refused. refused.1 ≡ device) }
    {
        let begun = Snapshot::of(&device);
        let common = Snapshot::of(&sorts);
        let Ok(flight) = flight_room(alloc) else {
            return Err((RestFault::NoMemory, device));
        };
        match start(alloc, device, lanes, sorts) {
            Ok(
                Begun {
                    device,
                    layout,
                    book,
                    log,
                },
            ) => Ok(World {
                device,
                layout,
                book,
                log,
                flight,
                begun,
                sorts: common,
                alloc,
            }),
            Err(refused) => Err(refused),
        }
    }

    /// How many lanes it has.
    pub fn lanes(&self) -> u32
        ensures { result ≡ length self.now.book.lanes.items }
    {
        self.book.lanes.len() as u32
    }

    /// Makes this the lane's call in progress, for which no step is made, or gives it back. The words stay.
    ///
    /// It is refused where the lane is not in the call's phase, where it names what the lane doesn't hold, where its partition of the log has too little
    /// room beside what is reserved, and for want of memory, in this order. Then only the lane's tally is another. An accepted call makes at most as many
    /// events as its transaction's updates want, which the sizes of the region bound.
    pub fn ask(&mut self, lane: u32, call: Call<E>) -> Result<(), (Refusal, Call<E>)>
        requires lane { lane < length self.old.book.lanes.items }
        requires built { IsBuilt call }
        requires may { May E.meaning (faces_of (base_of self.old.layout self.old.sorts.value (D.words self.old.begun.value) (D.counts self.old.begun.value)) self.old.book lane) call }
        ensures accepts { OnOk result (Accepts (base_of self.old.layout self.old.sorts.value (D.words self.old.begun.value) (D.counts self.old.begun.value)) call self.old.book self.new.book lane) }
        ensures refuses { IfErr result (λ refused. Refuses self.old.layout (base_of self.old.layout self.old.sorts.value (D.words self.old.begun.value) (D.counts self.old.begun.value))
            (D.words self.old.device) call refused.0 self.old.book self.new.book lane) }
        ensures returned { IfErr result (λ refused. refused.1 ≡ call) }
        ensures beside { KeepsBeside self.old.book self.new.book lane }
        ensures owes { OnOk result (MayMake self.old.layout call self.old.book self.new.book lane) }
        ensures within { OnOk result (events_owed (lane_at self.new.book lane) ≤ world_events self.old.layout) }
        ensures cells { D.cells self.new.device ≡ D.cells self.old.device }
        ensures counts { D.counts self.new.device ≡ D.counts self.old.device }
        ensures log { keeping_of self.new.log ≡ keeping_of self.old.log }
        ensures layout { self.new.layout ≡ self.old.layout }
        ensures begun { self.new.begun ≡ self.old.begun }
        ensures sorts { self.new.sorts ≡ self.old.sorts }
    {
        ask(
            self.alloc,
            &mut self.device,
            self.layout,
            &mut self.log,
            &mut self.book,
            &self.begun,
            &self.sorts,
            lane,
            call,
        )
    }

    /// Goes on with the lane's call, by one event at most. The lane's face changes by the row of the answer, and no other does.
    ///
    /// It waits where another lane has the latch of its partition, or the least structure that its begin wants and that is held; it is stopped where
    /// the device is at its budget, or where a step was told so before; and it is idle where the lane has no call in progress.
    ///
    /// Of the heap's data words the touched one alone has another value.
    pub fn step(&mut self, lane: u32) -> Stepped
        requires { lane < length self.old.book.lanes.items }
        ensures face { IsStep E.meaning
            (faces_of (base_of self.old.layout self.old.sorts.value (D.words self.old.begun.value) (D.counts self.old.begun.value)) self.old.book)
            (faces_of (base_of self.old.layout self.old.sorts.value (D.words self.old.begun.value) (D.counts self.old.begun.value)) self.new.book) lane result }
        ensures made { HasMade result (D.counts self.old.device) (D.counts self.new.device) }
        ensures cause { IsCause self.old.layout self.old.book self.old.log (D.counts self.old.device) lane result }
        ensures count { length self.new.book.lanes.items ≡ length self.old.book.lanes.items }
        ensures touches { TouchesWord self.old.layout (D.cells self.old.device) (D.cells self.new.device) self.new.book.touched }
        ensures gone { LeavesNothing self.old.layout (lane_at self.old.book lane).transaction (D.cells self.new.device) result }
        ensures exact { StepsExactly self.old.layout self.old.book self.new.book self.old.log (D.counts self.old.device) (D.counts self.new.device) lane result }
        ensures layout { self.new.layout ≡ self.old.layout }
        ensures begun { self.new.begun ≡ self.old.begun }
        ensures sorts { self.new.sorts ≡ self.old.sorts }
    {
        step(
            &mut self.device,
            self.layout,
            &mut self.log,
            &mut self.book,
            lane,
        )
    }

    /// What a program can read of the lane.
    pub fn face(&self, lane: u32) -> Face
        requires { lane < length self.now.book.lanes.items }
        ensures { (base : Base) → result ≡ (faces_of base self.now.book lane).face }
    {
        self.book.face(lane)
    }

    /// How many words the device has.
    pub fn span(&self) -> u32
        ensures { result ≡ length (D.words self.now.device) }
    {
        self.device.size()
    }

    /// The word at address `a`.
    pub fn word(&self, a: u32) -> u64
        requires { a < length (D.words self.now.device) }
        ensures { result ≡ slice_index (D.words self.now.device) a }
    {
        self.device.word(a)
    }

    /// The value of a word that the lane holds, between its calls.
    pub fn look(&self, lane: u32, a: u32) -> u64
        requires lane { lane < length self.now.book.lanes.items }
        requires phase { (lane_at self.now.book lane).phase ≡ Phase.In }
        requires rests { (lane_at self.now.book lane).doing ≡ Doing.Nothing }
        requires own { has_word (held_by (base_of self.now.layout self.now.sorts.value (D.words self.now.begun.value) (D.counts self.now.begun.value)) self.now.book lane) a ≡ true }
        ensures { (held_by (base_of self.now.layout self.now.sorts.value (D.words self.now.begun.value) (D.counts self.now.begun.value)) self.now.book lane).word a ≡ Some result }
    {
        self.device.word(a)
    }

    /// The data word that the last step changed.
    pub fn touched(&self) -> Option<u32>
        ensures { result ≡ self.now.book.touched }
    {
        self.book.touched
    }

    /// The commits, in order.
    pub fn history(&self) -> &[Entry<E>]
        ensures { result.now ≡ self.now.book.history.items }
    {
        self.book.history()
    }

    /// The entry of the lane's commit in flight: its end is in the log, and it hasn't joined the history.
    pub fn in_flight(&self, lane: u32) -> Option<&Entry<E>>
        requires { lane < length self.now.book.lanes.items }
        ensures { option_copied result ≡ flight_at self.now.book lane }
    {
        self.book.in_flight(lane)
    }

    /// The cells that partition p needs: those that are reserved there. At the largest number of 64 bits they may be more.
    pub fn need(&self, p: u32) -> u64
        ensures { result ≡ min (reserved_for self.now.layout self.now.book p) (2 ^ 64 - 1) }
    {
        self.book.reserved(self.layout.partitions, 0, p)
    }

    /// How many records more there is room for in partition p.
    pub fn room(&self, p: u32) -> u64
        requires { p < self.now.layout.partitions }
        ensures { result ≡ room_seen self.now.layout p (D.words self.now.device) }
    {
        let view = PartView::new(&self.device, self.layout, p);
        room(&view, self.layout, self.layout.part(p))
    }

    /// There is room for what is reserved, in each partition. It does nothing: the clause is the law.
    pub fn rooms_are_enough(&self)
        ensures { (p : ℕ) → p < self.now.layout.partitions → reserved_for self.now.layout self.now.book p ≤ room_seen self.now.layout p (D.words self.now.device) }
    {}

    /// Who holds a partition's latch has a call in progress that appends there, closes or takes out, and an event is left of what is under way. Where no
    /// step was told that the device has stopped, an event was made under it. It does nothing: the clauses are the law.
    pub fn latches_are_held(&self)
        ensures made { self.now.book.stopped ≡ false → (p : ℕ) → p < self.now.layout.partitions → (keeping_of self.now.log).holder p ≢ NOBODY
            → HasMadeOne self.now.layout self.now.book self.now.log p ((keeping_of self.now.log).holder p) }
        ensures held { (p : ℕ) → p < self.now.layout.partitions → (keeping_of self.now.log).holder p ≢ NOBODY
            → HoldsLatch self.now.layout self.now.book self.now.log p ((keeping_of self.now.log).holder p) }
    {}

    /// Whatever a stop leaves of the device stands for the history and those commits in flight that it has. It does nothing: the clause is the law.
    pub fn images_stand(&self)
        ensures { StandForCommits self.now.layout (base_of self.now.layout self.now.sorts.value (D.words self.now.begun.value) (D.counts self.now.begun.value)) self.now.book (D.cells self.now.device) }
    {}

    /// The history is lawful from what stood where the world began, and so it is with any of the commits in flight behind it, in order of lanes. It does
    /// nothing: the clauses are the law.
    pub fn histories_are_lawful(&self)
        ensures history { IsLawfulFrom E.meaning self.now.book.history.items
            (base_of self.now.layout self.now.sorts.value (D.words self.now.begun.value) (D.counts self.now.begun.value)) }
        ensures flights { (picks : face.Entry E → Bool) → IsLawfulFrom E.meaning (self.now.book.history.items ++ filter picks (flights_of self.now.book))
            (base_of self.now.layout self.now.sorts.value (D.words self.now.begun.value) (D.counts self.now.begun.value)) }
    {}

    /// The device, the commits, and those in flight, in order of lanes. It takes no memory and makes no event.
    pub fn finish(self) -> Remains<D, E>
        ensures device { result.device ≡ self.device }
        ensures history { result.history ≡ self.book.history.items }
        ensures flight { result.flight ≡ flights_of self.book }
    {
        let World {
            device,
            mut book,
            flight,
            ..
        } = self;
        book.flight = flight;
        let commits = book.finish();
        Remains {
            device,
            history: commits.history,
            flight: commits.flight,
        }
    }
}
