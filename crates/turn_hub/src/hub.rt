ghost use Rattle.std.specs.Prelude.{◌≡◌, ℕ, suc, ◌<◌, Some, IfOk, IfErr, IsNone, IfSome, true, false, length, All};
ghost use Rattle.lane_types.specs.Asks.{has_word};
ghost use Rattle.lane_types.specs.LaneSteps.{LaneStep};
ghost use Rattle.turn_hub.specs.Hub.{IfStepped, IfBusy, IfTaken, IfRefused, IfAskBusy, Takes, Refuses, face_of, missed_of, ArePasses, SawFaces, has_lane, IsMissing, goes_on, Through, Runs};

use crate::close::{first_missing, unload_all};
use crate::open::open;
use crate::pass::Pass;
use crate::plays::{Board, Knowing};
use crate::turn::{give, give_stepped, take};
use lane_types::{Call, Laned, Refusal, Stepped};
use persist_model::{List, NoMemory};
use std::alloc::Global;
use std::snapshot::Snapshot;
use std::sync::Wait;

/// One value, shared by a lane each.
pub struct Hub<T: Laned> {
    pub table: Board<T>,
    pub lanes: u32,
    ghost same: { lanes ≡ table.shared.key.lanes },
    ghost wide: { table.shared.table_id.words ≡ suc table.shared.key.span },
    ghost one_slot: { table.shared.table_id.slots ≡ 1 },
}

/// What a poll did.
#[derive(Clone, Copy, Debug, PartialEq, Eq)]
pub enum Polled {
    /// Another lane had the turn.
    Busy,
    Stepped(Stepped),
}

/// What an ask did.
#[derive(Drop)]
pub enum Asked<E> {
    /// The call is in progress.
    Taken,
    /// The value itself refused the call.
    Refused(Refusal, Call<E>),
    /// Another lane had the turn.
    Busy(Call<E>),
}

/// Why a hub wasn't closed.
#[derive(Clone, Copy, Debug, PartialEq, Eq)]
pub enum CloseFault {
    /// The lane's pass isn't there. It is the least such lane.
    Missing { lane: u32 },
}

fn goes_on(answer: Stepped) -> bool
    ensures { result ≡ goes_on answer }
{
    match answer {
        Stepped::Moved => true,
        Stepped::Waiting { .. } => true,
        Stepped::Answered(_) => false,
        Stepped::Stopped => false,
        Stepped::Idle => false,
    }
}

impl<T: Laned> Hub<T> {
    /// A hub for the value, and a pass for each lane, in order.
    pub fn new(alloc: Global, value: T) -> Result<(Hub<T>, List<Pass<T>>), (NoMemory, T)>
        requires { 0 < (T.seen value).lanes }
        ensures lanes { IfOk result (λ made. made.0.lanes ≡ (T.seen value).lanes) }
        ensures length { IfOk result (λ made. length made.1 ≡ (T.seen value).lanes) }
        ensures passes { IfOk result (λ made. ArePasses made.0.table.shared.table_id (T.seen value).faces 0 made.1) }
        ensures err { IfErr result (λ refused. refused.1 ≡ value) }
    {
        open(alloc, value)
    }

    /// One step of the pass's lane, unless another lane has the turn.
    pub fn poll(&self, pass: &mut Pass<T>) -> Polled
        requires hub { pass.old.place.table_id ≡ self.now.table.shared.table_id }
        ensures lane { pass.new.lane ≡ pass.old.lane }
        ensures hub { pass.new.place.table_id ≡ pass.old.place.table_id }
        ensures stepped { IfStepped result (λ answer. LaneStep T.Deed.meaning answer (face_of pass.old) (face_of pass.new)) }
        ensures found { IfStepped result (λ answer. missed_of pass.new ≡ missed_of pass.old) }
        ensures busy { IfBusy result (face_of pass.new ≡ face_of pass.old) }
        ensures missed { IfBusy result (missed_of pass.new ≡ suc (missed_of pass.old)) }
    {
        let top = &self.table.shared;
        let Some(mut value) = take(top, &mut pass.place, pass.lane) else {
            return Polled::Busy;
        };
        let picture = Snapshot::of(&value);
        let answer = value.step(pass.lane);
        give_stepped(top, &mut pass.place, pass.lane, &picture, value);
        Polled::Stepped(answer)
    }

    /// Asks for a call, unless another lane has the turn.
    pub fn ask(&self, pass: &mut Pass<T>, call: Call<T::Deed>) -> Asked<T::Deed>
        requires hub { pass.old.place.table_id ≡ self.now.table.shared.table_id }
        requires may { T.may (face_of pass.old) call }
        ensures lane { pass.new.lane ≡ pass.old.lane }
        ensures hub { pass.new.place.table_id ≡ pass.old.place.table_id }
        ensures taken { IfTaken result (Takes call (face_of pass.old) (face_of pass.new)) }
        ensures found { IfTaken result (missed_of pass.new ≡ missed_of pass.old) }
        ensures refused { IfRefused result (λ why back. Refuses call why (face_of pass.old) (face_of pass.new)) }
        ensures found_too { IfRefused result (λ why back. missed_of pass.new ≡ missed_of pass.old) }
        ensures returned { IfRefused result (λ why back. back ≡ call) }
        ensures busy { IfAskBusy result (λ back. face_of pass.new ≡ face_of pass.old) }
        ensures missed { IfAskBusy result (λ back. missed_of pass.new ≡ suc (missed_of pass.old)) }
        ensures kept { IfAskBusy result (λ back. back ≡ call) }
    {
        let top = &self.table.shared;
        let Some(mut value) = take(top, &mut pass.place, pass.lane) else {
            return Asked::Busy(call);
        };
        let picture = Snapshot::of(&value);
        let answer = value.ask(pass.lane, call);
        give(top, &mut pass.place, pass.lane, &picture, value);
        match answer {
            Ok(()) => Asked::Taken,
            Err((why, back)) => Asked::Refused(why, back),
        }
    }

    /// A word of the pass's own face, by one load, without the turn.
    pub fn read(&self, pass: &mut Pass<T>, a: u32) -> u64
        requires hub { pass.old.place.table_id ≡ self.now.table.shared.table_id }
        requires word { has_word (face_of pass.old).words a ≡ true }
        ensures lane { pass.new.lane ≡ pass.old.lane }
        ensures hub { pass.new.place.table_id ≡ pass.old.place.table_id }
        ensures face { face_of pass.new ≡ face_of pass.old }
        ensures found { missed_of pass.new ≡ missed_of pass.old }
        ensures word { (face_of pass.old).words.word a ≡ Some result }
    {
        self.table
            .shared
            .load::<Knowing>(&mut pass.place, a as usize + 1)
    }

    /// Steps of the pass's lane, until one that ends a call.
    pub fn finish<R: Wait>(&self, rt: &R, pass: &mut Pass<T>) -> Stepped
        requires hub { pass.old.place.table_id ≡ self.now.table.shared.table_id }
        ensures lane { pass.new.lane ≡ pass.old.lane }
        ensures hub { pass.new.place.table_id ≡ pass.old.place.table_id }
        ensures steps { Runs T.Deed.meaning (face_of pass.old) result (face_of pass.new) }
    {
        for _ in rt.forever() {
            if let Some(answer) = self.poll_on(pass) {
                return answer;
            }
        }
        unreachable!()
    }

    // A poll that hands out only an answer that ends a call.
    fn poll_on(&self, pass: &mut Pass<T>) -> Option<Stepped>
        requires hub { pass.old.place.table_id ≡ self.now.table.shared.table_id }
        ensures lane { pass.new.lane ≡ pass.old.lane }
        ensures hub { pass.new.place.table_id ≡ pass.old.place.table_id }
        ensures on { IsNone result → Through T.Deed.meaning (face_of pass.old) (face_of pass.new) }
        ensures ends { IfSome result (λ answer. LaneStep T.Deed.meaning answer (face_of pass.old) (face_of pass.new) × (goes_on answer ≡ false)) }
    {
        match self.poll(pass) {
            Polled::Busy => None,
            Polled::Stepped(answer) => { if goes_on(answer) { None } else { Some(answer) } }
        }
    }

    /// The value again, whose faces are those of the passes.
    pub fn close(self, passes: List<Pass<T>>) -> Result<T, (CloseFault, Hub<T>, List<Pass<T>>)>
        requires passes { All (λ p. p.place.table_id ≡ self.table.shared.table_id) passes }
        ensures faces { IfOk result (λ value. SawFaces (T.seen value).faces passes) }
        ensures all { IfOk result (λ value. (lane : ℕ) → lane < self.lanes → has_lane lane passes ≡ true) }
        ensures lanes { IfOk result (λ value. (T.seen value).lanes ≡ self.lanes) }
        ensures missing { IfErr result (λ err. IsMissing err.0 self.lanes passes) }
        ensures hub { IfErr result (λ err. err.1 ≡ self) }
        ensures returned { IfErr result (λ err. err.2 ≡ passes) }
    {
        if let Some(lane) = first_missing(passes.as_slice(), self.lanes) {
            return Err((CloseFault::Missing { lane }, self, passes));
        }
        let Hub { table, lanes: _ } = self;
        Ok(unload_all(table, passes.into_vec()))
    }
}
