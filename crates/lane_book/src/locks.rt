ghost use Rattle.std.specs.Prelude.{◌≡◌, ◌+◌, ◌-◌, ◌<◌, ◌≤◌, ◌^◌, true, length, IsNone, IfSome, None};
ghost use Rattle.lane_types.specs.Heaps.{has_bit};
ghost use Rattle.lane_book.specs.FacesOf.{lane_at};
ghost use Rattle.lane_book.specs.Lanes.{begun_lane, with_lane};
ghost use Rattle.lane_book.specs.Steps.{StepsIf, IsLawfulFrom};
ghost use Rattle.lane_book.specs.Books.{IsBook};
ghost use Rattle.lane_book.specs.Locks.{is_held_by, IsLoose, IsLeastHeld, AreLoose, BeginEnds};
ghost use Rattle.lane_book.specs.declared.lane.Doing.TheVariants as Doing;

use crate::book::Book;
use crate::lane::Doing;
use lane_types::{Deed, Phase, Reply, Stepped, What};

/// A structure, and the lane that holds it.
#[derive(Clone, Copy, Debug, PartialEq, Eq)]
pub struct Holder {
    pub structure: u32,
    pub lane: u32,
}

/// Whether structure s is in the set.
pub fn has(set: u8, s: u32) -> bool
    requires { s < 8 }
    ensures { result ≡ has_bit set s }
{
    (set >> s) % 2 == 1
}

impl<E> Book<E> {
    /// The lane that holds the structure.
    fn holder_of(&self, s: u32) -> Option<u32>
        requires structure { s < 8 }
        requires few { length self.now.lanes.items ≤ 16 }
        ensures some { IfSome result (λ l. is_held_by self.now l s ≡ true) }
        ensures none { IsNone result → IsLoose self.now s }
    {
        for l in 0..self.lanes.len() {
            if has(self.lanes[l].held, s) {
                return Some(l as u32);
            }
        }
        None
    }

    /// The least structure of the set that a lane holds, and the lane.
    pub fn holder(&self, set: u8) -> Option<Holder>
        requires { length self.now.lanes.items ≤ 16 }
        ensures some { IfSome result (λ held. IsLeastHeld self.now set held.structure held.lane) }
        ensures none { IsNone result → AreLoose self.now set }
    {
        for s in 0..8 {
            if has(set, s) {
                if let Some(lane) = self.holder_of(s) {
                    return Some(Holder { structure: s, lane });
                }
            }
        }
        None
    }
}

impl<E: Deed> Book<E> {
    // The structures are the lane's, and the transaction has the next number.
    fn take_structures(&mut self, lane: u32, set: u8) -> Stepped
        requires lane { lane < length self.old.lanes.items }
        requires few { (lane_at self.old lane).begun < 2 ^ 59 }
        requires numbers { self.old.next_transaction < 2 ^ 64 - 1 }
        ensures is { self.new ≡ record (with_lane self.old lane (begun_lane self.old.next_transaction set (length self.old.history.items) (lane_at self.old lane)) None) {
          next_transaction = self.old.next_transaction + 1;
        } }
        ensures result { result ≡ Stepped.Answered (Reply.Begun self.old.next_transaction) }
    {
        let number = self.next_transaction;
        let joined = self.history.len() as u64;
        self.lanes[lane as usize].begin(number, set, joined);
        self.next_transaction += 1;
        self.touched = None;
        Stepped::Answered(Reply::Begun(number))
    }

    /// A begin takes all its structures in one step, or none and waits for the least that is held.
    pub fn begin(&mut self, lane: u32, set: u8) -> Stepped
        requires lane { lane < length self.old.lanes.items }
        requires lanes { length self.old.lanes.items ≤ 16 }
        requires calling { (lane_at self.old lane).phase ≡ Phase.Calling }
        requires doing { (lane_at self.old lane).doing ≡ Doing.Begin set }
        requires few { (lane_at self.old lane).begun < 2 ^ 59 }
        requires numbers { self.old.next_transaction < 2 ^ 64 - 1 }
        requires book { IsBook self.old }
        ensures ends { BeginEnds self.old self.new lane set result }
        ensures step { StepsIf (IsLawfulFrom E.meaning self.old.history.items) E.meaning self.old self.new lane result }
        ensures book { IsBook self.new }
    {
        match self.holder(set) {
            Some(held) => self.wait(lane, What::Structure(held.structure), held.lane),
            None => self.take_structures(lane, set),
        }
    }
}
