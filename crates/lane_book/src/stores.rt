ghost use Rattle.std.specs.Prelude.{◌≡◌, ◌<◌, ◌≤◌, ◌^◌, length, true};
ghost use Rattle.lane_book.specs.Lanes.{moved, stored_one, with_lane};
ghost use Rattle.lane_book.specs.FacesOf.{lane_at};
ghost use Rattle.lane_book.specs.Steps.{StepsIf};
ghost use Rattle.lane_book.specs.Books.{IsBook};
ghost use Rattle.lane_book.specs.Calls.{IsCalling, IsDoing, Moves};
ghost use Rattle.lane_book.specs.Appends.{undoes};
ghost use Rattle.lane_book.specs.Stores.{unstored_one, HoldsNext};
ghost use Rattle.lane_book.specs.declared.lane.Doing.TheVariants as Doing;

use crate::book::Book;
use crate::lane::Lane;
use lane_types::{Deed, Stepped};

impl<E> Lane<E> {
    fn store_word(&mut self, part: u64)
        requires { self.old.stored < 2 ^ 62 }
        ensures { self.new ≡ moved part (stored_one self.old) }
    {
        self.go_on(part);
        self.stored += 1;
    }

    fn take_word_back(&mut self, part: u64)
        requires { 1 ≤ self.old.stored }
        ensures { self.new ≡ moved part (unstored_one self.old) }
    {
        self.go_on(part);
        self.stored -= 1;
    }
}

/// A word of a call that isn't answered yet is stored. `touched` is that word, where its value is another.
impl<E: Deed> Book<E> {
    /// The next write of a batch is stored, and the batch goes on at this part of its plan.
    pub fn word_stored(&mut self, lane: u32, count: u64, touched: Option<u32>, part: u64) -> Stepped
        requires lane { IsDoing (Doing.Batch count) self.old lane }
        requires next { (lane_at self.old lane).stored < length (lane_at self.old lane).writes.items }
        requires few { (lane_at self.old lane).stored < 2 ^ 62 }
        ensures is { self.new ≡ with_lane self.old lane (moved part (stored_one (lane_at self.old lane))) touched }
        ensures step { StepsIf (HoldsNext self.old lane) E.meaning self.old self.new lane result }
        ensures book { IsBook self.new }
        ensures result { result ≡ Stepped.Moved }
    {
        self.lanes[lane as usize].store_word(part);
        self.touched = touched;
        Stepped::Moved
    }

    /// The write that was stored last is undone in the device, in an abort or on the way back to a savepoint.
    pub fn word_taken_back(&mut self, lane: u32, touched: Option<u32>, part: u64) -> Stepped
        requires lane { IsCalling self.old lane }
        requires undoing { undoes (lane_at self.old lane).doing ≡ true }
        requires some { 1 ≤ (lane_at self.old lane).stored }
        ensures moves { Moves E.meaning self.old self.new lane touched result (moved part (unstored_one (lane_at self.old lane))) }
        ensures result { result ≡ Stepped.Moved }
    {
        self.lanes[lane as usize].take_word_back(part);
        self.touched = touched;
        Stepped::Moved
    }
}
