// A world of lanes as a value that several lanes use.
ghost use Rattle.std.specs.Prelude.{◌≡◌, ◌<◌, OnOk, IfErr, length};
ghost use Rattle.lane_types.specs.Seen.{IsAccepted, IsRefused, IsStepped};
ghost use Rattle.lane_book.specs.FacesOf.{faces_of};
ghost use Rattle.txn_core.specs.Laning.{seen_in, MayAsk};
ghost use Rattle.txn_core.specs.States.{base_of};

use crate::world::World;
use lane_traits::Device;
use lane_types::{Call, Deed, Face, Laned, Refusal, Stepped};
use persist_model::Look;

/// Its faces are those of the book, and its words are what a read of the device finds. Of the calls a take, a give, a batch, a savepoint and a way back
/// to one may not be asked.
impl<D: Device, E: Deed> Laned for World<D, E> {
    type Deed = E;

    ghost use Rattle.std.specs.Prelude.{◌≡◌, ◌<◌, OnOk, IfErr, length};
    ghost use Rattle.lane_types.specs.Seen.{IsAccepted, IsRefused, IsStepped};
    ghost use Rattle.lane_book.specs.FacesOf.{faces_of};
    ghost use Rattle.txn_core.specs.Laning.{seen_in, MayAsk};
    ghost use Rattle.txn_core.specs.States.{base_of};

    ghost seen = { λ world. seen_in (D.words world.device) (base_of world.layout world.sorts.value (D.words world.begun.value) (D.counts world.begun.value)) world.book };

    ghost may = { λ face call. MayAsk E.meaning face call };

    fn lanes(&self) -> u32 {
        self.lanes()
    }

    fn ask(&mut self, lane: u32, call: Call<E>) -> Result<(), (Refusal, Call<E>)>
        requires lane { lane < length self.old.book.lanes.items }
        requires may { MayAsk E.meaning (faces_of (base_of self.old.layout self.old.sorts.value (D.words self.old.begun.value) (D.counts self.old.begun.value)) self.old.book lane) call }
        ensures ok { OnOk result (IsAccepted lane call
            (seen_in (D.words self.old.device) (base_of self.old.layout self.old.sorts.value (D.words self.old.begun.value) (D.counts self.old.begun.value)) self.old.book)
            (seen_in (D.words self.new.device) (base_of self.new.layout self.new.sorts.value (D.words self.new.begun.value) (D.counts self.new.begun.value)) self.new.book)) }
        ensures err { IfErr result (λ err. IsRefused lane call err.0
            (seen_in (D.words self.old.device) (base_of self.old.layout self.old.sorts.value (D.words self.old.begun.value) (D.counts self.old.begun.value)) self.old.book)
            (seen_in (D.words self.new.device) (base_of self.new.layout self.new.sorts.value (D.words self.new.begun.value) (D.counts self.new.begun.value)) self.new.book)) }
        ensures returned { IfErr result (λ err. err.1 ≡ call) }
    {
        self.ask(lane, call)
    }

    fn step(&mut self, lane: u32) -> Stepped
        requires { lane < length self.old.book.lanes.items }
        ensures { IsStepped E.meaning lane result
            (seen_in (D.words self.old.device) (base_of self.old.layout self.old.sorts.value (D.words self.old.begun.value) (D.counts self.old.begun.value)) self.old.book)
            (seen_in (D.words self.new.device) (base_of self.new.layout self.new.sorts.value (D.words self.new.begun.value) (D.counts self.new.begun.value)) self.new.book) }
    {
        self.step(lane)
    }

    fn face(&self, lane: u32) -> Face
        requires { lane < length self.now.book.lanes.items }
        ensures { result ≡ (faces_of (base_of self.now.layout self.now.sorts.value (D.words self.now.begun.value) (D.counts self.now.begun.value)) self.now.book lane).face }
    {
        self.face(lane)
    }

    fn span(&self) -> u32 {
        self.span()
    }

    fn word(&self, a: u32) -> u64 {
        self.word(a)
    }

    fn touched(&self) -> Option<u32> {
        self.touched()
    }

    ghost agrees = { λ world. world.agreed };
}
