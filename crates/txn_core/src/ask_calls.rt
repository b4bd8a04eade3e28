// The calls that append nothing are asked.
ghost use Rattle.std.specs.Prelude.{◌≡◌, ◌≢◌, ◌<◌, ℕ, length, OnOk, OnErr};
ghost use Rattle.lane_types.specs.Asks as Asks;
ghost use Rattle.lane_types.specs.May.{May};
ghost use Rattle.lane_types.specs.Faces.{Base};
ghost use Rattle.lane_types.specs.declared.call.Phase.TheVariants as Phase;
ghost use Rattle.lane_book.specs.declared.lane.Doing.TheVariants as Doing;
ghost use Rattle.lane_book.specs.FacesOf.{lane_at, faces_of};
ghost use Rattle.lane_book.specs.Books.{IsBook};
ghost use Rattle.lane_book.specs.Steps.{IsPlain};
ghost use Rattle.log_keeper.specs.declared.keeper.LogKeeper.{LogKeeper};
ghost use Rattle.txn_core.specs.Exact.{KeepsBeside, events_owed};
ghost use Rattle.txn_core.specs.Asking.{AppendsNothing, ChangesFace, IsUnasked, StaysAsked, StaysAlways};
ghost use Rattle.txn_core.specs.Phases.{ArePhased};

use lane_book::{Book, Doing};
use lane_types::{Call, Deed};
use persist_model::NoMemory;

/// A begin, a read or a checkpoint is the lane's call. After `NoMemory` no face is another.
pub(crate) fn ask_quiet<E: Deed>(
    book: &mut Book<E>,
    lane: u32,
    call: &Call<E>,
    doing: Doing,
) -> Result<(), NoMemory>
    requires lane { lane < length book.old.lanes.items }
    requires nothing { (lane_at book.old lane).doing ≡ Doing.Nothing }
    requires phase { (lane_at book.old lane).phase ≡ Asks.wanted call.now }
    requires quiet { AppendsNothing call.now doing }
    requires book { IsBook book.old }
    ensures face { OnOk result (ChangesFace (Asks.asked call.now) book.old book.new lane) }
    ensures same_face { OnErr result (ChangesFace (λ face. face) book.old book.new lane) }
    ensures stays { OnOk result (StaysAsked E.meaning call.now book.old book.new lane) }
    ensures still { OnErr result (StaysAlways E.meaning book.old book.new) }
    ensures unasked { OnErr result ((keeper : LogKeeper) (spare : ℕ) → IsUnasked book.old book.new keeper keeper spare spare lane) }
    ensures phased { ArePhased book.old → ArePhased book.new }
    ensures beside { KeepsBeside book.old book.new lane }
    ensures owes { OnOk result (events_owed (lane_at book.new lane) ≡ 0) }
    ensures book { IsBook book.new }
{
    book.ask_plain(lane, call, doing)
}
