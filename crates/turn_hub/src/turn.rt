// A turn at the table: taken, and given back.
ghost use Rattle.std.specs.Prelude.{◌≡◌, ◌≢◌, ℕ, suc, ◌<◌, [], ◌∷◌, Some, None, IsNone, IfSome};
ghost use Rattle.turn_hub.specs.Turns.{IsData, Shows};
ghost use Rattle.turn_hub.specs.Plays.{alone, in_turn, busy, IsResting, IsTurning, IsChange};

use crate::plays::{Giving, Noting, Place, Taking, Turns};
use crate::start::Start;
use crate::view::View;
use atomic_table::Shared;
use lane_types::Laned;
use std::snapshot::Snapshot;

pub(crate) type Top<T> = Shared<Option<T>, View<T>, Start<T>, Turns<T>>;

// Takes the turn and the value, or finds the turn with another lane.
pub(crate) fn take<T: Laned>(top: &Top<T>, place: &mut Place<T>, lane: u32) -> Option<T>
    requires table { (place.old.table_id ≡ top.now.table_id) × (0 < top.now.table_id.words) }
    requires seat { IsResting lane place.old.me }
    ensures table { place.new.table_id ≡ place.old.table_id }
    ensures taken { IfSome result (λ value. place.new.me ≡ (in_turn lane value place.old.me.0, (0, None) ∷ [])) }
    ensures shows { IfSome result (λ value. Shows T.seen value place.old.me.0.sights) }
    ensures missed { IsNone result → (place.new.me ≡ (busy place.old.me.0, [])) }
{
    if top.compare_exchange::<Taking>(place, 0, 0, u64::from(lane) + 1) == 0 {
        top.exchange(place, 0, None)
    } else {
        None
    }
}

// The value goes back into the slot.
pub(crate) fn put<T: Laned>(top: &Top<T>, place: &mut Place<T>, value: T)
    requires table { place.old.table_id ≡ top.now.table_id }
    requires empty { place.old.me.1 ≡ (0, None) ∷ [] }
    ensures { (place.new.table_id ≡ place.old.table_id) × (place.new.id ≡ place.old.id) × (place.new.me ≡ (place.old.me.0, (0, Some value) ∷ [])) }
{
    match top.exchange(place, 0, Some(value)) {
        None => {}
        Some(_other) => unreachable!(),
    }
}

// Gives the turn back, with the value, whose words stand in the table.
pub(crate) fn give<T: Laned>(
    top: &Top<T>,
    place: &mut Place<T>,
    lane: u32,
    picture: &Snapshot<T>,
    value: T,
)
    requires table { (place.old.table_id ≡ top.now.table_id) × (0 < top.now.table_id.words) }
    requires seat { IsTurning lane picture.now.value place.old.me }
    requires change { IsChange T.seen lane picture.now.value value }
    requires words { (a : ℕ) → IsData (T.seen picture.now.value) a → (T.seen value).word a ≡ (T.seen picture.now.value).word a }
    ensures { (place.new.table_id ≡ place.old.table_id) × (place.new.me ≡ (alone lane value place.old.me.0.missed, [])) }
{
    put(top, place, value);
    top.store::<Giving>(place, 0, 0);
}

// The same after a step, which may have changed a word.
pub(crate) fn give_stepped<T: Laned>(
    top: &Top<T>,
    place: &mut Place<T>,
    lane: u32,
    picture: &Snapshot<T>,
    value: T,
)
    requires table { (place.old.table_id ≡ top.now.table_id) × (top.now.table_id.words ≡ suc (T.seen picture.now.value).span) }
    requires seat { IsTurning lane picture.now.value place.old.me }
    requires change { IsChange T.seen lane picture.now.value value }
    requires inside { (a : ℕ) → (T.seen value).touched ≡ Some a → a < (T.seen value).span }
    requires words { (a : ℕ) → IsData (T.seen picture.now.value) a → (T.seen value).touched ≢ Some a → (T.seen value).word a ≡ (T.seen picture.now.value).word a }
    ensures { (place.new.table_id ≡ place.old.table_id) × (place.new.me ≡ (alone lane value place.old.me.0.missed, [])) }
{
    match value.touched() {
        None => give(top, place, lane, picture, value),
        Some(a) => {
            let word = value.word(a);
            put(top, place, value);
            top.store::<Noting>(place, a as usize + 1, word);
            top.store::<Giving>(place, 0, 0);
        }
    }
}
