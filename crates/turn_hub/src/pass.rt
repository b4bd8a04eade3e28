ghost use Rattle.std.specs.Prelude.{◌≡◌, ℕ, suc, ◌<◌, [], ◌∷◌, None};
ghost use Rattle.turn_hub.specs.Turns.{lanes_in, seen_by};

use crate::plays::Place;
use lane_types::Laned;

/// A lane's seat at a hub. Nothing of it but the lane's number is there when the program runs.
pub struct Pass<T: Laned> {
    pub lane: u32,
    pub place: Place<T>,
    ghost own: { lanes_in place.me.0.sights ≡ lane ∷ [] },
    ghost no_grip: { place.me.0.grip ≡ None },
    ghost no_slots: { place.me.1 ≡ [] },
    ghost low: { lane < (seen_by T.seen place.me.0.sights).lanes },
    ghost wide: { place.table_id.words ≡ suc (seen_by T.seen place.me.0.sights).span },
}
