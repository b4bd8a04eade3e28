// The end of a hub.
ghost use Rattle.std.specs.Prelude.{◌≡◌, ℕ, ◌<◌, ◌++◌, [], None, IsNone, IfSome, true, false, All};
ghost use Rattle.turn_hub.specs.Turns.{times, IsAlike, Shows};
ghost use Rattle.turn_hub.specs.Hub.{has_lane, SawFaces, sights_back};

use crate::pass::Pass;
use crate::plays::{Board, Meeting, Place};
use crate::turn::Top;
use lane_types::Laned;

fn has_lane<T: Laned>(passes: &[Pass<T>], lane: u32) -> bool
    ensures { result ≡ has_lane lane passes.now }
{
    passes.iter().any(|pass| pass.lane == lane)
}

// The least lane that has no pass among these.
pub(crate) fn first_missing<T: Laned>(passes: &[Pass<T>], lanes: u32) -> Option<u32>
    ensures none { IsNone result → (lane : ℕ) → lane < lanes → has_lane lane passes.now ≡ true }
    ensures some { IfSome result (λ lane. (lane < lanes) × (has_lane lane passes.now ≡ false) × ((lower : ℕ) → lower < lane → has_lane lower passes.now ≡ true)) }
{
    for lane in 0..lanes {
        if !has_lane(passes, lane) {
            return Some(lane);
        }
    }
    None
}

// Takes the table apart, with the seat that has all lanes.
fn unload<T: Laned>(table: Board<T>, place: Place<T>) -> T
    requires table { (place.table_id ≡ table.shared.table_id) × (table.shared.table_id.slots ≡ 1) }
    requires free { place.me.0.grip ≡ None }
    requires all { (lane : ℕ) → lane < (T.seen table.shared.key.value.value).lanes → 0 < times lane place.me.0.sights }
    ensures { Shows T.seen result place.me.0.sights × IsAlike T.seen result table.shared.key.value.value }
{
    let mut closed = table.close_with(place);
    let slot = closed.take(0);
    closed.free();
    slot.unwrap()
}

// The first seat takes in the others.
fn gather<T: Laned>(top: &Top<T>, place: &mut Place<T>, mut passes: Vec<Pass<T>>)
    requires table { (place.old.table_id ≡ top.now.table_id) × (0 < top.now.table_id.words) }
    requires passes { All (λ p. p.place.table_id ≡ top.now.table_id) passes.items }
    requires free { (place.old.me.0.grip ≡ None) × (place.old.me.1 ≡ []) }
    ensures same { (place.new.table_id ≡ place.old.table_id) × (place.new.id ≡ place.old.id) × (place.new.me.0.grip ≡ None) × (place.new.me.1 ≡ []) }
    ensures sights { place.new.me.0.sights ≡ place.old.me.0.sights ++ sights_back passes.items }
{
    while let Some(pass) = passes.pop() {
        let Pass {
            lane: _,
            place: other,
        } = pass;
        top.join_seat::<Meeting>(place, other);
    }
    passes.destroy_empty();
}

// Takes the table apart, with all its seats.
pub(crate) fn unload_all<T: Laned>(table: Board<T>, mut passes: Vec<Pass<T>>) -> T
    requires table { (0 < table.shared.table_id.words) × (table.shared.table_id.slots ≡ 1) }
    requires passes { All (λ p. p.place.table_id ≡ table.shared.table_id) passes.items }
    requires some_lane { 0 < (T.seen table.shared.key.value.value).lanes }
    requires all { (lane : ℕ) → lane < (T.seen table.shared.key.value.value).lanes → has_lane lane passes.items ≡ true }
    ensures faces { SawFaces (T.seen result).faces passes.items }
    ensures alike { IsAlike T.seen result table.shared.key.value.value }
{
    let Pass { lane: _, mut place } = passes.pop().unwrap();
    gather(&table.shared, &mut place, passes);
    unload(table, place)
}
