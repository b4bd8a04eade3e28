// The events of recovery on heap words.
ghost use Rattle.std.specs.Prelude.{◌≡◌, ◌≤◌, ◌<◌, ◌+◌};
ghost use Rattle.persist_model.specs.Shape.{Shape, heap};
ghost use Rattle.persist_model.specs.State.{State, IsSoundState};
ghost use Rattle.log_laws.specs.Recovery.{HasDecidingRecord};
ghost use Rattle.log_laws.specs.Recovering.{with_heap};
ghost use Rattle.log_laws.specs.Parts.{EachKeeps};
ghost use Rattle.recovery_run.specs.Edges.{HasCounted, KeepsWords};
ghost use Rattle.recovery_run.specs.Reached.{with_value, HasReached, HasSettled};

use lane_traits::{Device, Done};
use persist_model::Event;
use persist_model::format::RECOVERY_LANE;

/// Stores a value to a heap word, as recovery's lane. It is pending until the next fence.
///
/// The word is one whose standing value a record decides: the value may stand there at a stop, or the one before.
pub fn store<D: Device>(device: &mut D, a: u32, value: u64) -> Done
    requires word { a < (D.cells device.old).size }
    requires spare { 1 ≤ D.spare device.old }
    ensures made { result ≡ Done.Made → (shape : Shape) (first y : State) → HasReached shape first y (D.cells device.old) → heap shape ≤ a
        → HasDecidingRecord shape.policy y.log a → HasReached shape first (with_heap y (with_value y.words a value)) (D.cells device.new) }
    ensures stopped { result ≡ Done.Stopped → (shape : Shape) (first y : State) → IsSoundState shape first
        → HasReached shape first y (D.cells device.old) → EachKeeps shape first (D.cells device.new) }
    ensures counted { HasCounted 1 result (D.counts device.old) (D.counts device.new) }
    ensures spare_left { D.spare device.old ≤ D.spare device.new + 1 }
    ensures aside { KeepsWords (λ b. b ≡ a → ⊥) (D.cells device.old) (D.cells device.new) }
{
    device.event(RECOVERY_LANE, Event::PStore(a, value))
}

/// Fences as recovery's lane: nothing is pending behind it.
pub fn fence<D: Device>(device: &mut D) -> Done
    ensures made { result ≡ Done.Made → (shape : Shape) (first y : State) → HasReached shape first y (D.cells device.old)
        → HasSettled shape first y (D.cells device.new) }
    ensures stopped { result ≡ Done.Stopped → (shape : Shape) (first y : State) → IsSoundState shape first
        → HasReached shape first y (D.cells device.old) → EachKeeps shape first (D.cells device.new) }
    ensures counted { HasCounted 1 result (D.counts device.old) (D.counts device.new) }
    ensures spare_left { D.spare device.old ≤ D.spare device.new }
    ensures aside { KeepsWords (λ b. Unit {0}) (D.cells device.old) (D.cells device.new) }
{
    device.event(RECOVERY_LANE, Event::Fence)
}
