// The stage of a recovery that stores again what ended transactions wrote.
ghost use Rattle.std.specs.Prelude.{◌≡◌, ◌≤◌, ◌+◌, [], length};
ghost use Rattle.persist_model.specs.Records.{IsAmong};
ghost use Rattle.persist_model.specs.Shape.{Shape};
ghost use Rattle.persist_model.specs.State.{State, IsSoundState};
ghost use Rattle.log_laws.specs.Parts.{EachKeeps};
ghost use Rattle.log_laws.specs.Recovering.{with_heap};
ghost use Rattle.recovery_run.specs.Edges.{HasCounted, KeepsWords};
ghost use Rattle.recovery_run.specs.Reached.{HasReached, HasSettled};
ghost use Rattle.recovery_analysis.specs.Changes.{stored};
ghost use Rattle.recovery_analysis.specs.declared.changing.Change.{Change};
ghost use Rattle.recovery_passes.specs.Stages.{IsIdle, MayStore};

use lane_traits::{Device, Done};
use recovery_analysis::Change;
use recovery_run::{fence, store};

// Stores each value, in order.
fn store_all<D: Device>(device: &mut D, changes: &[Change]) -> Done
    requires can { (shape : Shape) × (first : State) × (y : State) × HasReached shape first y (D.cells device.old) × MayStore shape y changes.now }
    requires spare { length changes.now ≤ D.spare device.old }
    ensures made { result ≡ Done.Made → (shape : Shape) (first y : State) → HasReached shape first y (D.cells device.old) → MayStore shape y changes.now
        → HasReached shape first (with_heap y (stored changes.now y.words)) (D.cells device.new) }
    ensures stopped { result ≡ Done.Stopped → (shape : Shape) (first y : State) → IsSoundState shape first → HasReached shape first y (D.cells device.old)
        → MayStore shape y changes.now → EachKeeps shape first (D.cells device.new) }
    ensures counted { HasCounted (length changes.now) result (D.counts device.old) (D.counts device.new) }
    ensures spare_left { D.spare device.old ≤ D.spare device.new + length changes.now }
    ensures aside { KeepsWords (λ a. (c : Change) → IsAmong changes.now c → a ≡ c.word → ⊥) (D.cells device.old) (D.cells device.new) }
{
    for change in changes {
        match store(device, change.word, change.value) {
            Done::Stopped => return Done::Stopped,
            Done::Made => {}
        }
    }
    Done::Made
}

/// Stores each value, in order, and fences. No event is made where there is none to store.
pub fn redo_all<D: Device>(device: &mut D, changes: &[Change]) -> Done
    requires can { (shape : Shape) × (first : State) × (y : State) × HasSettled shape first y (D.cells device.old) × MayStore shape y changes.now }
    requires spare { length changes.now ≤ D.spare device.old }
    ensures made { result ≡ Done.Made → (shape : Shape) (first y : State) → HasSettled shape first y (D.cells device.old) → MayStore shape y changes.now
        → HasSettled shape first (with_heap y (stored changes.now y.words)) (D.cells device.new) }
    ensures stopped { result ≡ Done.Stopped → (shape : Shape) (first y : State) → IsSoundState shape first → HasSettled shape first y (D.cells device.old)
        → MayStore shape y changes.now → EachKeeps shape first (D.cells device.new) }
    ensures counted { HasCounted (length changes.now + 1) result (D.counts device.old) (D.counts device.new) }
    ensures spare_left { D.spare device.old ≤ D.spare device.new + length changes.now }
    ensures aside { KeepsWords (λ a. (c : Change) → IsAmong changes.now c → a ≡ c.word → ⊥) (D.cells device.old) (D.cells device.new) }
    ensures idle { changes.now ≡ [] → IsIdle result (D.cells device.old) (D.cells device.new) (D.counts device.old) (D.counts device.new) }
{
    if changes.is_empty() {
        return Done::Made;
    }
    match store_all(device, changes) {
        Done::Stopped => return Done::Stopped,
        Done::Made => {}
    }
    fence(device)
}
