// An append as a part of recovery.
ghost use Rattle.std.specs.Prelude.{◌≡◌, ◌≤◌, ◌<◌, ◌^◌, ◌+◌, ℕ, length, sum_by, All};
ghost use Rattle.persist_model.specs.Records.{Record};
ghost use Rattle.persist_model.specs.Shape.{Shape};
ghost use Rattle.persist_model.specs.State.{State, IsSoundState};
ghost use Rattle.lane_traits.specs.Device.{IsWithin, stores_of};
ghost use Rattle.log_laws.specs.Recovery.{Step, grown};
ghost use Rattle.log_laws.specs.StateAppends.{IsAppend, MayCome};
ghost use Rattle.log_laws.specs.Parts.{after_plan, EachKeeps};
ghost use Rattle.log_laws.specs.Recovering.{RECOVERY_LANE};
ghost use Rattle.recovery_run.specs.Edges.{HasCounted, KeepsWords, StoreElsewhere, AreOffHeader};
ghost use Rattle.recovery_run.specs.Reached.{newest_at, HasReached, HasSettled};

use crate::runner::{Plan, run};
use lane_traits::{Device, Done};

/// Makes the plan of an append. What was pending for the heap is settled behind it.
///
/// A compensation or a rollback record may come whatever is pending; an end or a checkpoint record where nothing is.
pub fn append<D: Device, P: Plan>(device: &mut D, plan: &P) -> Done
    requires within { All (IsWithin (D.cells device.old).size) (P.events plan.now) }
    requires spare { length (P.events plan.now) ≤ D.spare device.old }
    requires few { length (P.events plan.now) < 2 ^ 64 }
    ensures made { result ≡ Done.Made → (shape : Shape) (first y : State) (r : Record) (room : ℕ → ℕ)
        → HasReached shape first y (D.cells device.old) → IsAppend shape (newest_at (D.cells device.old)) y r room (P.events plan.now)
        → AreOffHeader shape (P.events plan.now) → MayCome shape y r room → HasSettled shape first (grown y r room) (D.cells device.new) }
    ensures stopped { result ≡ Done.Stopped → (shape : Shape) (first y : State) (r : Record) (room : ℕ → ℕ) → IsSoundState shape first
        → HasReached shape first y (D.cells device.old) → IsAppend shape (newest_at (D.cells device.old)) y r room (P.events plan.now)
        → MayCome shape y r room → EachKeeps shape first (D.cells device.new) }
    ensures settled_made { result ≡ Done.Made → (shape : Shape) (first y : State) (r : Record) (room : ℕ → ℕ)
        → HasSettled shape first y (D.cells device.old) → IsAppend shape (newest_at (D.cells device.old)) y r room (P.events plan.now)
        → AreOffHeader shape (P.events plan.now) → Step shape y (grown y r room) → HasSettled shape first (grown y r room) (D.cells device.new) }
    ensures settled_stopped { result ≡ Done.Stopped → (shape : Shape) (first y : State) (r : Record) (room : ℕ → ℕ) → IsSoundState shape first
        → HasSettled shape first y (D.cells device.old) → IsAppend shape (newest_at (D.cells device.old)) y r room (P.events plan.now)
        → Step shape y (grown y r room) → EachKeeps shape first (D.cells device.new) }
    ensures cells { result ≡ Done.Made → D.cells device.new ≡ after_plan RECOVERY_LANE (D.cells device.old) (P.events plan.now) }
    ensures counted { HasCounted (length (P.events plan.now)) result (D.counts device.old) (D.counts device.new) }
    ensures spare_left { D.spare device.old ≤ D.spare device.new + length (P.events plan.now) }
    ensures aside { KeepsWords (λ a. StoreElsewhere a (P.events plan.now)) (D.cells device.old) (D.cells device.new) }
{
    run(device, plan)
}
