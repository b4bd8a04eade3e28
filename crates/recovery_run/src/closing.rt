// The closing of all records as a part of recovery.
ghost use Rattle.std.specs.Prelude.{◌≡◌, ◌≤◌, ◌<◌, ◌^◌, ◌+◌, ℕ, [], length, All};
ghost use Rattle.persist_model.specs.Shape.{Shape};
ghost use Rattle.persist_model.specs.State.{State, IsSoundState};
ghost use Rattle.lane_traits.specs.Device.{IsWithin};
ghost use Rattle.log_clearing.specs.Plans.{closing_plan};
ghost use Rattle.log_laws.specs.Parts.{EachKeeps};
ghost use Rattle.recovery_run.specs.ClosingAll.{CanCloseAll};
ghost use Rattle.recovery_run.specs.Edges.{HasCounted, KeepsWords, IsPlainHeaderWord};
ghost use Rattle.recovery_run.specs.Reached.{HasSettled};

use crate::runner::{Plan, run};
use lane_traits::{Device, Done};
use log_clearing::{ClearList, clear_event};
use persist_model::Event;

impl Plan for ClearList {
    ghost events = { λ list. closing_plan list.gates list.ends list.checkpoints };

    fn event(&self, i: u64) -> Option<Event> {
        clear_event(self, i)
    }
}

/// Closes all records of the log, up to the end or to the device's stop.
pub fn close_everything<D: Device>(device: &mut D, list: &ClearList) -> Done
    requires can { (shape : Shape) × (first : State) × (y : State) × HasSettled shape first y (D.cells device.old) × IsSoundState shape first
        × CanCloseAll shape y list.now.gates list.now.ends list.now.checkpoints }
    requires spare { length (closing_plan list.now.gates list.now.ends list.now.checkpoints) ≤ D.spare device.old }
    requires few { length (closing_plan list.now.gates list.now.ends list.now.checkpoints) < 2 ^ 64 }
    ensures made { result ≡ Done.Made → (shape : Shape) (first y : State) → HasSettled shape first y (D.cells device.old) → IsSoundState shape first
        → CanCloseAll shape y list.now.gates list.now.ends list.now.checkpoints
        → (room : ℕ → ℕ) × HasSettled shape first (record { log = []; words = y.words; room = room }) (D.cells device.new) }
    ensures stopped { result ≡ Done.Stopped → (shape : Shape) (first y : State) → HasSettled shape first y (D.cells device.old) → IsSoundState shape first
        → CanCloseAll shape y list.now.gates list.now.ends list.now.checkpoints → EachKeeps shape first (D.cells device.new) }
    ensures counted { HasCounted (length (closing_plan list.now.gates list.now.ends list.now.checkpoints)) result (D.counts device.old) (D.counts device.new) }
    ensures spare_left { D.spare device.old ≤ D.spare device.new + length (closing_plan list.now.gates list.now.ends list.now.checkpoints) }
    ensures low { KeepsWords (λ a. a < 32) (D.cells device.old) (D.cells device.new) }
{
    run(device, list)
}
