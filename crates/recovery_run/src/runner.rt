ghost use Rattle.std.specs.Prelude.{◌≡◌, ◌≤◌, ◌<◌, ◌^◌, ℕ, ◌+◌, List, length, take, slice_get, sum_by, All};
ghost use Rattle.persist_model.specs.declared.event.Event.{Event};
ghost use Rattle.lane_traits.specs.Device.{IsWithin, stores_of};
ghost use Rattle.log_laws.specs.Parts.{after_plan};
ghost use Rattle.recovery_run.specs.Edges.{HasCounted, StoreElsewhere, KeepsWords};

use lane_traits::{Device, Done};
use persist_model::Event;
use persist_model::format::RECOVERY_LANE;

/// A plan of events by their numbers.
pub trait Plan {
    /// The events, in order.
    ghost events: { Self → List Rattle.persist_model.specs.declared.event.Event.Event };

    /// Event i, and None exactly past the last one.
    fn event(&self, i: u64) -> Option<Event>
        ensures { result ≡ slice_get (events self.now) i };
}

/// Makes the plan's events as recovery's lane, up to its end or to the device's stop.
pub fn run<D: Device, P: Plan>(device: &mut D, plan: &P) -> Done
    requires within { All (IsWithin (D.cells device.old).size) (P.events plan.now) }
    requires spare { sum_by stores_of (P.events plan.now) ≤ D.spare device.old }
    requires few { length (P.events plan.now) < 2 ^ 64 }
    ensures made { result ≡ Done.Made → D.cells device.new ≡ after_plan RECOVERY_LANE (D.cells device.old) (P.events plan.now) }
    ensures stopped { result ≡ Done.Stopped → (k : ℕ) × (D.cells device.new ≡ after_plan RECOVERY_LANE (D.cells device.old) (take k (P.events plan.now))) }
    ensures cause { result ≡ Done.Stopped → (D.counts device.new).events ≡ (D.counts device.new).budget }
    ensures spare_left { D.spare device.old ≤ D.spare device.new + sum_by stores_of (P.events plan.now) }
    ensures events_made { result ≡ Done.Made → (D.counts device.new).events ≡ (D.counts device.old).events + length (P.events plan.now) }
    ensures counted { HasCounted (length (P.events plan.now)) result (D.counts device.old) (D.counts device.new) }
    ensures aside { KeepsWords (λ a. StoreElsewhere a (P.events plan.now)) (D.cells device.old) (D.cells device.new) }
{
    let mut i = 0;
    while let Some(event) = plan.event(i) {
        match device.event(RECOVERY_LANE, event) {
            Done::Stopped => return Done::Stopped,
            Done::Made => {}
        }
        i += 1;
    }
    Done::Made
}
