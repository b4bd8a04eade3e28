// One event on a device.
ghost use Rattle.persist_model.specs.declared.format.TheConstants.{RECOVERY_LANE};
ghost use Rattle.std.specs.Prelude.{◌≡◌, ◌≤◌, IsTrue};
ghost use Rattle.persist_model.specs.Region.{after};
ghost use Rattle.lane_traits.specs.Device.{IsWithin};

use lane_traits::{Device, Done};
use persist_model::Event;

/// Whether the event names no word outside a region of this size.
pub fn is_inside(event: Event, size: u32) -> bool
    ensures { IsTrue result → IsWithin size event }
{
    match event {
        Event::Store(a, _) => a < size,
        Event::PStore(a, _) => a < size,
        Event::WriteBack(a) => a < size,
        Event::Fence => true,
    }
}

/// Makes the event, with memory for its store, and says whether it was made.
pub fn make_event<D: Device>(region: &mut D, lane: u32, event: Event) -> bool
    requires { lane ≤ RECOVERY_LANE }
    ensures { IsTrue result → D.cells region.new ≡ after (D.cells region.old) lane event }
{
    if !is_inside(event, region.size()) {
        return false;
    }
    if region.reserve(1).is_err() {
        return false;
    }
    region.event(lane, event) == Done::Made
}
