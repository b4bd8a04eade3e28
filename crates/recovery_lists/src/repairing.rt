// The repair of a partition's list.
ghost use Rattle.std.specs.Prelude.{◌≡◌, ◌≢◌, ◌≤◌, ◌<◌, ◌+◌, ℕ};
ghost use Rattle.persist_model.specs.Shape.{Shape};
ghost use Rattle.persist_model.specs.State.{State, IsSoundState};
ghost use Rattle.log_laws.specs.Parts.{EachKeeps};
ghost use Rattle.region_layout.specs.Layout.{layout_shape};
ghost use Rattle.atomic_list.specs.Repairing.{CanRepair};
ghost use Rattle.recovery_run.specs.Edges.{HasCounted, KeepsWords, IsPlainHeaderWord};
ghost use Rattle.recovery_run.specs.Reached.{newest_at, HasSettled, IsQuiet};
ghost use Rattle.recovery_lists.specs.Repairs.{asked_in, region_repair};
ghost use Rattle.recovery_lists.specs.Lists.{IsAtState, KeepsLists};
ghost use Rattle.recovery_lists.specs.Repairable.{CanRepair-prop};

use atomic_list::{Repair, repair_event, repair_of};
use lane_traits::{Device, Done};
use log_partition::{PartView, region_event};
use persist_model::Event;
use recovery_run::{Plan, run};
use region_layout::Layout;

// A repair of partition p's list, as events on the region.
#[derive(Clone, Copy)]
struct RepairPlan {
    p: u32,
    repair: Repair,
    ghost partition_within: { p < 3 },
    ghost can_be: { CanRepair repair } by { CanRepair-prop repair },
}

impl Plan for RepairPlan {
    ghost events = { λ plan. region_repair plan.p plan.repair };

    fn event(&self, i: u64) -> Option<Event> {
        if 5 <= i {
            return None;
        }
        let event = repair_event(self.repair, i as u32)?;
        Some(region_event(self.p, event))
    }
}

// What the partition's recovery words ask for.
fn asked<D: Device>(device: &D, layout: Layout, p: u32) -> Repair
    requires partition { p < layout.partitions }
    requires settled { IsAtState (layout_shape layout) (D.cells device.now) }
    ensures { result ≡ asked_in (layout_shape layout) p (newest_at (D.cells device.now)) }
{
    repair_of(&PartView::new(device, layout, p))
}

/// Makes the repair that the recovery words of partition `p` ask for, and no event where they ask for none.
///
/// The records and the heap words stay. At a stop the image can be recovered again.
pub fn repair<D: Device>(device: &mut D, layout: Layout, p: u32) -> Done
    requires partition { p < layout.partitions }
    requires settled { IsAtState (layout_shape layout) (D.cells device.old) }
    requires spare { 5 ≤ D.spare device.old }
    ensures made { result ≡ Done.Made → (first y : State) → HasSettled (layout_shape layout) first y (D.cells device.old)
        → HasSettled (layout_shape layout) first y (D.cells device.new) }
    ensures quiet { result ≡ Done.Made → IsQuiet p (newest_at (D.cells device.new)) }
    ensures lists { result ≡ Done.Made → KeepsLists (layout_shape layout) (D.cells device.old) (D.cells device.new) }
    ensures stopped { result ≡ Done.Stopped → (first y : State) → IsSoundState (layout_shape layout) first
        → HasSettled (layout_shape layout) first y (D.cells device.old) → EachKeeps (layout_shape layout) first (D.cells device.new) }
    ensures counted { HasCounted 5 result (D.counts device.old) (D.counts device.new) }
    ensures spare_left { D.spare device.old ≤ D.spare device.new + 5 }
    ensures header { KeepsWords (IsPlainHeaderWord (layout_shape layout)) (D.cells device.old) (D.cells device.new) }
    ensures size { (D.cells device.new).size ≡ (D.cells device.old).size }
    ensures none_asked { IsQuiet p (newest_at (D.cells device.old)) → (result ≡ Done.Made) × (D.cells device.new ≡ D.cells device.old)
        × (D.counts device.new ≡ D.counts device.old) }
{
    let repair = asked(device, layout, p);
    match repair {
        Repair::Nothing => Done::Made,
        _ => run(device, &RepairPlan { p, repair }),
    }
}
