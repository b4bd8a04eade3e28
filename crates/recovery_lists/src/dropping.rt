// The buckets that are taken out of a partition's chain.
ghost use Rattle.std.specs.Prelude.{◌≡◌, ◌≤◌, ◌<◌, ◌+◌, ◌*◌, ℕ, [], length};
ghost use Rattle.persist_model.specs.declared.format.TheConstants.{MAX_WORDS};
ghost use Rattle.persist_model.specs.Shape.{count_buckets};
ghost use Rattle.persist_model.specs.State.{State, IsSoundState};
ghost use Rattle.log_laws.specs.Parts.{EachKeeps};
ghost use Rattle.region_layout.specs.Layout.{layout_shape};
ghost use Rattle.atomic_list.specs.Walk.{chain_of};
ghost use Rattle.log_clearing.specs.Dropping.{IsRemovalOf};
ghost use Rattle.log_clearing.specs.Removals.{CanDrop, region_removal};
ghost use Rattle.recovery_run.specs.Edges.{HasCounted, KeepsWords, IsPlainHeaderWord};
ghost use Rattle.recovery_run.specs.Reached.{newest_at, HasSettled, HasFewBuckets};
ghost use Rattle.recovery_lists.specs.Repairs.{seen};
ghost use Rattle.recovery_lists.specs.Lists.{IsAtState, IsAtEmptyLog, KeepsLists, HasDropped};

use atomic_list::{Remove, remove_event};
use lane_traits::{Device, Done};
use log_clearing::removal;
use log_partition::{PartView, region_event};
use persist_model::Event;
use recovery_run::{Plan, run};
use region_layout::Layout;

// The removal of a bucket of partition p, as events on the region.
#[derive(Clone, Copy)]
struct RemovalPlan {
    p: u32,
    removal: Remove,
    ghost partition_within: { p < 3 },
    ghost next_within: { removal.next < MAX_WORDS },
}

impl Plan for RemovalPlan {
    ghost events = { λ plan. region_removal plan.p plan.removal };

    fn event(&self, i: u64) -> Option<Event> {
        if 7 <= i {
            return None;
        }
        let event = remove_event(self.removal, i as u32)?;
        Some(region_event(self.p, event))
    }
}

// The removal of the first closed bucket that isn't the last, or none where there is none.
fn next_removal<D: Device>(device: &D, layout: Layout, p: u32) -> Option<Remove>
    requires partition { p < layout.partitions }
    requires settled { IsAtState (layout_shape layout) (D.cells device.now) }
    ensures { IsRemovalOf (layout_shape layout) (seen (layout_shape layout) p (newest_at (D.cells device.now)))
        (chain_of (layout_shape layout) (seen (layout_shape layout) p (newest_at (D.cells device.now)))) result }
{
    removal(&PartView::new(device, layout, p), layout)
}

// Takes a bucket out.
fn drop_bucket<D: Device>(device: &mut D, layout: Layout, p: u32, removal: Remove) -> Done
    requires partition { p < layout.partitions }
    requires empty { IsAtEmptyLog (layout_shape layout) p (D.cells device.old) }
    requires closed { CanDrop (layout_shape layout) p (seen (layout_shape layout) p (newest_at (D.cells device.old))) removal }
    requires spare { 7 ≤ D.spare device.old }
    ensures made { result ≡ Done.Made → (first y : State) → HasSettled (layout_shape layout) first y (D.cells device.old) → y.log ≡ []
        → HasDropped (layout_shape layout) first y (D.cells device.new) }
    ensures lists { result ≡ Done.Made → KeepsLists (layout_shape layout) (D.cells device.old) (D.cells device.new) }
    ensures shorter { result ≡ Done.Made → length (chain_of (layout_shape layout) (seen (layout_shape layout) p (newest_at (D.cells device.new)))) + 1
        ≡ length (chain_of (layout_shape layout) (seen (layout_shape layout) p (newest_at (D.cells device.old)))) }
    ensures stopped { result ≡ Done.Stopped → (first y : State) → IsSoundState (layout_shape layout) first
        → HasSettled (layout_shape layout) first y (D.cells device.old) → y.log ≡ [] → EachKeeps (layout_shape layout) first (D.cells device.new) }
    ensures counted { HasCounted 7 result (D.counts device.old) (D.counts device.new) }
    ensures spare_left { D.spare device.old ≤ D.spare device.new + 7 }
    ensures header { KeepsWords (IsPlainHeaderWord (layout_shape layout)) (D.cells device.old) (D.cells device.new) }
    ensures size { (D.cells device.new).size ≡ (D.cells device.old).size }
{
    run(device, &RemovalPlan { p, removal })
}

/// Takes one closed bucket after the other out of the chain of partition `p`, until at most one bucket is left. The log is empty.
///
/// At a stop the image can be recovered again. A chain of at most one bucket costs no event.
pub fn drop_closed<D: Device>(device: &mut D, layout: Layout, p: u32) -> Done
    requires partition { p < layout.partitions }
    requires empty { IsAtEmptyLog (layout_shape layout) p (D.cells device.old) }
    requires spare { 7 * count_buckets (layout_shape layout) p ≤ D.spare device.old }
    ensures made { result ≡ Done.Made → (first y : State) → HasSettled (layout_shape layout) first y (D.cells device.old) → y.log ≡ []
        → HasDropped (layout_shape layout) first y (D.cells device.new) }
    ensures few { result ≡ Done.Made → HasFewBuckets (layout_shape layout) p (newest_at (D.cells device.new)) }
    ensures lists { result ≡ Done.Made → KeepsLists (layout_shape layout) (D.cells device.old) (D.cells device.new) }
    ensures stopped { result ≡ Done.Stopped → (first y : State) → IsSoundState (layout_shape layout) first
        → HasSettled (layout_shape layout) first y (D.cells device.old) → y.log ≡ [] → EachKeeps (layout_shape layout) first (D.cells device.new) }
    ensures counted { HasCounted (7 * count_buckets (layout_shape layout) p) result (D.counts device.old) (D.counts device.new) }
    ensures spare_left { D.spare device.old ≤ D.spare device.new + 7 * count_buckets (layout_shape layout) p }
    ensures header { KeepsWords (IsPlainHeaderWord (layout_shape layout)) (D.cells device.old) (D.cells device.new) }
    ensures size { (D.cells device.new).size ≡ (D.cells device.old).size }
    ensures none_closed { HasFewBuckets (layout_shape layout) p (newest_at (D.cells device.old)) → (result ≡ Done.Made)
        × (D.cells device.new ≡ D.cells device.old) × (D.counts device.new ≡ D.counts device.old) }
{
    while let Some(removal) = next_removal(device, layout, p) {
        match drop_bucket(device, layout, p, removal) {
            Done::Stopped => return Done::Stopped,
            Done::Made => {}
        }
    }
    Done::Made
}
