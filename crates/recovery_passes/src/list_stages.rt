// The stages of a recovery that change the lists of buckets of all partitions.
ghost use Rattle.std.specs.Prelude.{◌≡◌, ◌≤◌, ◌*◌, ◌+◌, []};
ghost use Rattle.persist_model.specs.State.{State, IsSoundState};
ghost use Rattle.log_laws.specs.Parts.{EachKeeps};
ghost use Rattle.region_layout.specs.Layout.{layout_shape};
ghost use Rattle.recovery_run.specs.Edges.{HasCounted, KeepsWords, IsPlainHeaderWord};
ghost use Rattle.recovery_run.specs.Reached.{HasSettled};
ghost use Rattle.recovery_lists.specs.Lists.{IsAtState, HasDropped};
ghost use Rattle.recovery_passes.specs.Stages.{AreQuiet, AreShort, IsIdle};

use lane_traits::{Device, Done};
use recovery_lists::{drop_closed, repair};
use region_layout::Layout;

/// Repairs the list of each partition whose recovery words ask for it.
pub fn repair_all<D: Device>(device: &mut D, layout: Layout) -> Done
    requires settled { IsAtState (layout_shape layout) (D.cells device.old) }
    requires spare { 15 ≤ D.spare device.old }
    ensures made { result ≡ Done.Made → (first y : State) → HasSettled (layout_shape layout) first y (D.cells device.old)
        → HasSettled (layout_shape layout) first y (D.cells device.new) }
    ensures quiet { result ≡ Done.Made → AreQuiet (layout_shape layout) (D.cells device.new) }
    ensures stopped { result ≡ Done.Stopped → (first y : State) → IsSoundState (layout_shape layout) first
        → HasSettled (layout_shape layout) first y (D.cells device.old) → EachKeeps (layout_shape layout) first (D.cells device.new) }
    ensures counted { HasCounted 15 result (D.counts device.old) (D.counts device.new) }
    ensures spare_left { D.spare device.old ≤ D.spare device.new + 15 }
    ensures header { KeepsWords (IsPlainHeaderWord (layout_shape layout)) (D.cells device.old) (D.cells device.new) }
    ensures idle { AreQuiet (layout_shape layout) (D.cells device.old)
        → IsIdle result (D.cells device.old) (D.cells device.new) (D.counts device.old) (D.counts device.new) }
{
    for p in 0..layout.partitions {
        match repair(device, layout, p) {
            Done::Stopped => return Done::Stopped,
            Done::Made => {}
        }
    }
    Done::Made
}

/// Takes the closed buckets out of each chain, but the last one. The log is empty.
pub fn drop_all<D: Device>(device: &mut D, layout: Layout) -> Done
    requires settled { (first : State) × (y : State) × HasSettled (layout_shape layout) first y (D.cells device.old) × (y.log ≡ []) }
    requires quiet { AreQuiet (layout_shape layout) (D.cells device.old) }
    requires spare { 7 * layout.buckets ≤ D.spare device.old }
    ensures made { result ≡ Done.Made → (first y : State) → HasSettled (layout_shape layout) first y (D.cells device.old) → y.log ≡ []
        → HasDropped (layout_shape layout) first y (D.cells device.new) }
    ensures quiet { result ≡ Done.Made → AreQuiet (layout_shape layout) (D.cells device.new) }
    ensures few { result ≡ Done.Made → AreShort (layout_shape layout) (D.cells device.new) }
    ensures stopped { result ≡ Done.Stopped → (first y : State) → IsSoundState (layout_shape layout) first
        → HasSettled (layout_shape layout) first y (D.cells device.old) → y.log ≡ [] → EachKeeps (layout_shape layout) first (D.cells device.new) }
    ensures counted { HasCounted (7 * layout.buckets) result (D.counts device.old) (D.counts device.new) }
    ensures spare_left { D.spare device.old ≤ D.spare device.new + 7 * layout.buckets }
    ensures header { KeepsWords (IsPlainHeaderWord (layout_shape layout)) (D.cells device.old) (D.cells device.new) }
    ensures idle { AreShort (layout_shape layout) (D.cells device.old)
        → IsIdle result (D.cells device.old) (D.cells device.new) (D.counts device.old) (D.counts device.new) }
{
    for p in 0..layout.partitions {
        match drop_closed(device, layout, p) {
            Done::Stopped => return Done::Stopped,
            Done::Made => {}
        }
    }
    Done::Made
}
