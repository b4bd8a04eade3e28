// All events of a recovery.
ghost use Rattle.std.specs.Prelude.{◌≡◌, ◌≤◌, ◌<◌, ◌+◌, ◌^◌, [], ℕ};
ghost use Rattle.persist_model.specs.State.{State};
ghost use Rattle.log_laws.specs.Parts.{EachKeeps};
ghost use Rattle.region_layout.specs.Layout.{layout_shape};
ghost use Rattle.recovery_run.specs.Edges.{HasCounted, KeepsWords, IsPlainHeaderWord};
ghost use Rattle.recovery_passes.specs.LoserPass.{IsCleared};
ghost use Rattle.recovery_passes.specs.Plans.{IsPlanned};
ghost use Rattle.recovery_passes.specs.Stages.{AreQuiet, AreShort, IsIdle};

use crate::beginning::bring_back;
use crate::clearing::clear;
use lane_traits::{Device, Done};
use recovery_analysis::{Change, Transaction};
use recovery_undo::Held;
use region_layout::Layout;

/// Makes all events of a recovery, by what was read before: the values to be stored again, the transactions to be undone,
/// whether a checkpoint record is wanted, and what is held of the log, with memory for the table of used buckets.
pub fn make_events<D: Device>(
    device: &mut D,
    layout: Layout,
    redo: &[Change],
    running: &[Transaction],
    checkpoint: bool,
    held: Held,
) -> Done
    requires { (first : State) × (most : ℕ) × IsPlanned layout first redo.now running.now checkpoint held most (D.cells device.old) × (most ≤ D.spare device.old) × (most < 2 ^ 64) }
    ensures made { result ≡ Done.Made → (first : State) (most : ℕ) → IsPlanned layout first redo.now running.now checkpoint held most (D.cells device.old) → most ≤ D.spare device.old
        → IsCleared layout first (D.cells device.new) }
    ensures stopped { result ≡ Done.Stopped → (first : State) (most : ℕ) → IsPlanned layout first redo.now running.now checkpoint held most (D.cells device.old) → most ≤ D.spare device.old
        → EachKeeps (layout_shape layout) first (D.cells device.new) }
    ensures counted { (first : State) (most : ℕ) → IsPlanned layout first redo.now running.now checkpoint held (most + 1) (D.cells device.old) → most + 1 ≤ D.spare device.old
        → HasCounted most result (D.counts device.old) (D.counts device.new) }
    ensures spare_left { (first : State) (most : ℕ) → IsPlanned layout first redo.now running.now checkpoint held most (D.cells device.old) → most ≤ D.spare device.old
        → D.spare device.old ≤ D.spare device.new + most }
    ensures header { KeepsWords (IsPlainHeaderWord (layout_shape layout)) (D.cells device.old) (D.cells device.new) }
    ensures idle { (first : State) (most : ℕ) → IsPlanned layout first redo.now running.now checkpoint held most (D.cells device.old) → first.log ≡ []
        → AreQuiet (layout_shape layout) (D.cells device.old) → AreShort (layout_shape layout) (D.cells device.old)
        → IsIdle result (D.cells device.old) (D.cells device.new) (D.counts device.old) (D.counts device.new) }
{
    let mut grown = held;
    match bring_back(device, layout, redo, running, &mut grown) {
        Done::Stopped => return Done::Stopped,
        Done::Made => {}
    }
    clear(device, layout, checkpoint, grown)
}
