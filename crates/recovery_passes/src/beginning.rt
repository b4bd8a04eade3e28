// The first stages of a recovery: the lists are repaired, what ended transactions wrote is stored again, and running ones are undone.
ghost use Rattle.std.specs.Prelude.{◌≡◌, ◌≤◌, ◌+◌, [], ℕ};
ghost use Rattle.persist_model.specs.State.{State};
ghost use Rattle.log_laws.specs.Parts.{EachKeeps};
ghost use Rattle.region_layout.specs.Layout.{layout_shape};
ghost use Rattle.recovery_run.specs.Edges.{HasCounted, KeepsWords, IsPlainHeaderWord};
ghost use Rattle.recovery_passes.specs.LoserPass.{Begins, Undoes, begin_events};
ghost use Rattle.recovery_passes.specs.Stages.{AreQuiet, IsIdle};

use crate::list_stages::repair_all;
use crate::redo::redo_all;
use crate::undo_stage::undo_all;
use lane_traits::{Device, Done};
use recovery_analysis::{Change, Transaction};
use recovery_undo::Held;
use region_layout::Layout;

/// Repairs the lists, stores these values again and undoes these transactions. The table is read once the lists are repaired.
pub fn bring_back<D: Device>(
    device: &mut D,
    layout: Layout,
    redo: &[Change],
    running: &[Transaction],
    held: &mut Held,
) -> Done
    requires { (first : State) × (total : ℕ) × Begins layout first total redo.now running.now held.old (D.cells device.old)
        × (begin_events layout first.log redo.now running.now ≤ D.spare device.old) }
    ensures made { result ≡ Done.Made → (first : State) (total : ℕ) → Begins layout first total redo.now running.now held.old (D.cells device.old)
        → begin_events layout first.log redo.now running.now ≤ D.spare device.old
        → Undoes layout first total [] held.new (D.cells device.new) }
    ensures stopped { result ≡ Done.Stopped → (first : State) (total : ℕ) → Begins layout first total redo.now running.now held.old (D.cells device.old)
        → begin_events layout first.log redo.now running.now ≤ D.spare device.old
        → EachKeeps (layout_shape layout) first (D.cells device.new) }
    ensures counted { (first : State) (total : ℕ) → Begins layout first total redo.now running.now held.old (D.cells device.old)
        → begin_events layout first.log redo.now running.now ≤ D.spare device.old
        → HasCounted (begin_events layout first.log redo.now running.now) result (D.counts device.old) (D.counts device.new) }
    ensures spare_left { (first : State) (total : ℕ) → Begins layout first total redo.now running.now held.old (D.cells device.old)
        → begin_events layout first.log redo.now running.now ≤ D.spare device.old
        → D.spare device.old ≤ D.spare device.new + begin_events layout first.log redo.now running.now }
    ensures header { KeepsWords (IsPlainHeaderWord (layout_shape layout)) (D.cells device.old) (D.cells device.new) }
    ensures idle { AreQuiet (layout_shape layout) (D.cells device.old) → redo.now ≡ [] → running.now ≡ []
        → IsIdle result (D.cells device.old) (D.cells device.new) (D.counts device.old) (D.counts device.new) }
    ensures idle_gates { running.now ≡ [] → held.new.gates ≡ held.old.gates }
{
    match repair_all(device, layout) {
        Done::Stopped => return Done::Stopped,
        Done::Made => {}
    }
    match redo_all(device, redo) {
        Done::Stopped => return Done::Stopped,
        Done::Made => {}
    }
    held.table.read(device, layout);
    undo_all(device, layout, running, held)
}
