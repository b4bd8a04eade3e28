// The stage of a recovery that takes back what running transactions wrote.
ghost use Rattle.std.specs.Prelude.{◌≡◌, ◌≤◌, ◌+◌, [], ℕ};
ghost use Rattle.persist_model.specs.State.{State};
ghost use Rattle.log_laws.specs.Parts.{EachKeeps};
ghost use Rattle.region_layout.specs.Layout.{layout_shape};
ghost use Rattle.recovery_run.specs.Edges.{HasCounted, KeepsWords, IsPlainHeaderWord};
ghost use Rattle.recovery_passes.specs.LoserPass.{Undoes, undo_all_events};
ghost use Rattle.recovery_passes.specs.Stages.{IsIdle};

use lane_traits::{Device, Done};
use recovery_analysis::Transaction;
use recovery_undo::{Held, undo};
use region_layout::Layout;

/// Undoes each transaction, in order.
pub fn undo_all<D: Device>(
    device: &mut D,
    layout: Layout,
    running: &[Transaction],
    held: &mut Held,
) -> Done
    requires { (first : State) × (total : ℕ) × Undoes layout first total running.now held.old (D.cells device.old)
        × (undo_all_events layout first.log running.now ≤ D.spare device.old) }
    ensures made { result ≡ Done.Made → (first : State) (total : ℕ) → Undoes layout first total running.now held.old (D.cells device.old)
        → undo_all_events layout first.log running.now ≤ D.spare device.old
        → Undoes layout first total [] held.new (D.cells device.new) }
    ensures stopped { result ≡ Done.Stopped → (first : State) (total : ℕ) → Undoes layout first total running.now held.old (D.cells device.old)
        → undo_all_events layout first.log running.now ≤ D.spare device.old
        → EachKeeps (layout_shape layout) first (D.cells device.new) }
    ensures counted { (first : State) (total : ℕ) → Undoes layout first total running.now held.old (D.cells device.old)
        → undo_all_events layout first.log running.now ≤ D.spare device.old
        → HasCounted (undo_all_events layout first.log running.now) result (D.counts device.old) (D.counts device.new) }
    ensures spare_left { (first : State) (total : ℕ) → Undoes layout first total running.now held.old (D.cells device.old)
        → undo_all_events layout first.log running.now ≤ D.spare device.old
        → D.spare device.old ≤ D.spare device.new + undo_all_events layout first.log running.now }
    ensures header { KeepsWords (IsPlainHeaderWord (layout_shape layout)) (D.cells device.old) (D.cells device.new) }
    ensures idle { running.now ≡ [] → IsIdle result (D.cells device.old) (D.cells device.new) (D.counts device.old) (D.counts device.new) }
    ensures idle_gates { running.now ≡ [] → held.new.gates ≡ held.old.gates }
{
    for transaction in running {
        match undo(
            device,
            layout,
            transaction.number,
            transaction.records.as_slice(),
            held,
        ) {
            Done::Stopped => return Done::Stopped,
            Done::Made => {}
        }
    }
    Done::Made
}
