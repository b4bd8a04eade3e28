// The checkpoint record of a recovery under no-force.
ghost use Rattle.std.specs.Prelude.{◌≡◌, ◌≤◌, ◌+◌, ◌++◌, ◌∷◌, [], ℕ};
ghost use Rattle.persist_model.specs.State.{State};
ghost use Rattle.log_laws.specs.Parts.{EachKeeps};
ghost use Rattle.region_layout.specs.Layout.{layout_shape};
ghost use Rattle.recovery_run.specs.Edges.{HasCounted, KeepsWords, IsPlainHeaderWord};
ghost use Rattle.recovery_run.specs.Reached.{newest_at};
ghost use Rattle.recovery_undo.specs.RecoveryAppends.{IsNextAddress};
ghost use Rattle.recovery_undo.specs.Checkpoint.{CanCheckpoint, IsCheckpointed};

use crate::appending::{Appended, append_record};
use crate::held::Held;
use crate::target::plain_cell;
use lane_traits::{Device, Done};
use persist_model::RecordKind;
use persist_model::format::NO_OUTCOME;
use recovery_run::put_gate;
use region_layout::Layout;

/// Appends a checkpoint record to the first partition, at its next place, once nothing runs and each word has its standing
/// value: from then on nothing is to be redone. After a stop nothing is said of what is held.
pub fn append_checkpoint<D: Device>(device: &mut D, layout: Layout, held: &mut Held) -> Done
    requires can { (first y : State) × CanCheckpoint layout held.old first y (D.cells device.old) }
    requires spare { layout.cells + 21 ≤ D.spare device.old }
    ensures made { result ≡ Done.Made → (first y : State) → CanCheckpoint layout held.old first y (D.cells device.old)
        → IsCheckpointed layout held.old.gates first y held.new (D.cells device.new) }
    ensures next { result ≡ Done.Made → (at : ℕ) × (held.new.gates.checkpoints.items ≡ held.old.gates.checkpoints.items ++ at ∷ [])
        × IsNextAddress (layout_shape layout) 0 (newest_at (D.cells device.old)) at }
    ensures stopped { result ≡ Done.Stopped → (first y : State) → CanCheckpoint layout held.old first y (D.cells device.old)
        → EachKeeps (layout_shape layout) first (D.cells device.new) }
    ensures counted { HasCounted (layout.cells + 21) result (D.counts device.old) (D.counts device.new) }
    ensures spare { D.spare device.old ≤ D.spare device.new + (layout.cells + 21) }
    ensures header { KeepsWords (IsPlainHeaderWord (layout_shape layout)) (D.cells device.old) (D.cells device.new) }
{
    let cell = plain_cell(0, held.next, RecordKind::Checkpoint, NO_OUTCOME);
    match append_record(device, layout, 0, &cell, &mut held.table) {
        Appended::Stopped => Done::Stopped,
        Appended::At(at) => {
            put_gate(&mut held.gates.checkpoints, at);
            held.next += 1;
            Done::Made
        }
    }
}
