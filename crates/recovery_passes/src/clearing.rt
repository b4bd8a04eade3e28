// The last stages of a recovery: a checkpoint record where it is wanted, the closing of all records, and the closed buckets.
ghost use Rattle.std.specs.Prelude.{◌≡◌, ◌≤◌, ◌<◌, ◌+◌, ◌^◌, [], ℕ, IsTrue, false, if◌then◌else◌};
ghost use Rattle.persist_model.specs.State.{State};
ghost use Rattle.log_laws.specs.Parts.{EachKeeps};
ghost use Rattle.region_layout.specs.Layout.{layout_shape};
ghost use Rattle.recovery_run.specs.Edges.{HasCounted, KeepsWords, IsPlainHeaderWord};
ghost use Rattle.recovery_passes.specs.LoserPass.{gates_len, Undoes, IsReady, IsWanted, IsCleared, clear_events, HasNoGates, IsClosedLog};
ghost use Rattle.recovery_passes.specs.Stages.{AreShort, IsIdle};

use crate::list_stages::drop_all;
use lane_traits::{Device, Done};
use recovery_run::{Gates, close_everything};
use recovery_undo::{Held, append_checkpoint};
use region_layout::Layout;

// Whether there is no gate to be closed.
fn has_no_gates(gates: &Gates) -> bool
    ensures some { IsTrue result → HasNoGates gates.now }
    ensures none { HasNoGates gates.now → IsTrue result }
{
    if !gates.gates.is_empty() {
        return false;
    }
    if !gates.ends.is_empty() {
        return false;
    }
    gates.checkpoints.is_empty()
}

// Closes all records. No event is made where there is none.
fn close_gates<D: Device>(device: &mut D, layout: Layout, gates: Gates) -> Done
    requires ready { (first : State) × IsReady layout first gates (D.cells device.old) }
    requires spare { gates_len gates + 3 ≤ D.spare device.old }
    requires few { gates_len gates + 3 < 2 ^ 64 }
    ensures made { result ≡ Done.Made → (first : State) → IsReady layout first gates (D.cells device.old)
        → IsClosedLog layout first (D.cells device.new) }
    ensures stopped { result ≡ Done.Stopped → (first : State) → IsReady layout first gates (D.cells device.old)
        → EachKeeps (layout_shape layout) first (D.cells device.new) }
    ensures counted { HasCounted (gates_len gates + 3) result (D.counts device.old) (D.counts device.new) }
    ensures spare_left { D.spare device.old ≤ D.spare device.new + (gates_len gates + 3) }
    ensures header { KeepsWords (IsPlainHeaderWord (layout_shape layout)) (D.cells device.old) (D.cells device.new) }
    ensures idle { HasNoGates gates → IsIdle result (D.cells device.old) (D.cells device.new) (D.counts device.old) (D.counts device.new) }
{
    if has_no_gates(&gates) {
        return Done::Made;
    }
    let list = gates.into_clear_list();
    close_everything(device, &list)
}

// The checkpoint record, where it is wanted.
fn checkpoint_if<D: Device>(device: &mut D, layout: Layout, wanted: bool, held: &mut Held) -> Done
    requires can { (first : State) × (total : ℕ) × Undoes layout first total [] held.old (D.cells device.old)
        × IsWanted layout first wanted }
    requires spare { (if wanted then layout.cells + 21 else 0) ≤ D.spare device.old }
    ensures made { result ≡ Done.Made → (first : State) (total : ℕ) → Undoes layout first total [] held.old (D.cells device.old)
        → IsWanted layout first wanted → IsReady layout first held.new.gates (D.cells device.new) }
    ensures count { result ≡ Done.Made → gates_len held.new.gates ≤ gates_len held.old.gates + (if wanted then 1 else 0) }
    ensures stopped { result ≡ Done.Stopped → (first : State) (total : ℕ) → Undoes layout first total [] held.old (D.cells device.old)
        → IsWanted layout first wanted → EachKeeps (layout_shape layout) first (D.cells device.new) }
    ensures counted { HasCounted (if wanted then layout.cells + 21 else 0) result (D.counts device.old) (D.counts device.new) }
    ensures spare_left { D.spare device.old ≤ D.spare device.new + (if wanted then layout.cells + 21 else 0) }
    ensures header { KeepsWords (IsPlainHeaderWord (layout_shape layout)) (D.cells device.old) (D.cells device.new) }
    ensures idle { wanted ≡ false → IsIdle result (D.cells device.old) (D.cells device.new) (D.counts device.old) (D.counts device.new) }
    ensures idle_gates { wanted ≡ false → held.new.gates ≡ held.old.gates }
{
    if wanted {
        append_checkpoint(device, layout, held)
    } else {
        Done::Made
    }
}

/// Behind the undo: a checkpoint record where it is wanted, the closing of all records, and the closed buckets.
pub fn clear<D: Device>(device: &mut D, layout: Layout, wanted: bool, held: Held) -> Done
    requires can { (first : State) × (total : ℕ) × Undoes layout first total [] held (D.cells device.old)
        × IsWanted layout first wanted }
    requires spare { clear_events layout wanted (gates_len held.gates) ≤ D.spare device.old }
    requires few { gates_len held.gates + 4 < 2 ^ 64 }
    ensures made { result ≡ Done.Made → (first : State) (total : ℕ) → Undoes layout first total [] held (D.cells device.old)
        → IsWanted layout first wanted → IsCleared layout first (D.cells device.new) }
    ensures stopped { result ≡ Done.Stopped → (first : State) (total : ℕ) → Undoes layout first total [] held (D.cells device.old)
        → IsWanted layout first wanted → EachKeeps (layout_shape layout) first (D.cells device.new) }
    ensures counted { HasCounted (clear_events layout wanted (gates_len held.gates)) result (D.counts device.old) (D.counts device.new) }
    ensures spare_left { D.spare device.old ≤ D.spare device.new + clear_events layout wanted (gates_len held.gates) }
    ensures header { KeepsWords (IsPlainHeaderWord (layout_shape layout)) (D.cells device.old) (D.cells device.new) }
    ensures idle { wanted ≡ false → HasNoGates held.gates → AreShort (layout_shape layout) (D.cells device.old)
        → IsIdle result (D.cells device.old) (D.cells device.new) (D.counts device.old) (D.counts device.new) }
{
    let mut grown = held;
    match checkpoint_if(device, layout, wanted, &mut grown) {
        Done::Stopped => return Done::Stopped,
        Done::Made => {}
    }
    match close_gates(device, layout, grown.gates) {
        Done::Stopped => return Done::Stopped,
        Done::Made => {}
    }
    drop_all(device, layout)
}
