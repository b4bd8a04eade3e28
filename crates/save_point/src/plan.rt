//! The plan by which a transaction goes back to a savepoint.
ghost use Rattle.std.specs.Prelude.{◌≡◌, All, slice_get};
ghost use Rattle.plan_records.specs.Sequences.{HasAddress};
ghost use Rattle.save_point.specs.Plans.{back_parts};

use persist_model::List;
use plan_records::{Part, Undoing, owner_part, undo_part};
use region_layout::Policy;

/// Part i of going back: for each update, newest first, the append of its compensation and the store of its value before; then a store of 0
/// to each gate of a deletion to be closed, and a fence if there was one. The stores to gates and their fence are made under the latch of
/// the log's partition. None past the last part, and for no other number.
pub fn back_part(undoing: &Undoing, gates: &List<u32>, policy: Policy, i: u64) -> Option<Part>
    requires { All HasAddress undoing.now.updates }
    ensures { result ≡ slice_get (back_parts policy undoing.now.updates gates.now) i }
{
    if let Some(part) = undo_part(&undoing.updates, policy, i) {
        return Some(part);
    }
    owner_part(gates, i - 2 * undoing.updates.len() as u64)
}
