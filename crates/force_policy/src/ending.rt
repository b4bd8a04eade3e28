//! The calls that end a transaction which has a record.
ghost use Rattle.std.specs.Prelude.{◌≡◌, All, slice_get};
ghost use Rattle.plan_records.specs.Sequences.{HasAddress};
ghost use Rattle.force_policy.specs.Plans.{commit_plan, abort_plan};

use persist_model::Outcome;
use plan_records::{Closing, Part, Undoing, owner_part, owner_part_count, undo_part};
use region_layout::{Policy, end_cell, rollback_cell};

/// Part i of a commit: a fence, so that what was written is kept; the end; the deletion of the blocks that were given back; and the
/// clearing of the transaction's records.
pub fn commit_part(closing: &Closing, i: u64) -> Option<Part>
    ensures { result ≡ slice_get (commit_plan closing.now) i }
{
    if i == 0 {
        return Some(Part::Fence);
    }
    if i == 1 {
        return Some(Part::Append(end_cell(closing.transaction, Outcome::Committed)));
    }
    let after = i - 2;
    if let Some(part) = owner_part(&closing.deletions, after) {
        return Some(part);
    }
    if after == owner_part_count(&closing.deletions) {
        Some(Part::Clear)
    } else {
        None
    }
}

/// Part i of an abort: the rollback record; the undo of each update, newest first; a fence; the end; and the clearing of the
/// transaction's records.
pub fn abort_part(undoing: &Undoing, i: u64) -> Option<Part>
    requires { All HasAddress undoing.now.updates }
    ensures { result ≡ slice_get (abort_plan undoing.now) i }
{
    if i == 0 {
        return Some(Part::Append(rollback_cell(undoing.transaction)));
    }
    let step = i - 1;
    if let Some(part) = undo_part(&undoing.updates, Policy::Force, step) {
        return Some(part);
    }
    match step - 2 * undoing.updates.len() as u64 {
        0 => Some(Part::Fence),
        1 => Some(Part::Append(end_cell(undoing.transaction, Outcome::RolledBack))),
        2 => Some(Part::Clear),
        _ => None,
    }
}
