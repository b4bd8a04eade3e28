//! The calls of a transaction.
ghost use Rattle.std.specs.Prelude.{◌≡◌, All, slice_get};
ghost use Rattle.plan_records.specs.Sequences.{HasAddress};
ghost use Rattle.noforce_policy.specs.Plans.{write_plan, give_plan, commit_plan, abort_plan};

use persist_model::Outcome;
use plan_records::{Closing, Giving, Part, Undoing, Update, undo_part};
use region_layout::{Policy, end_cell, rollback_cell};

/// Part i of the write of a word: its record, and then the store, which nothing asks to be kept.
pub fn write_part(update: &Update, i: u64) -> Option<Part>
    ensures { result ≡ slice_get (write_plan update.now) i }
{
    plan_records::write_part(update, Policy::NoForce, i)
}

/// Part i of the giving back of a block, which is deleted at the next checkpoint.
pub fn give_part(giving: &Giving, i: u64) -> Option<Part>
    ensures { result ≡ slice_get (give_plan giving.now) i }
{
    plan_records::give_part(giving, i)
}

/// Part i of a commit: its end alone.
pub fn commit_part(closing: &Closing, i: u64) -> Option<Part>
    ensures { result ≡ slice_get (commit_plan closing.now) i }
{
    match i {
        0 => Some(Part::Append(end_cell(closing.transaction, Outcome::Committed))),
        _ => None,
    }
}

/// Part i of an abort: the rollback record; the undo of each update, newest first; and the end.
pub fn abort_part(undoing: &Undoing, i: u64) -> Option<Part>
    requires { All HasAddress undoing.now.updates }
    ensures { result ≡ slice_get (abort_plan undoing.now) i }
{
    if i == 0 {
        return Some(Part::Append(rollback_cell(undoing.transaction)));
    }
    let step = i - 1;
    if let Some(part) = undo_part(&undoing.updates, Policy::NoForce, step) {
        return Some(part);
    }
    match step - 2 * undoing.updates.len() as u64 {
        0 => Some(Part::Append(end_cell(undoing.transaction, Outcome::RolledBack))),
        _ => None,
    }
}
