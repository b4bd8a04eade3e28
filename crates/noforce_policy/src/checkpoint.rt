//! The checkpoint: every word is kept, and then what is kept needs no records.
ghost use Rattle.std.specs.Prelude.{◌≡◌, slice_get};
ghost use Rattle.noforce_policy.specs.Plans.{checkpoint_plan, next_of_checkpoint};

use persist_model::{Event, List};
use plan_records::{Part, owner_part, owner_part_count};
use region_layout::checkpoint_cell;

/// How far a checkpoint has come.
#[derive(Drop)]
pub struct Sweep {
    /// The least word that was stored since it was last written back, and that the sweep hasn't passed.
    pub dirty: Option<u32>,
    /// 0 while it sweeps, 1 behind the sweep.
    pub stage: u32,
    /// The owner words of the blocks that committed transactions gave back, ascending by their records' numbers.
    pub deletions: List<u32>,
}

/// Part i of what follows the sweep: a fence; the checkpoint record; the deletion of blocks; and the clearing of the records of all
/// ended transactions, with this one.
fn behind_sweep(deletions: &List<u32>, i: u64) -> Option<Part>
    ensures { result ≡ slice_get (checkpoint_plan deletions.now) i }
{
    if i == 0 {
        return Some(Part::Fence);
    }
    if i == 1 {
        return Some(Part::Append(checkpoint_cell()));
    }
    let after = i - 2;
    if let Some(part) = owner_part(deletions, after) {
        return Some(part);
    }
    if after == owner_part_count(deletions) {
        Some(Part::Clear)
    } else {
        None
    }
}

/// The next part of a checkpoint: while it sweeps the write back of the least dirty word that it hasn't passed; where there is none, and
/// behind the sweep, part i of what follows.
pub fn checkpoint_part(sweep: &Sweep, i: u64) -> Option<Part>
    ensures { result ≡ next_of_checkpoint sweep.now i }
{
    if sweep.stage == 0 {
        if let Some(word) = sweep.dirty {
            return Some(Part::Word(Event::WriteBack(word)));
        }
    }
    behind_sweep(&sweep.deletions, i)
}
