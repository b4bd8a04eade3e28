//! The calls by which a transaction names a word.
ghost use Rattle.std.specs.Prelude.{◌≡◌, slice_get};
ghost use Rattle.force_policy.specs.Plans.{write_plan, give_plan};

use plan_records::{Giving, Part, Update};
use region_layout::Policy;

/// Part i of the write of a word: its record, and then the store.
pub fn write_part(update: &Update, i: u64) -> Option<Part>
    ensures { result ≡ slice_get (write_plan update.now) i }
{
    plan_records::write_part(update, Policy::Force, i)
}

/// Part i of the giving back of a block, which is deleted at the transaction's commit.
pub fn give_part(giving: &Giving, i: u64) -> Option<Part>
    ensures { result ≡ slice_get (give_plan giving.now) i }
{
    plan_records::give_part(giving, i)
}
