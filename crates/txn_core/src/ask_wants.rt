// What a call may want at the most.
ghost use Rattle.std.specs.Prelude.{◌≡◌, ◌+◌, ◌-◌, ◌*◌, ◌^◌, min, true, false};
ghost use Rattle.region_layout.specs.Layout.{layout_shape};
ghost use Rattle.txn_state.specs.Owing.{append_most};
ghost use Rattle.txn_state.specs.QuietLaws.{ending_needs};

use crate::ask_memory::Wants;
use region_layout::Layout;

/// The append of an update, and the store of its word.
pub(crate) fn write_wants(layout: Layout) -> Wants
    ensures events { result.events ≡ append_most (layout_shape layout) + 1 }
    ensures records { result.records ≡ 1 }
    ensures gates { result.gates ≡ 0 }
{
    Wants {
        events: 22 + u64::from(layout.cells),
        records: 1,
        gates: 0,
    }
}

/// A commit of a transaction with n records. A number above the greatest stands as that.
pub(crate) fn commit_wants(layout: Layout, n: u64) -> Wants
    ensures events { result.events ≡ min (ending_needs (layout_shape layout) n 0 true).events (2 ^ 64 - 1) }
    ensures records { result.records ≡ 1 }
    ensures gates { result.gates ≡ min (n + 1) (2 ^ 64 - 1) }
{
    Wants {
        events: (25 + u64::from(layout.cells) + 7 * u64::from(layout.buckets)).saturating_add(n),
        records: 1,
        gates: n.saturating_add(1),
    }
}

/// An abort of one with n records, of which so many are updates.
pub(crate) fn abort_wants(layout: Layout, n: u64, updates: u64) -> Wants
    ensures events { result.events ≡ min (ending_needs (layout_shape layout) n updates false).events (2 ^ 64 - 1) }
    ensures records { result.records ≡ min (updates + 2) (2 ^ 64 - 1) }
    ensures gates { result.gates ≡ min (n + updates + 2) (2 ^ 64 - 1) }
{
    let each = 23 + u64::from(layout.cells);
    let once = 47 + 2 * u64::from(layout.cells) + 7 * u64::from(layout.buckets);
    Wants {
        events: updates
            .saturating_mul(each)
            .saturating_add(n)
            .saturating_add(once),
        records: updates.saturating_add(2),
        gates: n.saturating_add(updates).saturating_add(2),
    }
}
