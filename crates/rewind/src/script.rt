//! A script: the sizes of a region, and the transactions of one lane.

ghost use Rattle.std.specs.Prelude.{◌≡◌};
ghost use Rattle.region_layout.specs.Layout.{layout_shape};
ghost use Rattle.rewind.specs.Events.{script_shape};
ghost use Rattle.rewind.specs.Served.{IsInLimits};

use persist_model::List;
use region_layout::{Layout, Policy};

/// A key of the map of cells, and its value.
#[derive(Clone, Copy, Debug, PartialEq, Eq)]
pub struct Put {
    pub key: u64,
    pub value: u64,
}

/// What a text in the form says.
#[derive(Drop)]
pub struct Script {
    pub buckets: u64,
    pub blocks: u64,
    /// The puts of each transaction, in order.
    pub transactions: List<List<Put>>,
}

impl Script {
    /// The layout of its region.
    pub fn layout(&self) -> Layout
        requires { IsInLimits self.now.buckets self.now.blocks self.now.transactions }
        ensures { layout_shape result ≡ script_shape self.now.buckets self.now.blocks }
    {
        Layout {
            policy: Policy::Force,
            cells: 1,
            buckets: self.buckets as u32,
            blocks: self.blocks as u32,
            structures: 1,
            format: 2,
            partitions: 1,
        }
    }
}
