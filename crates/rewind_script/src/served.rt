//! What the program runs so far.

ghost use Rattle.std.specs.Prelude.{◌≡◌};
ghost use Rattle.std.specs.List.{list_all};
ghost use Rattle.rewind_script.specs.Served.{is_force, is_one_cells, is_put, is_served_item, is_served_lane, has_served_region, has_served_lanes, is_served};

use crate::script::{Command, Item, LaneText, Script};
use region_layout::{Kind, Policy};

impl Script {
    /// Whether the program runs it so far. A script that needs what isn't built yet is refused as a whole.
    pub fn is_served(&self) -> bool
        ensures { result ≡ is_served self.now }
    {
        self.has_served_region() && self.has_served_lanes()
    }

    fn has_served_region(&self) -> bool
        ensures { result ≡ has_served_region self.now }
    {
        is_force(self.layout.policy)
            && self.layout.cells == 1
            && self.layout.partitions == 1
            && !self.batch
            && is_one_cells(self.kinds.as_slice())
    }

    fn has_served_lanes(&self) -> bool
        ensures { result ≡ has_served_lanes self.now }
    {
        self.turns.len() == 0 && self.lanes.len() <= 1 && are_served(self.lanes.as_slice())
    }
}

fn is_force(policy: Policy) -> bool
    ensures { result ≡ is_force policy }
{
    matches!(policy, Policy::Force)
}

fn is_one_cells(kinds: &[Kind]) -> bool
    ensures { result ≡ is_one_cells kinds.now }
{
    matches!(kinds, [Kind::Cells])
}

fn are_served(lanes: &[LaneText]) -> bool
    ensures { result ≡ list_all is_served_lane lanes.now }
{
    lanes.iter().all(is_served_lane)
}

fn is_served_lane(lane: &LaneText) -> bool
    ensures { result ≡ is_served_lane lane.now }
{
    lane.items.as_slice().iter().all(is_served_item)
}

fn is_served_item(item: &Item) -> bool
    ensures { result ≡ is_served_item item.now }
{
    match item {
        Item::Transaction {
            commands,
            commit,
            ..
        } => *commit && are_puts(commands.as_slice()),
        Item::Checkpoint => false,
    }
}

fn are_puts(commands: &[Command]) -> bool
    ensures { result ≡ list_all is_put commands.now }
{
    commands.iter().all(is_put)
}

fn is_put(command: &Command) -> bool
    ensures { result ≡ is_put command.now }
{
    matches!(command, Command::Put { .. })
}
