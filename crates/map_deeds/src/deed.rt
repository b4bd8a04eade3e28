//! What a commit of a script's transaction means.

use lane_types::Deed;
use persist_model::List;
use region_layout::Kind;
use rewind_script::Command;

/// A command, and what it read: the value of a get's key, and `None` for every other command.
#[derive(Clone, Copy, Debug, PartialEq, Eq)]
pub struct Done {
    pub command: Command,
    pub got: Option<u64>,
}

/// The commands of a transaction, in order, on the structures of a set.
#[derive(Drop)]
pub struct MapDeed {
    /// Bit s stands for structure s.
    pub set: u8,
    /// The kinds of all structures of the region, from structure 0 on.
    pub kinds: List<Kind>,
    pub steps: List<Done>,
}

impl Deed for MapDeed {
    ghost use Rattle.map_deeds.specs.Meanings.{map_deeds};
    ghost use Rattle.map_deeds.specs.Depending.{deeds_depend};

    ghost meaning = { map_deeds };

    fn structures(&self) -> u8 {
        self.set
    }

    ghost depends = { deeds_depend };
}
