//! What has been read of a script.

ghost use Rattle.std.specs.Prelude.{◌≡◌};
ghost use Rattle.rewind_script.specs.Grammar.{blank};

use crate::script::{Command, Item, LaneText, Turns};
use persist_model::List;
use region_layout::{Kind, Policy};
use std::alloc::Global;

/// The part of a script that the last line belongs to.
#[derive(Clone, Copy, Debug, PartialEq, Eq)]
pub enum Part {
    Start,
    Region,
    Log,
    Partitions,
    Maps,
    Turns,
    Lane,
    Transaction,
}

/// The first word of a line.
#[derive(Clone, Copy, Debug, PartialEq, Eq)]
pub enum Keyword {
    Region,
    Log,
    Partitions,
    Map,
    Turns,
    Lane,
    Checkpoint,
    Begin,
    Put,
    Del,
    Get,
    Savepoint,
    Rollback,
    Commit,
    Abort,
}

/// What the lines so far mean.
#[derive(Drop)]
pub struct Reading {
    pub part: Part,
    pub policy: Policy,
    pub buckets: u32,
    pub blocks: u32,
    pub cells: u32,
    pub batch: bool,
    pub partitions: u32,
    pub kinds: List<Kind>,
    pub turns: List<Turns>,
    /// The turns together.
    pub total: u64,
    /// The lanes before the one that is being read.
    pub lanes: List<LaneText>,
    /// What the lane that is being read does.
    pub items: List<Item>,
    pub transactions: u64,
    /// The structures of the transaction that is being read.
    pub set: u8,
    pub commands: List<Command>,
}

impl Reading {
    /// Before the first line. The least region stands for the one to come.
    #[tactic(auto, unfolding(crate::specs::Grammar::blank))]
    pub fn new(alloc: Global) -> Self
        ensures { result ≡ blank }
    {
        Reading {
            part: Part::Start,
            policy: Policy::Force,
            buckets: 4,
            blocks: 16,
            cells: 1,
            batch: false,
            partitions: 1,
            kinds: List::new(alloc),
            turns: List::new(alloc),
            total: 0,
            lanes: List::new(alloc),
            items: List::new(alloc),
            transactions: 0,
            set: 0,
            commands: List::new(alloc),
        }
    }
}
