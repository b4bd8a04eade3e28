//! Scripts, as their texts mean them.

use persist_model::List;
use region_layout::{Kind, Layout};

/// The most transactions of a script, in all its lanes.
pub const MOST_TRANSACTIONS: u64 = 65_536;

/// The most commands of a transaction.
pub const MOST_COMMANDS: usize = 256;

/// A region with its structures, and what the lanes are to do on it.
#[derive(Drop)]
pub struct Script {
    /// The region's layout, of format 2.
    pub layout: Layout,
    /// The kinds of the structures, from structure 0 on.
    pub kinds: List<Kind>,
    /// The order of the first turns. Lanes that the script lacks may be among them.
    pub turns: List<Turns>,
    pub lanes: List<LaneText>,
    /// The words that a command writes are asked as one group.
    pub batch: bool,
}

/// Some turns of one lane, one after the other.
#[derive(Clone, Copy, Debug, PartialEq, Eq)]
pub struct Turns {
    pub lane: u32,
    pub times: u64,
}

/// What one lane is to do, in order.
#[derive(Drop)]
pub struct LaneText {
    pub items: List<Item>,
}

#[derive(Drop)]
pub enum Item {
    /// The commands between a `begin` and its `commit` or `abort`. Bit s of the set stands for structure s.
    Transaction {
        set: u8,
        commands: List<Command>,
        commit: bool,
    },
    Checkpoint,
}

/// A command of a transaction. The map is the number of its structure.
#[derive(Clone, Copy, Debug, PartialEq, Eq)]
pub enum Command {
    Put { map: u32, key: u64, value: u64 },
    Del { map: u32, key: u64 },
    Get { map: u32, key: u64 },
    Savepoint,
    /// Back to the live savepoint of this number; those after it are dropped.
    Rollback(u32),
}
