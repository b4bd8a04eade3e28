use crate::call::{Phase, Reply, Stepped};
use lane_traits::WordWrite;
use persist_model::List;

/// What a lane has done. A number stands still at `u64::MAX`.
#[derive(Clone, Copy, Debug, PartialEq, Eq)]
pub struct Tally {
    pub steps: u64,
    /// The answer of the last step.
    pub last: Option<Stepped>,
    /// What the calls may put into the log: 2 for a begun transaction, 2 for each write and take, 1 for each give. Calls that the
    /// log or the heap had no room for count too.
    pub cells: u64,
    pub checkpoints: u64,
    /// Takes, those that found no block among them.
    pub takes: u64,
    /// An ask found the log full, or the heap; a step found the device stopped.
    pub full: bool,
    pub heap: bool,
    pub stopped: bool,
}

/// What a program can read of a lane.
#[derive(Clone, Copy, Debug, PartialEq, Eq)]
pub struct Face {
    pub lane: u32,
    pub phase: Phase,
    /// The structures that it holds.
    pub held: u8,
    /// How many transactions it has begun, and how many of these are in the history.
    pub begun: u64,
    pub commits: u64,
    /// The last reply.
    pub answer: Option<Reply>,
    pub tally: Tally,
    /// The transaction's savepoints.
    pub live: u64,
}

/// A commit. The number counts the lane's begun transactions before this one.
#[derive(Drop)]
pub struct Entry<E> {
    pub lane: u32,
    pub number: u64,
    pub transaction: u64,
    pub deed: E,
    pub writes: List<WordWrite>,
}

/// What is left of a finished world.
#[derive(Drop)]
pub struct Remains<D, E> {
    pub device: D,
    pub history: List<Entry<E>>,
    /// The commits in flight, in order of lane.
    pub flight: List<Entry<E>>,
}
