use lane_traits::WordWrite;
use persist_model::List;

/// What a lane asks. `E` says what a commit means. A block is named by its number.
#[derive(Drop)]
pub enum Call<E> {
    /// A transaction on a set of structures, bit s for structure s.
    Begin(u8),
    Read(u32),
    Write(u32, u64),
    /// A block for a structure.
    Take(u32),
    Give(u32),
    Commit(E),
    Abort,
    Checkpoint,
    /// Writes whose records go to the log at once.
    Batch(List<WordWrite>),
    Savepoint,
    /// Back to a savepoint, which stays.
    RollbackTo(u64),
}

/// How a call is answered.
#[derive(Clone, Copy, Debug, PartialEq, Eq)]
pub enum Reply {
    /// The transaction's number.
    Begun(u64),
    Word(u64),
    Written,
    Block(u32),
    Given,
    Committed,
    Aborted,
    Checkpointed,
    /// The savepoint's number.
    Saved(u64),
    RolledBack,
}

/// Whether a lane is in a transaction.
#[derive(Clone, Copy, Debug, PartialEq, Eq)]
pub enum Phase {
    /// It has no transaction.
    Out,
    /// It has a transaction, and no call in progress.
    In,
    /// It has a call in progress.
    Calling,
}

/// Why an ask was refused. The variants are tried in this order.
#[derive(Clone, Copy, Debug, PartialEq, Eq)]
pub enum Refusal {
    WrongPhase { phase: Phase },
    /// The owner of the block: a structure plus 1, or 0 for nobody.
    NotHeld { owner: u32 },
    LogFull { room: u64, need: u64 },
    HeapFull,
    NoMemory,
}

/// What a lane waits for.
#[derive(Clone, Copy, Debug, PartialEq, Eq)]
pub enum What {
    /// The latch of a partition.
    Latch(u32),
    Structure(u32),
}

/// What came of a step.
#[derive(Clone, Copy, Debug, PartialEq, Eq)]
pub enum Stepped {
    /// An event was made that isn't the call's last.
    Moved,
    Answered(Reply),
    Waiting { what: What, holder: u32 },
    /// The device has stopped.
    Stopped,
    /// No call is in progress.
    Idle,
}
