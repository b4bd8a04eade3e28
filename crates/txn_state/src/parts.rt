//! The parts of the calls' plans under force, as a lane's book numbers them. A call goes through some of them.

/// A call's first part: the append of a write's update, a commit's fence, or the append of an abort's rollback record.
pub const FIRST: u64 = 0;

/// The store of a word: a write's own, or one that an abort takes back.
pub const STORE: u64 = 1;

/// The append of the compensation of the newest update that stands.
pub const UNDO: u64 = 2;

/// An abort's fence, behind which all that it took back is kept.
pub const KEEP: u64 = 3;

/// The append of the transaction's end.
pub const END: u64 = 4;

/// The closing of the transaction's records but its end.
pub const CLOSE: u64 = 5;

/// The closing of its end.
pub const CLOSE_END: u64 = 6;

/// The removal of the partition's buckets that have only closed gates.
pub const DROP: u64 = 7;
