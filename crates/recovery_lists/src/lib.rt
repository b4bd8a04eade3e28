//! The parts of recovery that change the lists of buckets: the repair of a partition's list, and the buckets that are taken out of it once
//! the log is empty.
#![tactic(auto)]

mod dropping;
pub mod laws;
mod repairing;

pub use dropping::drop_closed;
pub use repairing::repair;

#[cfg(test)]
mod tests;
