//! The recoverable doubly linked list of buckets: its plans of events, its repair, and what is read from it.
#![tactic(auto)]

pub mod laws;
mod plans;
mod reads;
mod repairing;

pub use plans::{Insert, Remove, insert_event, remove_event};
pub use reads::next_bucket;
pub use repairing::{Repair, repair_event, repair_of};
