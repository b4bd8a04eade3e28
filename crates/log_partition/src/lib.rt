//! The partitions of the log: each as if it were the only one, and the records of all of them.
#![tactic(auto)]

mod events;
mod gathering;
pub mod laws;
mod used;
mod view;

pub use events::{out_address, region_event};
pub use gathering::merge;
pub use used::UsedBuckets;
pub use view::PartView;

#[cfg(test)]
mod tests;
