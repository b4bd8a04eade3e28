//! Records that go to the log at once: fresh buckets are filled with them, and each is put behind the chain with all of its records.
#![tactic(auto)]

mod choosing;
mod chosen;
mod free;
mod grouping;
pub mod laws;

pub use choosing::slots;
pub use chosen::Slots;
pub use grouping::{Group, group_event};

#[cfg(test)]
mod tests;
