//! A region of format 1 is made one of format 2, which says of itself what its structures are and into how many partitions its log is split.
#![tactic(auto)]

mod kinds;
pub mod laws;
mod making;
mod migrating;
mod plan;

pub use kinds::wrong_line;
pub use migrating::{migrate, migrate_read};
pub use plan::{EVENTS, migration_event};

#[cfg(test)]
mod tests;
