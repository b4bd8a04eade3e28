//! What recovery reads before it makes an event, and all the memory that it takes.
#![tactic(auto)]

mod adding;
mod analysing;
mod changing;
mod fates;
mod grouping;
mod picking;
mod working;

pub use analysing::{Analysis, analyse};
pub use changing::Change;
pub use fates::{is_committed, is_running, is_skipped, need, newest_checkpoint};
pub use grouping::{Transaction, transactions};
pub use working::{Work, work_of};

#[cfg(test)]
mod tests;
