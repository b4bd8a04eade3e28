//! The keeper of the log for several lanes: what is under way in each partition, and what the settled log is meanwhile.
#![tactic(auto)]

mod changes;
mod closing;
mod keeper;
pub mod laws;
mod ledger;
mod listing;
pub mod need_laws;
mod slots;
mod starting;

pub use keeper::LogKeeper;
pub use ledger::{Entry, Progress, close_listed, come_to, note};
pub use slots::{NOBODY, Part, Slot};
