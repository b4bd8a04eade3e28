//! The plans of the calls of a transaction under force: what it wrote is kept before its end is recorded, so that only undo is needed.
#![tactic(auto)]

mod ending;
pub mod laws;
mod naming;

pub use ending::{abort_part, commit_part};
pub use naming::{give_part, write_part};
pub use plan_records::{Closing, Giving, Part, Undoing, Update};
