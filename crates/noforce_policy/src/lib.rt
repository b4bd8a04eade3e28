//! The plans of the calls of a transaction under no-force: its words are kept by checkpoints alone, and what a checkpoint hasn't kept is redone.
#![tactic(auto)]

mod calls;
mod checkpoint;
pub mod laws;

pub use calls::{abort_part, commit_part, give_part, write_part};
pub use checkpoint::{Sweep, checkpoint_part};
pub use plan_records::{Closing, Giving, Part, Undoing, Update};
