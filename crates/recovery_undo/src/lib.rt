//! The records that recovery appends, and the undo of one running transaction.
#![tactic(auto)]

mod appending;
mod checkpoint;
mod held;
mod target;
mod undoing;

pub use appending::{Appended, append_record};
pub use checkpoint::append_checkpoint;
pub use held::Held;
pub use undoing::undo;

#[cfg(test)]
mod tests;
