//! Going back to a savepoint: a transaction's live savepoints, the plan by which it undoes what came after one of them, and what that
//! plan leaves to a stop.
#![tactic(auto)]

pub mod laws;
mod plan;
mod points;
#[cfg(test)]
mod tests;

pub use plan::back_part;
pub use points::{Counts, Points};
