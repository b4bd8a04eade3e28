//! A lane's text as a state machine: what its calls owe, and what becomes of its transactions.
//!
//! A runner asks what `Worker::next` gives, and tells the worker by `answered` or `refused` what became of it.
#![tactic(auto)]

mod act;
mod calls;
pub mod drafts;
pub mod laws;
mod looking;
mod maps;
mod next;
mod replies;
mod stage;
mod worker;

pub use act::Act;
pub use looking::Looking;
pub use stage::{Change, Stage};
pub use worker::Worker;

#[cfg(test)]
mod tests;
