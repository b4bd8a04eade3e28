//! A balanced search tree in the words of one structure.
#![tactic(auto)]

mod calls;
mod collect;
mod fields;
mod grow;
mod hang;
mod join;
pub mod laws;
mod locate;
mod search;
mod shrink;
mod soundness;
mod turn;

pub use calls::{get, needs, put, remove};
pub use collect::walk;
pub use soundness::{Broken, sound};

#[cfg(test)]
mod tests;
