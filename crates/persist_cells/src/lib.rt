//! A map in the words of one block, the root of its structure: a word for each of twelve keys.
#![tactic(auto)]

mod calls;
mod walking;

pub use calls::{get, needs, put, remove};
pub use walking::walk;

#[cfg(test)]
mod tests;
