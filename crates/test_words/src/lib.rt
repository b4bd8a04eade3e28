//! Words in a vector, for tests of maps: the blocks of one structure, and a draft that reads them.
#![tactic(auto)]

mod memory;

pub use memory::{Memory, other_blocks, owned_words};

#[cfg(test)]
mod tests;
