//! A value of two lanes, each with a word of its own, and threads over its hub.
#![tactic(auto)]

mod counter;
mod counters;
mod deed;
mod runs;

pub use counter::Counter;
pub use counters::Counters;
pub use deed::Nothing;
pub use runs::{read, write};

#[cfg(test)]
mod tests;
