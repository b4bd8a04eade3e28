//! Small regions for tests, as pairs of an address and the word there.
#![tactic(auto)]

mod pairs;
mod row;

pub use pairs::{changed_words, word_of, words_of};
pub use row::Row;

#[cfg(test)]
mod tests;
