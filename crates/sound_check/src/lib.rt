//! Whether the words of a region are a sound image, and otherwise which rule is the first that fails.
#![tactic(auto)]

mod addresses;
mod checking;
mod fault;
mod formed;
mod list_rules;
mod log_rules;
mod log_words;
mod numbers;
mod order;
mod points;
mod walk;

pub use checking::{SoundLog, check, read_sound};
pub use fault::CheckFault;

#[cfg(test)]
mod tests;
