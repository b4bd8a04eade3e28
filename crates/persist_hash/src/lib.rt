//! A hash in the words of one structure.
#![tactic(auto)]

mod add;
mod fields;
mod insertion;
pub mod laws;
mod lookup;
mod marks;
mod removal;
mod search;
mod soundness;
mod walking;

pub use insertion::put;
pub use lookup::{get, needs};
pub use removal::remove;
pub use soundness::{Broken, sound};
pub use walking::walk;

#[cfg(test)]
mod tests;
