//! What a lane asks and is answered, what the others see of it, and a value that several lanes use.
#![tactic(auto)]

mod call;
mod deed;
mod face;
mod laned;

pub use call::{Call, Phase, Refusal, Reply, Stepped, What};
pub use deed::Deed;
pub use face::{Entry, Face, Remains, Tally};
pub use laned::Laned;
