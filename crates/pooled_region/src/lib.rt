//! Regions of words in memory by their candidates: a pool of places, and a list of the words that have a mark.
#![tactic(auto)]

mod events;
mod marks;
mod pool;
mod pooled;
mod room;
mod settling;
mod walks;

pub use pooled::Cells;
