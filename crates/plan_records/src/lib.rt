//! The records that the plans of transactions append, and what each append leaves to a stop.
#![tactic(auto)]

mod cells;
pub mod laws;
mod parts;
mod sequences;

pub use cells::{deletion_cell, update_cell};
pub use parts::{Closing, Giving, Part, Undoing, Update};
pub use sequences::{give_part, owner_part, owner_part_count, undo_part, word_store, write_part};
