//! What the program does with an image: it reads its text, recovers it on a device, and tells what it found.
#![tactic(auto)]

mod cells;
pub mod laws;
mod maps;
mod migrating;
mod reader;
mod runner;

pub use maps::{MapFault, read_maps};
pub use migrating::{Stop, migrate_text};
pub use runner::{Ended, Wanted, recover_text};
