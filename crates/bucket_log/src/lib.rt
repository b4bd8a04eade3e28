//! The log of records in the buckets of the list: where the next record goes, the plan of its append, and what is read back.
#![tactic(auto)]

mod address;
mod append;
mod chain;
pub mod laws;
mod next_place;
mod room_count;
mod scanning;

pub use address::part_of;
pub use append::{Place, append_event};
pub use next_place::{place, place_with};
pub use room_count::room;
pub use scanning::{Placed, scan, sort_placed};
