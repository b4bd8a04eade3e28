//! Where the things of a region stand: its header, the buckets of its log, and the blocks of its heap.
#![tactic(auto)]

mod cell;
mod fresh;
pub mod laws;
mod layout;
mod reading;
mod record_cells;

pub use cell::{Cell, cell_word, read_cell};
pub use fresh::{format, number_of_kind, number_of_policy};
pub use layout::{Buckets, CELL_KEYS, Kind, Layout, Policy};
pub use reading::{ImageFault, read_layout};
pub use record_cells::{
    checkpoint_cell, compensation_cell, end_cell, numbered, plain_cell, rollback_cell,
};

#[cfg(test)]
mod tests;
