//! The text of an image: how many words it has, what its structures are, and its words that aren't 0.
#![tactic(auto)]

mod draft;
mod entry;
mod image;
pub mod laws;
mod lines;
mod number;
mod reader;
mod refusal;
mod writer;

pub use image::{Image, TextFault};
pub use reader::read_image;
pub use writer::write_image;

#[cfg(test)]
mod tests;
