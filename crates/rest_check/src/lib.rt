//! Whether a region is at rest, as a world of lanes asks of it at its start.
#![tactic(auto)]

pub mod laws;
mod reading;
mod resting;

pub use resting::{RestFault, check_rest};

#[cfg(test)]
mod tests;
