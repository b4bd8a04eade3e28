//! Worlds of lanes on regions: where they begin, what is refused, and what becomes of calls.
#![tactic(auto)]

mod deed;

pub use deed::Named;

#[cfg(test)]
mod guards;
#[cfg(test)]
mod laned;
#[cfg(test)]
mod regions;
#[cfg(test)]
mod script;
#[cfg(test)]
mod start_tests;
#[cfg(test)]
mod step_tests;
