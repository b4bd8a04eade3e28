//! The plans of both policies, event by event, on a small region.
#![tactic(auto)]

#[cfg(test)]
mod events;
#[cfg(test)]
mod force_tests;
#[cfg(test)]
mod noforce_tests;
#[cfg(test)]
mod savepoint_tests;
