//! The book of lanes as a world calls it: faces call by call, structure locks, refusals, reserved cells, debts and the history.
#![tactic(auto)]

#[cfg(test)]
mod asks;
#[cfg(test)]
mod cell_tests;
#[cfg(test)]
mod deed;
#[cfg(test)]
mod ended;
#[cfg(test)]
mod face_tests;
#[cfg(test)]
mod guards;
#[cfg(test)]
mod history_tests;
#[cfg(test)]
mod lock_tests;
#[cfg(test)]
mod owed;
#[cfg(test)]
mod refusal_tests;
#[cfg(test)]
mod refused;
#[cfg(test)]
mod reserved;
#[cfg(test)]
mod start;
#[cfg(test)]
mod stores;
#[cfg(test)]
mod turns;
