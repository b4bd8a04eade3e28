//! Recoveries of whole images, to their end and stopped at each event.
#![tactic(auto)]

#[cfg(test)]
mod images;
#[cfg(test)]
mod list_tests;
#[cfg(test)]
mod redo_tests;
#[cfg(test)]
mod report_tests;
#[cfg(test)]
mod runs;
#[cfg(test)]
mod stop_tests;
