//! What commits of a script's transactions mean: the commands of each, on finite maps.
#![tactic(auto)]

mod deed;
pub mod laws;
mod reports;
mod run;
mod weights;

pub use deed::{Done, MapDeed};
pub use reports::{names_of_entries, report_of_run, report_of_stop};
pub use run::Run;
pub use weights::{cells_of_command, cells_of_commands, most_events_of, most_events_of_script};

#[cfg(test)]
mod tests;
