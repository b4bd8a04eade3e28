//! The texts of scripts: how they are read, how a run of one is reported, and how one is generated.
#![tactic(auto)]

mod fault;
mod generator;
mod read;
mod recovery;
mod report;
mod script;
mod served;
mod stopped;
mod write;

pub use fault::{Fault, ScriptFault};
pub use generator::generate;
pub use read::{number_of, read_script};
pub use recovery::{RecoveryReport, write_recovery};
pub use report::{Fate, Got, How, Named, PairList, Printed, Report, write_report};
pub use script::{Command, Item, LaneText, MOST_COMMANDS, MOST_TRANSACTIONS, Script, Turns};
pub use stopped::{StopReport, write_stopped};

#[cfg(test)]
mod tests;
