//! Lists on devices that stop, logs that grow and are cleared, and parts of recovery.
#![tactic(auto)]

mod checks;
mod log_checks;
mod making;

pub use checks::{Change, has_list};
pub use log_checks::{Log, log_at_rest};
pub use making::{is_inside, make_event};

#[cfg(test)]
mod append_tests;
#[cfg(test)]
mod clearing_tests;
#[cfg(test)]
mod list_tests;
#[cfg(test)]
mod recovery_tests;
