//! Recovery: what the log of a sound image asks for is made on a device that may stop at any event.
//!
//! `check`, `read_sound` and `analyse` are exported here too: they read words and make no event.
#![tactic(auto)]

mod beginning;
mod clearing;
mod list_stages;
mod making;
mod recovering;
mod redo;
mod undo_stage;

pub use recovering::{
    RecoverFault, Recovered, Unfinished, recover, recover_read, recover_reserving,
};
pub use recovery_analysis::{Analysis, analyse};
pub use sound_check::{CheckFault, SoundLog, check, read_sound};
