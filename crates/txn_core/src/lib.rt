//! Transactions of several lanes on one device: a lane's call is asked, and then made step by step, an event a step.
#![tactic(auto)]

mod aborts;
mod advancing;
mod ask_calls;
mod ask_ends;
mod ask_memory;
mod ask_refusals;
mod ask_takes;
mod ask_wants;
mod ask_writes;
mod asking;
mod beginning;
mod clearing;
mod crosses;
mod ends;
mod events;
mod laned;
pub mod laws;
mod quiet;
mod running;
mod starting;
mod stepping;
mod takes;
mod world;
mod writes;

pub use advancing::{Went, advance, append};
pub use asking::ask;
pub use beginning::begin;
pub use crosses::world_is_sent;
pub use events::make;
pub use running::{Ran, run};
pub use starting::{Begun, start};
pub use stepping::step;
pub use world::World;
