//! One value that threads share, each through a lane of its own.
#![tactic(auto)]

mod close;
mod crosses;
mod hub;
mod open;
mod pass;
pub mod plays;
mod start;
mod turn;
pub mod view;

pub use crosses::{hub_is_shared, pass_is_sent};
pub use hub::{Asked, CloseFault, Hub, Polled};
pub use pass::Pass;
pub use start::Start;
