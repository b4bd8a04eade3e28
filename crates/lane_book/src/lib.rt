//! What a world keeps of its lanes beside the region: their phases, structures, calls and tallies, and the history of commits.
#![tactic(auto)]

mod appends;
mod asks;
mod book;
mod flights;
mod fresh;
mod lane;
mod locks;
mod owed;
mod refusals;
mod reserved;
mod stock;
mod stores;

pub use book::Book;
pub use flights::Commits;
pub use lane::{Doing, Lane, Point};
pub use locks::Holder;
pub use stock::Stock;
