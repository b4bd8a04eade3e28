//! The invariant of a world of lanes, each of which runs a transaction on one region, as plain data: the settled records against the lanes'
//! transactions, what a read finds, and what is under way. In its laws the functions do nothing: the clause is the law.
#![tactic(auto)]

pub mod laws;
pub mod log_events;
pub mod room_laws;
