//! The state of a world: its book of lanes, its log's keeper and its region, against the plain data of `txn_laws`, and what keeps it. In its laws
//! the functions do nothing: the clause is the law.
#![tactic(auto)]

pub mod append_laws;
pub mod beside;
pub mod block_laws;
pub mod closing_laws;
pub mod heap_laws;
pub mod parts;
pub mod quiet_laws;
pub mod read_laws;
pub mod start_law;
