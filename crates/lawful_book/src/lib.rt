//! The history of a book of lanes is lawful: what a book keeps for it, as plain data, and what keeps that. In its laws the functions do nothing: the
//! clause is the law.
#![tactic(auto)]

pub mod laws;
pub mod owned;
