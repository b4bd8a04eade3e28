//! The invariant of a world of lanes under no-force, as plain data: records stay behind their transaction's end until a checkpoint closes them, plain
//! stores wait for a checkpoint's sweep, and what a stop loses is redone. In its laws the functions do nothing: the clause is the law.
#![tactic(auto)]

pub mod checkpoints;
pub mod laws;
pub mod parts;
pub mod steps;
