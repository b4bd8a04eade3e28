//! The pooled region beside the plain one: the same events leave the same images in both.
#![tactic(auto)]

pub mod agreement;
#[cfg(test)]
mod tests;
