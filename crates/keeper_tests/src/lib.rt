//! The log's keeper as lanes use it: latches, appends event by event on a device, closings, and the removal of buckets.
#![tactic(auto)]

#[cfg(test)]
mod lanes;
#[cfg(test)]
mod tests;
