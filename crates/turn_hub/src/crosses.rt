// What may cross threads.
use crate::hub::Hub;
use crate::pass::Pass;
use lane_types::Laned;

fn sent<X: Send>(_x: &X) {}

fn shared<X: Sync>(_x: &X) {}

/// A pass may be used on another thread.
pub fn pass_is_sent<T: Laned + Send>(pass: &Pass<T>) {
    sent(pass)
}

/// A hub may be used on several threads at once.
pub fn hub_is_shared<T: Laned + Send>(hub: &Hub<T>) {
    shared(hub)
}
