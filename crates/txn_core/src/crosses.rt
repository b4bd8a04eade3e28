// What may cross threads.
use crate::world::World;
use lane_traits::Device;
use lane_types::Deed;

fn sent<X: Send>(_x: &X) {}

/// A world may be used on another thread.
pub fn world_is_sent<D: Device + Send, E: Deed + Send>(world: &World<D, E>) {
    sent(world)
}
