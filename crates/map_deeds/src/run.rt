use crate::deed::MapDeed;
use lane_types::Entry;
use persist_model::List;
use rewind_script::Fate;

/// What a run of a script gives.
#[derive(Drop)]
pub struct Run {
    pub history: List<Entry<MapDeed>>,
    /// The commits in flight at a stop, in order of lane.
    pub flight: List<Entry<MapDeed>>,
    /// The fates of all other transactions of the script.
    pub fates: List<Fate>,
    /// The device stopped before each lane's text was asked to its end.
    pub stopped: bool,
}
