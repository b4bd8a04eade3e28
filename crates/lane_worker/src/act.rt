use lane_types::Call;
use map_deeds::MapDeed;

/// What a lane does next.
#[derive(Drop)]
pub enum Act {
    Ask(Call<MapDeed>),
    /// Each item of its text was asked to its end.
    Ended,
}
