ghost use Rattle.std.specs.Prelude.{◌≡◌, ◌<◌};

use lane_types::Laned;
use std::snapshot::Snapshot;

/// The value as the hub was made.
#[derive(Drop)]
pub struct Start<T: Laned> {
    pub lanes: u32,
    pub span: u32,
    pub value: Snapshot<T>,
    ghost some_lane: { 0 < lanes },
    ghost counted: { lanes ≡ (T.seen value.value).lanes },
    ghost spans: { span ≡ (T.seen value.value).span },
}
