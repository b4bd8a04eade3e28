//! Makes the events of a migration on a device.
ghost use Rattle.std.specs.Prelude.{◌≡◌, ◌≤◌};
ghost use Rattle.log_laws.specs.Parts.{after_plan};
ghost use Rattle.recovery_run.specs.Edges.{counts_with};
ghost use Rattle.migration.specs.Plan.{migration_plan};
ghost use Rattle.migration.specs.Owed.{HasStoppedAt};

use crate::plan::migration_event;
use lane_traits::{Device, Done};
use persist_model::format::RECOVERY_LANE;
use region_layout::Kind;

/// Makes the events of a migration, up to their end or to the device's stop.
pub(crate) fn make_events<D: Device>(device: &mut D, kinds: &[Kind]) -> Done
    requires enough { 32 ≤ (D.cells device.old).size }
    requires spare { 22 ≤ D.spare device.old }
    ensures made { result ≡ Done.Made → D.cells device.new ≡ after_plan RECOVERY_LANE (D.cells device.old) (migration_plan kinds.now) }
    ensures counted { result ≡ Done.Made → D.counts device.new ≡ counts_with (D.counts device.old) 24 Done.Made }
    ensures stopped { result ≡ Done.Stopped
        → HasStoppedAt (migration_plan kinds.now) (D.cells device.old) (D.counts device.old) (D.cells device.new) (D.counts device.new) }
{
    let mut i = 0;
    while let Some(event) = migration_event(kinds, i) {
        match device.event(RECOVERY_LANE, event) {
            Done::Stopped => return Done::Stopped,
            Done::Made => {}
        }
        i += 1;
    }
    Done::Made
}
