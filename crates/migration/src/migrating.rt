//! Recovers a region and makes it one of format 2.
ghost use Rattle.std.specs.Prelude.{◌≡◌, ◌≤◌, length};
ghost use Rattle.persist_model.specs.Region.{AreSettled};
ghost use Rattle.persist_model.specs.Shape.{shape_of};
ghost use Rattle.persist_model.specs.Sound.{IsSound};
ghost use Rattle.region_layout.specs.Layout.{layout_shape};
ghost use Rattle.recovery_run.specs.Reached.{newest_at};
ghost use Rattle.recovery_passes.specs.Reading.{IsLogRead};
ghost use Rattle.migration.specs.Fits.{Fit};
ghost use Rattle.migration.specs.Outcomes.{IsMigrationOfSound, IsMigration};

use crate::kinds::wrong_line;
use crate::making::make_events;
use crate::plan::{EVENTS, STORES};
use bucket_log::Placed;
use lane_traits::{Device, Done};
use recovery_passes::{RecoverFault, Unfinished, read_sound, recover_reserving};
use region_layout::{Kind, Layout};
use std::alloc::Global;

/// As `migrate`, for a caller that has the image's records and knows that the kinds fit.
pub fn migrate_read<D: Device>(
    alloc: Global,
    device: &mut D,
    layout: Layout,
    records: &[Placed],
    kinds: &[Kind],
) -> Result<u64, Unfinished>
    requires settled { AreSettled (D.cells device.old) }
    requires sound { IsSound (D.cells device.old).size (newest_at (D.cells device.old)) }
    requires shape { layout_shape layout ≡ shape_of (newest_at (D.cells device.old)) }
    requires records { IsLogRead layout records.now (newest_at (D.cells device.old)) }
    requires fit { Fit (newest_at (D.cells device.old)) kinds.now }
    ensures owed { IsMigrationOfSound kinds.now (D.cells device.old) (D.counts device.old) (D.cells device.new) (D.counts device.new) result }
    ensures size { (D.cells device.new).size ≡ (D.cells device.old).size }
{
    let done = match recover_reserving(alloc, device, layout, records, STORES) {
        Ok(done) => done.events,
        Err(fault) => return Err(fault),
    };
    if layout.format == 2 {
        return Ok(done);
    }
    match make_events(device, kinds) {
        Done::Stopped => Err(Unfinished::Stopped),
        Done::Made => Ok(done + EVENTS),
    }
}

/// Recovers a device whose words are settled, and makes them words of format 2 with these kinds. It answers how many events
/// it made.
///
/// It checks first that the words are a sound image, and that the kinds fit: there is one for each structure, and in format 2
/// they are those that the header says. It takes all its memory before the first event. Where the words are of format 1 it
/// makes, behind the recovery, the events of `migration_event` as `RECOVERY_LANE`.
pub fn migrate<D: Device>(
    alloc: Global,
    device: &mut D,
    kinds: &[Kind],
) -> Result<u64, RecoverFault>
    requires settled { AreSettled (D.cells device.old) }
    requires few { length kinds.now ≤ 8 }
    ensures owed { IsMigration kinds.now (D.cells device.old) (D.counts device.old) (D.cells device.new) (D.counts device.new) result }
    ensures size { (D.cells device.new).size ≡ (D.cells device.old).size }
{
    let read = read_sound(alloc, device)?;
    match wrong_line(device, kinds) {
        Some(found) => return Err(RecoverFault::Unsound(found)),
        None => {}
    }
    let events = migrate_read(alloc, device, read.layout, read.records.as_slice(), kinds)?;
    Ok(events)
}
