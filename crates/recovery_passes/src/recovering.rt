ghost use Rattle.std.specs.Prelude.{◌≡◌, ◌≤◌, ◌<◌, ◌+◌, ◌^◌, OnOk};
ghost use Rattle.persist_model.specs.Region.{AreSettled};
ghost use Rattle.persist_model.specs.Shape.{shape_of};
ghost use Rattle.persist_model.specs.Sound.{IsSound};
ghost use Rattle.recovery_run.specs.Reached.{newest_at};
ghost use Rattle.recovery_passes.specs.Reading.{IsLogRead};
ghost use Rattle.recovery_passes.specs.Recovery.{IsRecoveryOfSound, IsRecovery, KeepsHeader};
ghost use Rattle.recovery_passes.specs.Refusals.{recover_fault, unfinished_fault};
ghost use Rattle.region_layout.specs.Layout.{layout_shape};
ghost use Rattle.recovery_passes.specs.declared.recovering.Unfinished.{Unfinished};

use crate::making::make_events;
use bucket_log::Placed;
use lane_traits::{Device, Done};
use log_partition::UsedBuckets;
use persist_model::{List, Look, NoMemory};
use recovery_analysis::{Work, work_of};
use recovery_undo::Held;
use region_layout::{ImageFault, Layout};
use sound_check::{CheckFault, read_sound};
use std::alloc::Global;

/// Why a recovery wasn't finished.
#[derive(Clone, Copy, Debug, PartialEq, Eq)]
pub enum RecoverFault {
    /// The words are no sound image: the first rule that fails, and its address. No event was made.
    Unsound(ImageFault),
    /// The device has stopped. Each of its images is sound, with the same standing words, and can be recovered again.
    Stopped,
    /// Want of memory. No event was made, since all memory is taken first.
    NoMemory,
}

/// Why the recovery of a sound image wasn't finished.
#[derive(Clone, Copy, Debug, PartialEq, Eq)]
pub enum Unfinished {
    /// The device has stopped. Each of its images is sound, with the same standing words, and can be recovered again.
    Stopped,
    /// Want of memory. No event was made, since all memory is taken first.
    NoMemory,
}

impl From<CheckFault> for RecoverFault {
    ghost from_gives = { λ fault refusal. refusal ≡ recover_fault fault };

    fn from(fault: CheckFault) -> Self {
        match fault {
            CheckFault::Unsound(found) => RecoverFault::Unsound(found),
            CheckFault::NoMemory => RecoverFault::NoMemory,
        }
    }
}

impl From<Unfinished> for RecoverFault {
    ghost from_gives = { λ fault whole. whole ≡ unfinished_fault fault };

    fn from(fault: Unfinished) -> Self {
        match fault {
            Unfinished::Stopped => RecoverFault::Stopped,
            Unfinished::NoMemory => RecoverFault::NoMemory,
        }
    }
}

impl From<NoMemory> for Unfinished {
    ghost from_gives = { λ _ fault. fault ≡ Unfinished.NoMemory };

    fn from(_: NoMemory) -> Self {
        Unfinished::NoMemory
    }
}

/// What a finished recovery found and did.
#[derive(Drop)]
pub struct Recovered {
    /// The transactions that have a committed end, ascending.
    pub winners: List<u64>,
    /// The transactions that had no end, ascending. They were rolled back.
    pub losers: List<u64>,
    /// How many events were made.
    pub events: u64,
}

// Makes room for the stores of a recovery, and for so many more.
fn make_room<D: Device>(device: &mut D, most: u64, stores: u64) -> Result<(), NoMemory>
    ensures fits { most < 2 ^ 64 }
    ensures spare { OnOk result (most ≤ D.spare device.new) }
    ensures more { OnOk result (most + stores ≤ D.spare device.new) }
    ensures cells { D.cells device.new ≡ D.cells device.old }
    ensures counts { D.counts device.new ≡ D.counts device.old }
{
    match most.checked_add(stores) {
        Some(all) => device.reserve(all),
        None => Err(NoMemory),
    }
}

/// Recovers a device whose words are settled and a sound image, of which `read_sound` gave the layout and the records: each
/// heap word then has its standing value, and the log is empty.
///
/// It repairs the lists of buckets, stores again what ended transactions wrote and a stop may have lost, takes back what
/// running ones wrote, and closes all records. It makes its events as `RECOVERY_LANE`, takes all its memory before the first of
/// them, and never wants room in the log that the image doesn't have.
pub fn recover_read<D: Device>(
    alloc: Global,
    device: &mut D,
    layout: Layout,
    records: &[Placed],
) -> Result<Recovered, Unfinished>
    requires settled { AreSettled (D.cells device.old) }
    requires sound { IsSound (D.cells device.old).size (newest_at (D.cells device.old)) }
    requires shape { layout_shape layout ≡ shape_of (newest_at (D.cells device.old)) }
    requires records { IsLogRead layout records.now (newest_at (D.cells device.old)) }
    ensures owed { IsRecoveryOfSound (D.cells device.old) (D.counts device.old) (D.cells device.new) (D.counts device.new) result }
    ensures header { KeepsHeader (D.cells device.old) (D.cells device.new) }
{
    recover_reserving(alloc, device, layout, records, 0)
}

/// As `recover_read`, and behind it there is room for so many stores more: their memory is taken before the first event too.
pub fn recover_reserving<D: Device>(
    alloc: Global,
    device: &mut D,
    layout: Layout,
    records: &[Placed],
    stores: u64,
) -> Result<Recovered, Unfinished>
    requires settled { AreSettled (D.cells device.old) }
    requires sound { IsSound (D.cells device.old).size (newest_at (D.cells device.old)) }
    requires shape { layout_shape layout ≡ shape_of (newest_at (D.cells device.old)) }
    requires records { IsLogRead layout records.now (newest_at (D.cells device.old)) }
    ensures owed { IsRecoveryOfSound (D.cells device.old) (D.counts device.old) (D.cells device.new) (D.counts device.new) result }
    ensures header { KeepsHeader (D.cells device.old) (D.cells device.new) }
    ensures room { OnOk result (stores ≤ D.spare device.new) }
{
    let work = work_of(alloc, records, layout)?;
    let Work {
        winners,
        losers,
        redo,
        undo,
        checkpoint,
        gates,
        next,
        most,
    } = work;
    let table = UsedBuckets::with_memory(alloc, layout)?;
    make_room(device, most, stores)?;
    let before = device.events();
    let done = make_events(
        device,
        layout,
        redo.as_slice(),
        undo.as_slice(),
        checkpoint,
        Held { next, gates, table },
    );
    match done {
        Done::Stopped => Err(Unfinished::Stopped),
        Done::Made => Ok(Recovered {
            winners,
            losers,
            events: device.events() - before,
        }),
    }
}

/// Recovers a device whose words are settled: each heap word then has its standing value, and the log is empty.
///
/// It checks first that the words are a sound image. The rest is `recover_read`, with the records that the check read.
pub fn recover<D: Device>(alloc: Global, device: &mut D) -> Result<Recovered, RecoverFault>
    requires settled { AreSettled (D.cells device.old) }
    ensures owed { IsRecovery (D.cells device.old) (D.counts device.old) (D.cells device.new) (D.counts device.new) result }
    ensures header { KeepsHeader (D.cells device.old) (D.cells device.new) }
{
    let read = read_sound(alloc, device)?;
    let done = recover_read(alloc, device, read.layout, read.records.as_slice())?;
    Ok(done)
}
