//! Migrates the image of a text on a device, to the end or up to a stop.
ghost use Rattle.std.specs.Prelude.{◌≡◌, Some, None};
ghost use Rattle.persist_model.specs.Region.{Region, loaded};
ghost use Rattle.persist_model.specs.Shape.{shape_of};
ghost use Rattle.lane_traits.specs.Device.{Counts, since_load};
ghost use Rattle.region_layout.specs.Layout.{layout_shape};
ghost use Rattle.image_text.specs.Written.{IsWritable};
ghost use Rattle.recovery_passes.specs.Reading.{IsLogRead};
ghost use Rattle.image_runner.specs.Ends.{words_of, IsAdmitted};
ghost use Rattle.image_runner.specs.Migrations.{IsMigrationOf, IsMigrationOfImage, IsComing, IsComingTo, fault_of_cut, end_of_migration};
ghost use Rattle.image_runner.specs.Tells.{TellsWords};

use crate::runner::{Ended, admit};
use image_text::{Image, TextFault, read_image, write_image};
use lane_traits::Device;
use migration::migrate_read;
use persist_model::{Look, NoMemory, Pick};
use recovery_passes::{RecoverFault, SoundLog};
use region_layout::Kind;
use std::alloc::Global;
use word_region::Cut;

/// A stop that is asked for, with the restart behind it.
#[derive(Clone, Copy, Debug, PartialEq, Eq)]
pub struct Stop {
    /// How many events are made before it.
    pub events: u64,
    /// Which candidate the restart leaves in each word.
    pub pick: Pick,
}

/// Migrates the image that a text says, and tells the text of the image that it leaves.
///
/// The image is loaded first. Its words and then its `map` lines are tried before the first event. No maps are read. With a stop the
/// device makes at most so many events of the migration. It is then restarted, also where the migration came to its end before, and the
/// text is that of the image with which it begins again. A device that stops of itself before is not restarted.
pub fn migrate_text<D: Device>(
    alloc: Global,
    text: &[u8],
    stop: Option<Stop>,
    region: D,
) -> (Ended, D)
    ensures { IsMigrationOf stop text.now (D.cells region) (D.counts region) (D.cells result.1) (D.counts result.1) result.0 }
{
    match read_image(alloc, text) {
        Err(TextFault::Line(line)) => (Ended::Misread(line), region),
        Err(TextFault::NoMemory) => (Ended::NoMemory, region),
        Ok(image) => migrate_up_to(alloc, &image, stop, region),
    }
}

/// Migrates an image, to the end or up to a stop.
fn migrate_up_to<D: Device>(
    alloc: Global,
    image: &Image,
    stop: Option<Stop>,
    region: D,
) -> (Ended, D)
    requires { IsWritable image.now.kinds image.now.words }
    ensures { IsMigrationOfImage stop image.now (D.cells region) (D.counts region) (D.cells result.1) (D.counts result.1) result.0 }
{
    match stop {
        None => migrate_whole(alloc, image, region),
        Some(stop) => migrate_and_restart(alloc, image, stop, region),
    }
}

fn migrate_whole<D: Device>(alloc: Global, image: &Image, mut region: D) -> (Ended, D)
    requires { IsWritable image.now.kinds image.now.words }
    ensures { IsMigrationOfImage None image.now (D.cells region) (D.counts region) (D.cells result.1) (D.counts result.1) result.0 }
{
    match migrate_image(alloc, image, &mut region) {
        Err(fault) => (end_of_migration(fault), region),
        Ok(_) => {
            let end = write_words(alloc, &region, image.kinds.as_slice());
            (end, region)
        }
    }
}

fn migrate_and_restart<D: Device>(alloc: Global, image: &Image, stop: Stop, region: D) -> (Ended, D)
    requires { IsWritable image.now.kinds image.now.words }
    ensures { IsMigrationOfImage (Some stop) image.now (D.cells region) (D.counts region) (D.cells result.1) (D.counts result.1) result.0 }
{
    let (fault, mut region) = migrate_through_cut(alloc, image, stop, region);
    match fault {
        Some(fault) => (end_of_migration(fault), region),
        None => {
            region.restart(stop.pick);
            let end = write_words(alloc, &region, image.kinds.as_slice());
            (end, region)
        }
    }
}

/// Migrates a device that stops behind as many events as are asked for. It answers the fault for which there is nothing to restart.
fn migrate_through_cut<D: Device>(
    alloc: Global,
    image: &Image,
    stop: Stop,
    region: D,
) -> (Option<RecoverFault>, D)
    requires { IsWritable image.now.kinds image.now.words }
    ensures { IsComingTo stop image.now (D.cells region) (D.counts region) (D.cells result.1) (D.counts result.1) result.0 }
{
    let mut cut = Cut::new(region, stop.events);
    let migrated = migrate_image(alloc, image, &mut cut);
    let used_up = cut.used_up();
    let region = cut.into_inner();
    (fault_of_cut(migrated, used_up), region)
}

fn fault_of_cut(migrated: Result<u64, RecoverFault>, used_up: bool) -> Option<RecoverFault>
    ensures { result ≡ fault_of_cut migrated used_up }
{
    match migrated {
        Ok(_) => None,
        Err(RecoverFault::Stopped) => {
            if used_up {
                None
            } else {
                Some(RecoverFault::Stopped)
            }
        }
        Err(RecoverFault::Unsound(found)) => Some(RecoverFault::Unsound(found)),
        Err(RecoverFault::NoMemory) => Some(RecoverFault::NoMemory),
    }
}

fn end_of_migration(fault: RecoverFault) -> Ended
    ensures { result ≡ end_of_migration fault }
{
    match fault {
        RecoverFault::Unsound(found) => Ended::Unsound(found),
        RecoverFault::Stopped => Ended::Stopped,
        RecoverFault::NoMemory => Ended::NoMemory,
    }
}

/// Loads a device with an image and migrates it, where the image is sound and its `map` lines fit.
fn migrate_image<D: Device>(
    alloc: Global,
    image: &Image,
    region: &mut D,
) -> Result<u64, RecoverFault>
    requires { IsWritable image.now.kinds image.now.words }
    ensures { IsComing image.now (D.cells region.old) (D.counts region.old) (D.cells region.new) (D.counts region.new) result }
{
    match region.load(image.words.as_slice()) {
        Err(NoMemory) => Err(RecoverFault::NoMemory),
        Ok(()) => migrate_loaded(alloc, image, region),
    }
}

/// Migrates a device that has been loaded with an image, where the image is sound and its `map` lines fit.
fn migrate_loaded<D: Device>(
    alloc: Global,
    image: &Image,
    region: &mut D,
) -> Result<u64, RecoverFault>
    requires loaded { D.cells region.old ≡ loaded image.now.words }
    requires writable { IsWritable image.now.kinds image.now.words }
    ensures { (before : Region) (counts : Counts) → D.counts region.old ≡ since_load counts
        → IsComing image.now before counts (D.cells region.new) (D.counts region.new) result }
{
    match admit(alloc, &*region, image.kinds.as_slice()) {
        Err(refusal) => Err(RecoverFault::from(refusal)),
        Ok(read) => migrate_admitted(alloc, &read, image, region),
    }
}

/// Migrates a device that has been loaded with a sound image whose `map` lines fit.
fn migrate_admitted<D: Device>(
    alloc: Global,
    read: &SoundLog,
    image: &Image,
    region: &mut D,
) -> Result<u64, RecoverFault>
    requires loaded { D.cells region.old ≡ loaded image.now.words }
    requires admitted { IsAdmitted image.now }
    requires shape { layout_shape read.now.layout ≡ shape_of (words_of image.now) }
    requires records { IsLogRead read.now.layout read.now.records (words_of image.now) }
    ensures { (before : Region) (counts : Counts) → D.counts region.old ≡ since_load counts
        → IsComing image.now before counts (D.cells region.new) (D.counts region.new) result }
{
    match migrate_read(
        alloc,
        region,
        read.layout,
        read.records.as_slice(),
        image.kinds.as_slice(),
    ) {
        Err(fault) => Err(RecoverFault::from(fault)),
        Ok(events) => Ok(events),
    }
}

/// Tells the text of the words.
fn write_words<W: Look>(alloc: Global, words: &W, kinds: &[Kind]) -> Ended
    ensures { TellsWords kinds.now (W.words words.now) result }
{
    match write_image(alloc, words, kinds) {
        Err(NoMemory) => Ended::NoMemory,
        Ok(text) => Ended::Done(text),
    }
}
