//! Recovers the image of a text on a device.
ghost use Rattle.std.specs.Prelude.{◌≡◌, ◌≢◌, ◌≤◌, length, slice_index, OnOk, IfOk, IfErr};
ghost use Rattle.persist_model.specs.Region.{Region, loaded};
ghost use Rattle.persist_model.specs.Shape.{heap, shape_of, words_of_shape};
ghost use Rattle.lane_traits.specs.Device.{Counts, since_load};
ghost use Rattle.region_layout.specs.Layout.{layout_shape};
ghost use Rattle.image_text.specs.Grammar.{IsTextOf};
ghost use Rattle.image_text.specs.Written.{IsWritable};
ghost use Rattle.sound_check.specs.Faulty.{IfUnsound};
ghost use Rattle.recovery_passes.specs.Reading.{IsLogRead};
ghost use Rattle.image_runner.specs.Ends.{words_of, IsAdmitted, IsRefusedBy, EachRecoversAs, IsEndOfImage, IsEndOf};
ghost use Rattle.image_runner.specs.Tells.{Tells, end_of_refusal, end_of_fault};

use crate::maps::{MapFault, read_maps};
use image_text::{Image, TextFault, read_image, write_image};
use lane_traits::Device;
use migration::wrong_line;
use persist_model::{List, Look, NoMemory};
use recovery_passes::{CheckFault, Recovered, SoundLog, Unfinished, read_sound, recover_read};
use region_layout::{ImageFault, Kind, Layout};
use rewind_script::{RecoveryReport, write_recovery};
use std::alloc::Global;

/// What is to be told of a recovery.
#[derive(Clone, Copy, Debug, PartialEq, Eq)]
pub enum Wanted {
    /// Its report, with the maps.
    Report,
    /// The image that it left.
    Image,
}

/// What the recovery of an image text came to.
#[derive(Drop)]
pub enum Ended {
    /// The first line that breaks the grammar of image texts. The device is as it was.
    Misread(u64),
    /// The image isn't sound, or its `map` lines don't fit. The device has its words, and no event was made.
    Unsound(ImageFault),
    /// The device stopped.
    Stopped,
    /// After recovery the structure with this root block is no map.
    Broken(u32),
    NoMemory,
    /// The job was done: what is to be told.
    Done(List<u8>),
}

/// Recovers the image that a text says.
///
/// The image is loaded first. Its words and then its `map` lines are tried before the first event, and the maps are read
/// behind the last.
pub fn recover_text<D: Device>(alloc: Global, text: &[u8], wanted: Wanted, region: &mut D) -> Ended
    ensures end { IsEndOf wanted text.now (D.cells region.old) (D.counts region.old) (D.cells region.new) (D.counts region.new) result }
    // Whatever it leaves of an image that it recovers or begins to recover can be recovered again, in this one's place.
    ensures recovered_again { (i : Image) → IsTextOf text.now i → IsAdmitted i → result ≢ Ended.NoMemory → EachRecoversAs i (D.cells region.new) }
{
    read_and_recover(alloc, text, wanted, region)
}

/// Recovers the image that a text says.
fn read_and_recover<D: Device>(alloc: Global, text: &[u8], wanted: Wanted, region: &mut D) -> Ended
    ensures { IsEndOf wanted text.now (D.cells region.old) (D.counts region.old) (D.cells region.new) (D.counts region.new) result }
{
    match read_image(alloc, text) {
        Err(TextFault::Line(line)) => Ended::Misread(line),
        Err(TextFault::NoMemory) => Ended::NoMemory,
        Ok(image) => recover_image(alloc, &image, wanted, region),
    }
}

fn recover_image<D: Device>(alloc: Global, image: &Image, wanted: Wanted, region: &mut D) -> Ended
    requires { IsWritable image.now.kinds image.now.words }
    ensures { IsEndOfImage wanted image.now (D.cells region.old) (D.counts region.old) (D.cells region.new) (D.counts region.new) result }
{
    match region.load(image.words.as_slice()) {
        Err(NoMemory) => Ended::NoMemory,
        Ok(()) => try_image(alloc, image, wanted, region),
    }
}

/// Recovers a device that has been loaded with an image, where the image is sound and its `map` lines fit.
fn try_image<D: Device>(alloc: Global, image: &Image, wanted: Wanted, region: &mut D) -> Ended
    requires loaded { D.cells region.old ≡ loaded image.now.words }
    requires writable { IsWritable image.now.kinds image.now.words }
    ensures { (before : Region) (counts : Counts) → D.counts region.old ≡ since_load counts
        → IsEndOfImage wanted image.now before counts (D.cells region.new) (D.counts region.new) result }
{
    match admit(alloc, &*region, image.kinds.as_slice()) {
        Err(refusal) => end_of_refusal(refusal),
        Ok(read) => recover_loaded(alloc, &read, image, wanted, region),
    }
}

fn end_of_refusal(refusal: CheckFault) -> Ended
    ensures { result ≡ end_of_refusal refusal }
{
    match refusal {
        CheckFault::Unsound(found) => Ended::Unsound(found),
        CheckFault::NoMemory => Ended::NoMemory,
    }
}

/// The layout and the records of a sound image whose `map` lines fit.
pub(crate) fn admit<W: Look>(
    alloc: Global,
    words: &W,
    kinds: &[Kind],
) -> Result<SoundLog, CheckFault>
    requires { length kinds.now ≤ 8 }
    ensures admitted { OnOk result (IsAdmitted (record { kinds = kinds.now; words = W.words words.now })) }
    ensures shape { IfOk result (λ read. layout_shape read.layout ≡ shape_of (slice_index (W.words words.now))) }
    ensures records { IfOk result (λ read. IsLogRead read.layout read.records (slice_index (W.words words.now))) }
    ensures refused { IfErr result (λ refusal. IfUnsound refusal (IsRefusedBy (record { kinds = kinds.now; words = W.words words.now }))) }
{
    match read_sound(alloc, words) {
        Err(refusal) => Err(refusal),
        Ok(read) => match wrong_line(words, kinds) {
            Some(found) => Err(CheckFault::Unsound(found)),
            None => Ok(read),
        },
    }
}

/// Recovers a device that has been loaded with a sound image, and tells what is wanted.
fn recover_loaded<D: Device>(
    alloc: Global,
    read: &SoundLog,
    image: &Image,
    wanted: Wanted,
    region: &mut D,
) -> Ended
    requires loaded { D.cells region.old ≡ loaded image.now.words }
    requires admitted { IsAdmitted image.now }
    requires shape { layout_shape read.now.layout ≡ shape_of (words_of image.now) }
    requires records { IsLogRead read.now.layout read.now.records (words_of image.now) }
    requires writable { IsWritable image.now.kinds image.now.words }
    ensures { (before : Region) (counts : Counts) → D.counts region.old ≡ since_load counts
        → IsEndOfImage wanted image.now before counts (D.cells region.new) (D.counts region.new) result }
{
    match recover_read(alloc, region, read.layout, read.records.as_slice()) {
        Err(fault) => end_of_fault(fault),
        Ok(done) => tell(
            alloc,
            read.layout,
            image.kinds.as_slice(),
            done,
            wanted,
            &*region,
        ),
    }
}

fn end_of_fault(fault: Unfinished) -> Ended
    ensures { result ≡ end_of_fault fault }
{
    match fault {
        Unfinished::Stopped => Ended::Stopped,
        Unfinished::NoMemory => Ended::NoMemory,
    }
}

/// Tells what is wanted of a recovery.
fn tell<W: Look>(
    alloc: Global,
    layout: Layout,
    kinds: &[Kind],
    done: Recovered,
    wanted: Wanted,
    words: &W,
) -> Ended
    requires long { length (W.words words.now) ≡ words_of_shape (layout_shape layout) }
    requires count { length kinds.now ≤ layout.structures }
    ensures { Tells wanted (heap (layout_shape layout)) kinds.now done (W.words words.now) result }
{
    match wanted {
        Wanted::Report => report(alloc, layout, kinds, done, words),
        Wanted::Image => match write_image(alloc, words, kinds) {
            Err(NoMemory) => Ended::NoMemory,
            Ok(text) => Ended::Done(text),
        },
    }
}

/// The report of a recovery, where each structure is a map.
fn report<W: Look>(
    alloc: Global,
    layout: Layout,
    kinds: &[Kind],
    done: Recovered,
    words: &W,
) -> Ended
    requires long { length (W.words words.now) ≡ words_of_shape (layout_shape layout) }
    requires count { length kinds.now ≤ layout.structures }
    ensures { Tells Wanted.Report (heap (layout_shape layout)) kinds.now done (W.words words.now) result }
{
    match read_maps(alloc, words, layout, kinds) {
        Err(MapFault::At(root)) => Ended::Broken(root),
        Err(MapFault::NoMemory) => Ended::NoMemory,
        Ok(maps) => {
            let report = RecoveryReport {
                events: done.events,
                winners: done.winners,
                losers: done.losers,
                maps,
            };
            match write_recovery(alloc, &report) {
                Err(NoMemory) => Ended::NoMemory,
                Ok(text) => Ended::Done(text),
            }
        }
    }
}
