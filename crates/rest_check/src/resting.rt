// The check of a region at rest.
ghost use Rattle.std.specs.Prelude.{◌≡◌, ◌<◌, ◌≤◌, ℕ, [], Some, None, length, slice_index, IfSome, IfNone, OnOk, IfOk, IfErr, map, reverse};
ghost use Rattle.persist_model.specs.Shape.{shape_of};
ghost use Rattle.persist_model.specs.State.{State};
ghost use Rattle.persist_model.specs.Sound.{HasState, IsSound};
ghost use Rattle.region_layout.specs.Layout.{layout_shape};
ghost use Rattle.bucket_log.specs.Scans.{record_of_placed};
ghost use Rattle.recovery_passes.specs.Recovered.{IsFinished};
ghost use Rattle.rest_check.specs.Rest.{IsUnrested, IsRestCause, rest_fault};

use crate::reading::{first_asked, first_open, first_second};
use bucket_log::Placed;
use persist_model::Look;
use region_layout::{ImageFault, Layout};
use sound_check::{CheckFault, read_sound};
use std::alloc::Global;

/// Why a world of lanes can't start on a region.
#[derive(Clone, Copy, Debug, PartialEq, Eq)]
pub enum RestFault {
    /// The words are no sound image: the first rule that fails, and its address.
    Unsound(ImageFault),
    /// The words are a sound image that isn't recovered. The address is that of the first recovery word that asks for a repair,
    /// else the least one of an open gate, else the second bucket of the first chain that has one.
    NotRecovered(u32),
    /// Want of memory. It says nothing of the words.
    NoMemory,
}

// What a refused check is to one of a region at rest.
fn refused(fault: CheckFault) -> RestFault
    ensures { result ≡ rest_fault fault }
{
    match fault {
        CheckFault::Unsound(found) => RestFault::Unsound(found),
        CheckFault::NoMemory => RestFault::NoMemory,
    }
}

// What keeps a sound image with these records from being at rest.
fn unrested<W: Look>(words: &W, layout: Layout, records: &[Placed]) -> Option<u32>
    requires sound { IsSound (length (W.words words.now)) (slice_index (W.words words.now)) }
    requires shape { layout_shape layout ≡ shape_of (slice_index (W.words words.now)) }
    requires records { (s : State) → HasState (layout_shape layout) (slice_index (W.words words.now)) s → reverse (map record_of_placed records.now) ≡ s.log }
    ensures some { IfSome result (λ a. IsUnrested (shape_of (slice_index (W.words words.now))) (slice_index (W.words words.now)) a) }
    ensures none { IfNone result (IsFinished (length (W.words words.now)) (slice_index (W.words words.now))) }
{
    match first_asked(words, layout) {
        Some(a) => return Some(a),
        None => {}
    }
    match first_open(records) {
        Some(a) => return Some(a),
        None => {}
    }
    first_second(words, layout)
}

/// Whether the words are a sound image that is recovered, and its layout: no gate is open, no recovery word asks for a repair, and
/// each chain has at most one bucket. Words of any kind may be given, and none is changed.
pub fn check_rest<W: Look>(alloc: Global, words: &W) -> Result<Layout, RestFault>
    ensures shape { IfOk result (λ layout. layout_shape layout ≡ shape_of (slice_index (W.words words.now))) }
    ensures finished { OnOk result (IsFinished (length (W.words words.now)) (slice_index (W.words words.now))) }
    ensures cause { IfErr result (IsRestCause (length (W.words words.now)) (slice_index (W.words words.now))) }
{
    let read = match read_sound(alloc, words) {
        Ok(read) => read,
        Err(fault) => return Err(refused(fault)),
    };
    match unrested(words, read.layout, read.records.as_slice()) {
        Some(a) => Err(RestFault::NotRecovered(a)),
        None => Ok(read.layout),
    }
}
