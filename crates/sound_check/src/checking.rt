//! The check of an image.
ghost use Rattle.std.specs.Prelude.{◌≡◌, ℕ, IfOk, OnOk, IfErr, IsErrAnd, map, reverse, length, slice_index};
ghost use Rattle.persist_model.specs.Shape.{shape_of};
ghost use Rattle.persist_model.specs.State.{State};
ghost use Rattle.persist_model.specs.Sound.{HasState, IsSound};
ghost use Rattle.persist_model.specs.Faults.{IsFirstFault};
ghost use Rattle.region_layout.specs.Layout.{layout_shape};
ghost use Rattle.bucket_log.specs.Scans.{record_of_placed};
ghost use Rattle.sound_check.specs.Faulty.{IfUnsound};
ghost use Rattle.sound_check.specs.declared.fault.CheckFault.TheVariants.{NoMemory as NoRoom};

use crate::fault::CheckFault;
use crate::list_rules::try_lists;
use crate::log_rules::try_log;
use bucket_log::Placed;
use log_partition::merge;
use persist_model::{List, Look};
use region_layout::{Layout, read_layout};
use std::alloc::Global;

/// A sound image's layout, and its records.
#[derive(Drop)]
pub struct SoundLog {
    pub layout: Layout,
    /// Ascending by number, then by address.
    pub records: List<Placed>,
}

/// As `check`, and gives the records of a sound image with its layout: read from the last they are its log, newest first.
pub fn read_sound<W: Look>(alloc: Global, words: &W) -> Result<SoundLog, CheckFault>
    ensures shape { IfOk result (λ read. layout_shape read.layout ≡ shape_of (slice_index (W.words words.now))) }
    ensures sound { OnOk result (IsSound (length (W.words words.now)) (slice_index (W.words words.now))) }
    ensures records { IfOk result (λ read. (s : State) → HasState (layout_shape read.layout) (slice_index (W.words words.now)) s
        → reverse (map record_of_placed read.records) ≡ s.log) }
    ensures unsound { IfErr result (λ e. IfUnsound e (IsFirstFault (length (W.words words.now)) (slice_index (W.words words.now)))) }
{
    let layout = read_layout(words)?;
    try_lists(alloc, words, layout)?;
    let records = merge(alloc, words, layout)?;
    try_log(alloc, words, layout, records.as_slice())?;
    Ok(SoundLog { layout, records })
}

/// Whether the words are a sound image, and its layout. Other words are refused with the first rule that they break, and the
/// address that it names. Words of any kind may be given: a word is read only after the one that leads to it was tried.
pub fn check<W: Look>(alloc: Global, words: &W) -> Result<Layout, CheckFault>
    ensures shape { IfOk result (λ layout. layout_shape layout ≡ shape_of (slice_index (W.words words.now))) }
    ensures sound { OnOk result (IsSound (length (W.words words.now)) (slice_index (W.words words.now))) }
    ensures unsound { IfErr result (λ e. IfUnsound e (IsFirstFault (length (W.words words.now)) (slice_index (W.words words.now)))) }
    ensures of_sound { IsSound (length (W.words words.now)) (slice_index (W.words words.now)) → IfErr result (λ e. e ≡ NoRoom) }
    ensures of_unsound { (fault a : ℕ) → IsFirstFault (length (W.words words.now)) (slice_index (W.words words.now)) fault a
        → IsErrAnd result (λ e. IfUnsound e (λ i b. (i ≡ fault) × (b ≡ a))) }
{
    let read = read_sound(alloc, words)?;
    Ok(read.layout)
}
