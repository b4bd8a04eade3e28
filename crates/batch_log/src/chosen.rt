// The buckets that a group takes.
ghost use Rattle.std.specs.Prelude.{◌≡◌, ◌↔◌, ◌≤◌, ◌+◌, ◌^◌, ℕ, IsTrue, IfOk, [], length, slice_index};
ghost use Rattle.std.specs.Bool.{OnTrue, OnFalse};
ghost use Rattle.atomic_list.specs.Reads.{SameLog};
ghost use Rattle.atomic_list.specs.Walk.{chain_of};
ghost use Rattle.region_layout.specs.Layout.{layout_shape};
ghost use Rattle.bucket_log.specs.Reads.{IsLogOfPart};
ghost use Rattle.persist_model.specs.Region.{Words};
ghost use Rattle.batch_log.specs.FreeBuckets.{buckets_for, free_buckets, AreWithin, IsChosen};

use crate::free::{chain_last, find_free, needed};
use persist_model::{Look, NoMemory};
use region_layout::{Buckets, Layout};
use std::alloc::Global;
use std::marker::Model;

/// The buckets that a group takes, in order, and the chain's last bucket before it, or 0. Contracts also see how many more
/// buckets can be put in without memory.
#[derive(Drop)]
pub struct Slots {
    buckets: Vec<u32>,
    tail: u32,
}

impl Model for Slots {
    ghost use Rattle.std.specs.Prelude.{◌-◌, length, vec_capacity};
    ghost use Rattle.batch_log.specs.ChosenSlots.{ChosenSlots};

    ghost Value = { ChosenSlots };

    ghost view = { λ slots. record { buckets = slots.buckets.items; tail = slots.tail; spare = vec_capacity slots.buckets - length slots.buckets.items } };
}

impl Slots {
    /// No buckets, and room for at least so many. The only error is want of memory.
    pub fn new(alloc: Global, spare: u64) -> Result<Slots, NoMemory>
        ensures empty { IfOk result (λ slots. slots.buckets ≡ []) }
        ensures spare { IfOk result (λ slots. spare ≤ slots.spare) }
    {
        let mut buckets = Vec::new(alloc);
        buckets.reserve(spare as usize)?;
        Ok(Slots { buckets, tail: 0 })
    }

    pub fn buckets(&self) -> &[u32]
        ensures { result.now ≡ self.now.buckets }
    {
        self.buckets.as_slice()
    }

    pub fn tail(&self) -> u32
        ensures { result ≡ self.now.tail }
    {
        self.tail
    }

    /// Puts in the least free buckets of the part that so many records take, and the chain's last bucket. False exactly where there are
    /// fewer; nothing has changed then. It takes no memory.
    pub(crate) fn choose<W: Look>(
        &mut self,
        words: &W,
        layout: Layout,
        part: Buckets,
        count: u64,
    ) -> bool
        requires part { IsLogOfPart layout part (length (W.words words.now)) (slice_index (W.words words.now)) }
        requires count { count + layout.cells ≤ 2 ^ 64 }
        requires empty { self.old.buckets ≡ [] }
        requires spare { buckets_for layout.cells count ≤ self.old.spare }
        ensures found { (w : Words) → SameLog (slice_index (W.words words.now)) w →
            IsTrue result ↔ (buckets_for layout.cells count ≤ length (free_buckets (layout_shape layout) part (chain_of (layout_shape layout) w))) }
        ensures chosen { (w : Words) → SameLog (slice_index (W.words words.now)) w →
            OnTrue result (IsChosen (layout_shape layout) part w (buckets_for layout.cells count) self.old self.new) }
        ensures within { OnTrue result (AreWithin self.new.buckets) }
        ensures refused { OnFalse result (self.new ≡ self.old) }
    {
        let wanted = needed(layout, count);
        if !find_free(words, layout, part, wanted, &mut self.buckets) {
            self.buckets.clear();
            return false;
        }
        self.tail = chain_last(words, layout);
        true
    }
}
