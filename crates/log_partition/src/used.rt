ghost use Rattle.std.specs.Prelude.{◌≡◌, ℕ, ◌<◌, ◌≤◌, Bool, true, false, List, IfOk, length, slice_index, slice_index_or, slice_set};
ghost use Rattle.persist_model.specs.Shape.{bucket, IsBucketOf};
ghost use Rattle.atomic_list.specs.Walk.{chain_of};
ghost use Rattle.region_layout.specs.Layout.{layout_shape, IsPartition};
ghost use Rattle.region_layout.specs.declared.layout.Buckets.{Buckets};
ghost use Rattle.bucket_log.specs.Reads.{IsLogOf, IsLeastOutside};
ghost use Rattle.log_partition.specs.Merging.{AreLogsOf};
ghost use Rattle.log_partition.specs.Marks.{HasMark, HasPlace, AddsMarks, IsFirstFree};
ghost use Rattle.log_partition.specs.Used.{FitsBuckets, KnowsChains, chains_in, with_bucket};

use crate::view::PartView;
use atomic_list::next_bucket;
use persist_model::{Look, NoMemory};
use region_layout::Layout;
use std::alloc::Global;

/// Which buckets are in the chain of their partition: the least bucket outside a chain is then found without a walk.
#[derive(Drop)]
pub struct UsedBuckets {
    // A mark for each bucket of the region.
    used: Vec<bool>,
    // Of each partition the number from which its buckets are looked at. Once the table is read, those before it are marked.
    from: Vec<u32>,
}

// The number of the bucket at this address.
fn number_of(layout: Layout, at: u32) -> u32
    requires { 32 ≤ at }
    ensures { (j : ℕ) → at ≡ bucket (layout_shape layout) j → result ≡ j }
{
    (at - 32) / (8 + 8 * layout.cells)
}

// Takes all marks away.
fn clear(marks: &mut Vec<bool>)
    ensures long { length marks.new.items ≡ length marks.old.items }
    ensures none { (j : ℕ) → slice_index_or marks.new.items j false ≡ false }
{
    for i in 0..marks.len() {
        marks[i] = false;
    }
}

// Marks a bucket.
fn mark(marks: &mut Vec<bool>, layout: Layout, at: u32)
    requires { HasPlace (layout_shape layout) marks.old.items at }
    ensures { (j : ℕ) → at ≡ bucket (layout_shape layout) j → marks.new.items ≡ slice_set marks.old.items j true }
{
    let number = number_of(layout, at);
    marks[number as usize] = true;
}

// Marks the buckets of a chain.
fn mark_chain<W: Look>(marks: &mut Vec<bool>, words: &W, layout: Layout)
    requires log { IsLogOf layout (length (W.words words.now)) (slice_index (W.words words.now)) }
    requires marks { length marks.old.items ≡ layout.buckets }
    ensures { AddsMarks (layout_shape layout) (chain_of (layout_shape layout) (slice_index (W.words words.now))) marks.old.items marks.new.items }
{
    let mut last = 0;
    for _ in 0..layout.buckets {
        let next = next_bucket(words, last);
        if next == 0 {
            break;
        }
        mark(marks, layout, next);
        last = next;
    }
}

// The first number from here that has no mark.
fn first_free(marks: &Vec<bool>, from: u32, to: u32) -> u32
    requires { to ≤ length marks.now.items }
    ensures { IsFirstFree marks.now.items from to result }
{
    for j in from..to {
        if !marks[j as usize] {
            return j;
        }
    }
    to
}

impl UsedBuckets {
    /// Memory for a mark of each bucket of a region; the only error is want of memory. The table says nothing of a chain before it is read.
    pub fn with_memory(alloc: Global, layout: Layout) -> Result<UsedBuckets, NoMemory>
        ensures { IfOk result (λ table. FitsBuckets (layout_shape layout) table) }
    {
        let used = vec![in alloc; false; layout.buckets as usize]?;
        let from = vec![in alloc; 0; layout.partitions as usize]?;
        Ok(UsedBuckets { used, from })
    }

    /// Reads the chains of all partitions, whatever the table said before. It takes no memory.
    pub fn read<W: Look>(&mut self, words: &W, layout: Layout)
        requires logs { AreLogsOf layout (length (W.words words.now)) (slice_index (W.words words.now)) }
        requires fits { FitsBuckets (layout_shape layout) self.old }
        ensures { KnowsChains (layout_shape layout) self.new (chains_in (layout_shape layout) (slice_index (W.words words.now))) }
    {
        clear(&mut self.used);
        for p in 0..layout.partitions {
            let view = PartView::new(words, layout, p);
            mark_chain(&mut self.used, &view, layout);
            self.from[p as usize] = layout.part(p).first;
        }
    }

    /// The address of the least bucket of a partition that isn't in its chain, or none where all are. It goes on from where it stopped
    /// last, so that all calls together take time by the buckets.
    pub fn least(&mut self, layout: Layout, p: u32) -> Option<u32>
        requires part { p < layout.partitions }
        requires fits { FitsBuckets (layout_shape layout) self.old }
        ensures knows { (chains : ℕ → List ℕ) → KnowsChains (layout_shape layout) self.old chains → KnowsChains (layout_shape layout) self.new chains }
        ensures least { (chains : ℕ → List ℕ) (part : Buckets) → KnowsChains (layout_shape layout) self.old chains → IsPartition (layout_shape layout) p part
            → IsLeastOutside (layout_shape layout) part (chains p) result }
    {
        let part = layout.part(p);
        let end = part.first + part.count;
        let number = first_free(&self.used, self.from[p as usize], end);
        self.from[p as usize] = number;
        if number == end {
            return None;
        }
        Some(layout.bucket(number))
    }

    /// Takes a bucket, by its address, that is put behind the chain of its partition.
    pub fn add(&mut self, layout: Layout, p: u32, bucket: u32)
        requires part { p < layout.partitions }
        requires bucket { IsBucketOf (layout_shape layout) p bucket }
        requires fits { FitsBuckets (layout_shape layout) self.old }
        ensures { (chains : ℕ → List ℕ) → KnowsChains (layout_shape layout) self.old chains → KnowsChains (layout_shape layout) self.new (with_bucket p bucket chains) }
    {
        mark(&mut self.used, layout, bucket);
    }
}
