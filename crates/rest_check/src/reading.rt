// What keeps a sound image from being at rest.
ghost use Rattle.std.specs.Prelude.{◌≡◌, ◌⊎◌, ◌<◌, ◌≤◌, ℕ, [], Some, None, List, length, map, reverse, take, slice_index, IfSome, IfNone, IsNone};
ghost use Rattle.persist_model.specs.Shape.{shape_of};
ghost use Rattle.persist_model.specs.Sound.{HasChain};
ghost use Rattle.region_layout.specs.Layout.{layout_shape};
ghost use Rattle.bucket_log.specs.Scans.{record_of_placed};
ghost use Rattle.log_partition.specs.Merging.{AreLogsOf};
ghost use Rattle.recovery_run.specs.Reached.{IsQuiet, HasFewBuckets};
ghost use Rattle.rest_check.specs.Rest.{AsksAt, AreQuiet, IsFirstAsked, IsLeastGate, second_of, IsFirstSecond};

use atomic_list::next_bucket;
use bucket_log::Placed;
use log_partition::{PartView, out_address};
use persist_model::Look;
use persist_model::format::{TO_APPEND, TO_REMOVE};
use region_layout::Layout;

// The partition's first recovery word that asks for a repair.
fn asked_at<W: Look>(words: &W, p: u32) -> Option<u32>
    requires partition { p < 3 }
    requires long { 32 ≤ length (W.words words.now) }
    ensures some { IfSome result (λ a. AsksAt (slice_index (W.words words.now)) p a) }
    ensures none { IfNone result (IsQuiet p (slice_index (W.words words.now))) }
{
    let to_append = out_address(p, TO_APPEND);
    if words.word(to_append) != 0 {
        return Some(to_append);
    }
    let to_remove = out_address(p, TO_REMOVE);
    if words.word(to_remove) != 0 {
        return Some(to_remove);
    }
    None
}

/// The first recovery word that asks for a repair.
pub(crate) fn first_asked<W: Look>(words: &W, layout: Layout) -> Option<u32>
    requires { 32 ≤ length (W.words words.now) }
    ensures some { IfSome result (λ a. IsFirstAsked (layout_shape layout) (slice_index (W.words words.now)) a) }
    ensures none { IfNone result (AreQuiet layout.partitions (slice_index (W.words words.now))) }
{
    for p in 0..layout.partitions {
        if let Some(a) = asked_at(words, p) {
            return Some(a);
        }
    }
    None
}

// The lesser of the two addresses, where there are two.
fn lesser(least: Option<u32>, a: u32) -> u32
    ensures one { (result ≡ a) ⊎ (least ≡ Some result) }
    ensures first { result ≤ a }
    ensures second { IfSome least (λ b. result ≤ b) }
{
    match least {
        Some(b) => { if b < a { b } else { a } }
        None => a,
    }
}

/// The least address of an open gate.
pub(crate) fn first_open(records: &[Placed]) -> Option<u32>
    ensures { IsLeastGate (reverse (map record_of_placed records.now)) result }
{
    let mut least: Option<u32> = None;
    for placed in records {
        least = Some(lesser(least, placed.at));
    }
    least
}

// The second bucket of the partition's chain, or 0.
fn second_bucket<W: Look>(words: &W, layout: Layout, p: u32) -> u32
    requires partition { p < layout.partitions }
    requires logs { AreLogsOf layout (length (W.words words.now)) (slice_index (W.words words.now)) }
    ensures { (chain : List ℕ) → HasChain (layout_shape layout) (slice_index (W.words words.now)) p chain → second_of chain ≡ result }
{
    let view = PartView::new(words, layout, p);
    let first = next_bucket(&view, 0);
    if first == 0 {
        return 0;
    }
    next_bucket(&view, first)
}

/// The second bucket of the first chain that has one.
pub(crate) fn first_second<W: Look>(words: &W, layout: Layout) -> Option<u32>
    requires { AreLogsOf layout (length (W.words words.now)) (slice_index (W.words words.now)) }
    ensures some { IfSome result (λ a. IsFirstSecond (layout_shape layout) (slice_index (W.words words.now)) a) }
    ensures none { IfNone result ((p : ℕ) → p < layout.partitions → HasFewBuckets (layout_shape layout) p (slice_index (W.words words.now))) }
{
    for p in 0..layout.partitions {
        let second = second_bucket(words, layout, p);
        if second != 0 {
            return Some(second);
        }
    }
    None
}
