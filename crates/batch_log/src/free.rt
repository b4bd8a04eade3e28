// The choice of the buckets that a group takes.
ghost use Rattle.std.specs.Prelude.{◌≡◌, ◌≤◌, ◌<◌, ◌+◌, ◌*◌, ◌^◌, [], ◌∷◌, ◌++◌, if◌then◌else◌, length, take, slice_index, vec_capacity};
ghost use Rattle.std.specs.Bool.{OnTrue, OnFalse};
ghost use Rattle.persist_model.specs.Chain.{last_or};
ghost use Rattle.atomic_list.specs.Walk.{chain_of};
ghost use Rattle.region_layout.specs.Layout.{layout_shape};
ghost use Rattle.bucket_log.specs.Reads.{IsLogOf, IsLogOfPart};
ghost use Rattle.batch_log.specs.FreeBuckets.{has_bucket, free_buckets, buckets_for, HasTaken};

use atomic_list::next_bucket;
use persist_model::Look;
use region_layout::{Buckets, Layout};

// Whether the chain has this bucket.
fn is_in_chain<W: Look>(words: &W, layout: Layout, bucket: u32) -> bool
    requires { IsLogOf layout (length (W.words words.now)) (slice_index (W.words words.now)) }
    ensures { result ≡ has_bucket (chain_of (layout_shape layout) (slice_index (W.words words.now))) bucket }
{
    let mut last = 0;
    for _ in 0..layout.buckets {
        let next = next_bucket(words, last);
        if next == 0 {
            return false;
        }
        if next == bucket {
            return true;
        }
        last = next;
    }
    false
}

// The chain's last bucket, or 0.
pub(crate) fn chain_last<W: Look>(words: &W, layout: Layout) -> u32
    requires { IsLogOf layout (length (W.words words.now)) (slice_index (W.words words.now)) }
    ensures { result ≡ last_or 0 (chain_of (layout_shape layout) (slice_index (W.words words.now))) }
{
    let mut last = 0;
    for _ in 0..layout.buckets {
        let next = next_bucket(words, last);
        if next == 0 {
            break;
        }
        last = next;
    }
    last
}

// Puts a bucket behind those found, where the chain doesn't have it.
fn keep_free<W: Look>(words: &W, layout: Layout, bucket: u32, found: &mut Vec<u32>)
    requires log { IsLogOf layout (length (W.words words.now)) (slice_index (W.words words.now)) }
    requires room { length found.old.items < vec_capacity found.old }
    ensures items { found.new.items ≡ found.old.items ++ (if has_bucket (chain_of (layout_shape layout) (slice_index (W.words words.now))) bucket then [] else bucket ∷ []) }
    ensures capacity { vec_capacity found.new ≡ vec_capacity found.old }
{
    if !is_in_chain(words, layout, bucket) {
        found.push_reserved(bucket);
    }
}

// Finds the least free buckets of the part, so many, or all where there are fewer.
pub(crate) fn find_free<W: Look>(
    words: &W,
    layout: Layout,
    part: Buckets,
    wanted: u64,
    found: &mut Vec<u32>,
) -> bool
    requires part { IsLogOfPart layout part (length (W.words words.now)) (slice_index (W.words words.now)) }
    requires empty { found.old.items ≡ [] }
    requires room { wanted ≤ vec_capacity found.old }
    ensures taken { OnTrue result (HasTaken wanted (free_buckets (layout_shape layout) part (chain_of (layout_shape layout) (slice_index (W.words words.now)))) found.new.items) }
    ensures fewer { OnFalse result (length (free_buckets (layout_shape layout) part (chain_of (layout_shape layout) (slice_index (W.words words.now)))) < wanted) }
    ensures capacity { vec_capacity found.new ≡ vec_capacity found.old }
{
    for j in part.first..part.first + part.count {
        if found.len() as u64 == wanted {
            return true;
        }
        keep_free(words, layout, layout.bucket(j), found);
    }
    found.len() as u64 == wanted
}

// How many buckets so many records take.
pub(crate) fn needed(layout: Layout, count: u64) -> u64
    requires { count + layout.cells ≤ 2 ^ 64 }
    ensures { result ≡ buckets_for layout.cells count }
{
    (count + (u64::from(layout.cells) - 1)) / u64::from(layout.cells)
}
