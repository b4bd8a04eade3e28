// Where the next record goes.
ghost use Rattle.std.specs.Prelude.{◌≡◌, ◌↔◌, IsTrue, ◌<◌, ◌≤◌, ◌*◌, ◌+◌, ◌^◌, ℕ, IfSome, List, length, slice_index};
ghost use Rattle.persist_model.specs.Chain.{last_or};
ghost use Rattle.persist_model.specs.Region.{Words};
ghost use Rattle.persist_model.specs.Shape.{Shape};
ghost use Rattle.persist_model.specs.Sound.{room_of};
ghost use Rattle.atomic_list.specs.Reads.{SameLog};
ghost use Rattle.atomic_list.specs.Walk.{chain_of};
ghost use Rattle.region_layout.specs.Layout.{layout_shape, IsPartition};
ghost use Rattle.bucket_log.specs.Places.{IsNextPlace};
ghost use Rattle.bucket_log.specs.Reads.{IsLogOf, IsLogOfPart, IsFirstClosed, IsInPart, HasAllTo, IsFirstPart, IsLeastOutside, IsUsedIn, IsFreshIn, IsNextIn};

use crate::append::Place;
use crate::chain::{chain_end, count_buckets_to, last_bucket};
use persist_model::Look;
use region_layout::{Buckets, Layout};

// The first closed cell of a bucket.
fn first_closed<W: Look>(words: &W, layout: Layout, bucket: u32) -> Option<u32>
    requires bucket { bucket + (8 + 8 * layout.cells) ≤ length (W.words words.now) }
    requires small { length (W.words words.now) < 2 ^ 31 }
    ensures { IsFirstClosed (slice_index (W.words words.now)) bucket layout.cells result }
{
    for cell in 0..layout.cells {
        if words.word(bucket + 8 + 8 * cell) == 0 {
            return Some(cell);
        }
    }
    None
}

// Whether the chain has all buckets of the part up to this number, and that one.
fn has_all_to<W: Look>(words: &W, layout: Layout, part: Buckets, j: u32) -> bool
    requires part { IsLogOfPart layout part (length (W.words words.now)) (slice_index (W.words words.now)) }
    requires number { IsInPart part j }
    ensures { IsTrue result ↔ HasAllTo (layout_shape layout) part (chain_of (layout_shape layout) (slice_index (W.words words.now))) j }
{
    let used = count_buckets_to(words, layout, layout.bucket(j));
    used == j + 1 - part.first
}

// Whether the chain's buckets are the first ones of the part, and not all of them.
fn is_first_part<W: Look>(words: &W, layout: Layout, part: Buckets, used: u32) -> bool
    requires part { IsLogOfPart layout part (length (W.words words.now)) (slice_index (W.words words.now)) }
    requires used { used ≡ length (chain_of (layout_shape layout) (slice_index (W.words words.now))) }
    ensures { IsTrue result → IsFirstPart (layout_shape layout) part (chain_of (layout_shape layout) (slice_index (W.words words.now))) used }
{
    if used >= part.count {
        return false;
    }
    if used == 0 {
        return true;
    }
    has_all_to(words, layout, part, part.first + used - 1)
}

// The least bucket of the part that isn't in the chain. It is looked for between low and high, a walk for each halving.
fn search_outside<W: Look>(words: &W, layout: Layout, part: Buckets) -> Option<u32>
    requires { IsLogOfPart layout part (length (W.words words.now)) (slice_index (W.words words.now)) }
    ensures { IsLeastOutside (layout_shape layout) part (chain_of (layout_shape layout) (slice_index (W.words words.now))) result }
{
    let mut low = part.first;
    let mut high = part.first + part.count;
    while low < high {
        let middle = low + (high - low) / 2;
        if has_all_to(words, layout, part, middle) {
            low = middle + 1;
        } else {
            high = middle;
        }
    }
    if low == part.first + part.count {
        return None;
    }
    Some(layout.bucket(low))
}

// The least bucket of the part that isn't in the chain. It is mostly the one behind as many as the chain has, and else looked for.
fn least_outside<W: Look>(words: &W, layout: Layout, part: Buckets) -> Option<u32>
    requires { IsLogOfPart layout part (length (W.words words.now)) (slice_index (W.words words.now)) }
    ensures { IsLeastOutside (layout_shape layout) part (chain_of (layout_shape layout) (slice_index (W.words words.now))) result }
{
    let used = chain_end(words, layout).count;
    if is_first_part(words, layout, part, used) {
        return Some(layout.bucket(part.first + used));
    }
    search_outside(words, layout, part)
}

// The first closed cell of the chain's last bucket.
fn used_place<W: Look>(words: &W, layout: Layout, tail: u32) -> Option<Place>
    requires list { IsLogOf layout (length (W.words words.now)) (slice_index (W.words words.now)) }
    requires tail { tail ≡ last_or 0 (chain_of (layout_shape layout) (slice_index (W.words words.now))) }
    ensures { IsUsedIn (slice_index (W.words words.now)) layout.cells tail result }
{
    if tail == 0 {
        return None;
    }
    let cell = first_closed(words, layout, tail)?;
    Some(Place {
        bucket: tail,
        cell,
        fresh: false,
        tail,
    })
}

// The first cell of the least bucket of the part that isn't in the chain.
fn fresh_place(least: Option<u32>, tail: u32) -> Option<Place>
    ensures { (shape : Shape) (part : Buckets) (chain : List ℕ) → IsLeastOutside shape part chain least → IsFreshIn shape part chain tail result }
{
    let bucket = least?;
    Some(Place {
        bucket,
        cell: 0,
        fresh: true,
        tail,
    })
}

fn read_place<W: Look>(words: &W, layout: Layout, part: Buckets) -> Option<Place>
    requires { IsLogOfPart layout part (length (W.words words.now)) (slice_index (W.words words.now)) }
    ensures { IsNextIn (layout_shape layout) part (slice_index (W.words words.now)) (chain_of (layout_shape layout) (slice_index (W.words words.now))) result }
{
    let tail = last_bucket(words, layout);
    match used_place(words, layout, tail) {
        Some(place) => Some(place),
        None => fresh_place(least_outside(words, layout, part), tail),
    }
}

fn read_place_with<W: Look>(
    words: &W,
    layout: Layout,
    part: Buckets,
    least: Option<u32>,
) -> Option<Place>
    requires log { IsLogOfPart layout part (length (W.words words.now)) (slice_index (W.words words.now)) }
    requires least { IsLeastOutside (layout_shape layout) part (chain_of (layout_shape layout) (slice_index (W.words words.now))) least }
    ensures { IsNextIn (layout_shape layout) part (slice_index (W.words words.now)) (chain_of (layout_shape layout) (slice_index (W.words words.now))) result }
{
    let tail = last_bucket(words, layout);
    match used_place(words, layout, tail) {
        Some(used) => Some(used),
        None => fresh_place(least, tail),
    }
}

/// The next place of a partition: the first closed cell of the chain's last bucket, and where that is full the first cell of the
/// least bucket of the part that isn't in the chain. There is none where the room is 0. It is the same in all words that have the same log.
pub fn place<W: Look>(words: &W, layout: Layout, part: Buckets) -> Option<Place>
    requires { IsLogOfPart layout part (length (W.words words.now)) (slice_index (W.words words.now)) }
    ensures none { (w : Words) (p : ℕ) → SameLog (slice_index (W.words words.now)) w → IsPartition (layout_shape layout) p part
        → (result ≡ None) ↔ (room_of (layout_shape layout) w p (chain_of (layout_shape layout) w) ≡ 0) }
    ensures next { (w : Words) (p : ℕ) → SameLog (slice_index (W.words words.now)) w → IsPartition (layout_shape layout) p part
        → IfSome result (λ place. IsNextPlace (layout_shape layout) p w (chain_of (layout_shape layout) w) place) }
{
    read_place(words, layout, part)
}

/// The next place of a partition, as `place` gives it, where the least bucket of the part that isn't in the chain is known already.
pub fn place_with<W: Look>(
    words: &W,
    layout: Layout,
    part: Buckets,
    least: Option<u32>,
) -> Option<Place>
    requires log { IsLogOfPart layout part (length (W.words words.now)) (slice_index (W.words words.now)) }
    requires least { IsLeastOutside (layout_shape layout) part (chain_of (layout_shape layout) (slice_index (W.words words.now))) least }
    ensures none { (w : Words) (p : ℕ) → SameLog (slice_index (W.words words.now)) w → IsPartition (layout_shape layout) p part
        → (result ≡ None) ↔ (room_of (layout_shape layout) w p (chain_of (layout_shape layout) w) ≡ 0) }
    ensures next { (w : Words) (p : ℕ) → SameLog (slice_index (W.words words.now)) w → IsPartition (layout_shape layout) p part
        → IfSome result (λ place. IsNextPlace (layout_shape layout) p w (chain_of (layout_shape layout) w) place) }
{
    read_place_with(words, layout, part, least)
}
