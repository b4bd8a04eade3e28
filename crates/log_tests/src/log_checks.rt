// Whether words hold a log at rest in one of their partitions, decided: the rules of its list, read word by word.
ghost use Rattle.std.specs.Prelude.{◌≡◌, ◌≢◌, ◌⊎◌, ℕ, ◌<◌, ◌≤◌, ◌+◌, map, length, slice_index, IsTrue, IfSome};
ghost use Rattle.persist_model.specs.Shape.{shape_of, bucket, heap, IsBucketOf, IsShape};
ghost use Rattle.persist_model.specs.Chain.{IsLink};
ghost use Rattle.atomic_list.specs.Rules.{IsAtRest};
ghost use Rattle.region_layout.specs.Layout.{layout_shape, IsPartition};
ghost use Rattle.bucket_log.specs.Reads.{IsLogOfPart};
ghost use Rattle.log_tests.specs.Rows.{IsRow};

use atomic_list::laws::rules_are_cases;
use persist_model::Look;
use persist_model::format::{HEAD, LAST_TAIL, TAIL, TO_APPEND, TO_REMOVE};
use region_layout::{Buckets, Layout, read_layout};

/// The layout of words that hold a log, and one of its partitions.
#[derive(Clone, Copy)]
pub struct Log {
    pub layout: Layout,
    pub part: Buckets,
}

// Where a row ends: the word that names what is behind, and the last bucket.
#[derive(Clone, Copy)]
struct RowEnd {
    link: u32,
    last: u32,
}

// Whether the bucket with this number is the row's next one, and has its place behind the link.
fn is_next<W: Look>(words: &W, layout: Layout, end: RowEnd, number: u32) -> bool
    requires number { number < layout.buckets }
    requires long { heap (layout_shape layout) ≤ length (W.words words.now) }
    requires link { end.link < heap (layout_shape layout) }
    ensures { IsTrue result → (end.link < bucket (layout_shape layout) number) × (slice_index (W.words words.now) end.link ≡ bucket (layout_shape layout) number)
        × (slice_index (W.words words.now) (bucket (layout_shape layout) number + 1) ≡ end.last) }
{
    let bucket = layout.bucket(number);
    if bucket <= end.link {
        return false;
    }
    if words.word(end.link) != u64::from(bucket) {
        return false;
    }
    words.word(bucket + 1) == u64::from(end.last)
}

// Follows the chain of the buckets with these numbers.
fn row_end<W: Look>(
    words: &W,
    layout: Layout,
    p: u32,
    part: Buckets,
    chain: &[u32],
) -> Option<RowEnd>
    requires below { p < layout.partitions }
    requires part { IsPartition (layout_shape layout) p part }
    requires long { heap (layout_shape layout) ≤ length (W.words words.now) }
    ensures row { IfSome result (λ end. IsRow (layout_shape layout) p (slice_index (W.words words.now)) (map (bucket (layout_shape layout)) chain.now) end.link end.last) }
    ensures inside { IfSome result (λ end. end.link < heap (layout_shape layout)) }
{
    let mut end = RowEnd {
        link: HEAD,
        last: 0,
    };
    for number in chain {
        if *number < part.first || *number - part.first >= part.count {
            return None;
        }
        if !is_next(words, layout, end, *number) {
            return None;
        }
        let bucket = layout.bucket(*number);
        end = RowEnd {
            link: bucket,
            last: bucket,
        };
    }
    Some(end)
}

// Whether the list is at rest with this chain. LAST_TAIL names nothing, or a bucket of the part.
fn is_at_rest<W: Look>(words: &W, layout: Layout, p: u32, part: Buckets, chain: &[u32]) -> bool
    requires below { p < layout.partitions }
    requires part { IsPartition (layout_shape layout) p part }
    requires long { heap (layout_shape layout) ≤ length (W.words words.now) }
    ensures { IsTrue result → IsAtRest (layout_shape layout) p (slice_index (W.words words.now)) (map (bucket (layout_shape layout)) chain.now) }
{
    let Some(end) = row_end(words, layout, p, part, chain) else {
        return false;
    };
    if words.word(end.link) != 0 {
        return false;
    }
    if words.word(TAIL) != u64::from(end.last) {
        return false;
    }
    if words.word(TO_APPEND) != 0 {
        return false;
    }
    if words.word(TO_REMOVE) != 0 {
        return false;
    }
    is_link(layout, part, words.word(LAST_TAIL))
}

// Whether the value is 0 or a bucket of the part.
fn is_link(layout: Layout, part: Buckets, value: u64) -> bool
    ensures { IsTrue result → (p : ℕ) → p < layout.partitions → IsPartition (layout_shape layout) p part → IsLink (IsBucketOf (layout_shape layout) p) value }
{
    if value == 0 {
        return true;
    }
    for number in 0..layout.buckets {
        if number >= part.first
            && number - part.first < part.count
            && u64::from(layout.bucket(number)) == value
        {
            return true;
        }
    }
    false
}

/// The log of a partition, where the words hold one at rest whose chain has the buckets with these numbers, in ascending order.
pub fn log_at_rest<W: Look>(words: &W, p: u32, chain: &[u32]) -> Option<Log>
    ensures { IfSome result (λ log. IsLogOfPart log.layout log.part (length (W.words words.now)) (slice_index (W.words words.now))) }
{
    rules_are_cases();
    let Ok(layout) = read_layout(words) else {
        return None;
    };
    if p >= layout.partitions {
        return None;
    }
    let part = layout.part(p);
    if !is_at_rest(words, layout, p, part, chain) {
        return None;
    }
    Some(Log { layout, part })
}
