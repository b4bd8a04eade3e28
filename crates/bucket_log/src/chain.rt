// What is read along the chain.
ghost use Rattle.std.specs.Prelude.{◌≡◌, length, slice_index};
ghost use Rattle.persist_model.specs.Chain.{last_or};
ghost use Rattle.atomic_list.specs.Walk.{chain_of};
ghost use Rattle.region_layout.specs.Layout.{layout_shape};
ghost use Rattle.bucket_log.specs.Reads.{IsLogOf, count_to};

use atomic_list::next_bucket;
use persist_model::Look;
use persist_model::format::{TAIL, TO_APPEND, TO_REMOVE};
use region_layout::Layout;

/// The end of a chain: its last bucket, or 0, and how many there are.
#[derive(Clone, Copy, Debug, PartialEq, Eq)]
pub(crate) struct ChainEnd {
    pub last: u32,
    pub count: u32,
}

pub(crate) fn chain_end<W: Look>(words: &W, layout: Layout) -> ChainEnd
    requires { IsLogOf layout (length (W.words words.now)) (slice_index (W.words words.now)) }
    ensures last { result.last ≡ last_or 0 (chain_of (layout_shape layout) (slice_index (W.words words.now))) }
    ensures count { result.count ≡ length (chain_of (layout_shape layout) (slice_index (W.words words.now))) }
{
    let mut last = 0;
    let mut count = 0;
    for _ in 0..layout.buckets {
        let next = next_bucket(words, last);
        if next == 0 {
            break;
        }
        last = next;
        count += 1;
    }
    ChainEnd { last, count }
}

/// The chain's last bucket, or 0. Where no bucket is being put behind or taken out, one word names it.
pub(crate) fn last_bucket<W: Look>(words: &W, layout: Layout) -> u32
    requires { IsLogOf layout (length (W.words words.now)) (slice_index (W.words words.now)) }
    ensures { result ≡ last_or 0 (chain_of (layout_shape layout) (slice_index (W.words words.now))) }
{
    let appended = words.word(TO_APPEND);
    let removed = words.word(TO_REMOVE);
    if appended == 0 && removed == 0 {
        return words.word(TAIL) as u32;
    }
    chain_end(words, layout).last
}

/// How many of the chain's buckets stand at this address or before it.
pub(crate) fn count_buckets_to<W: Look>(words: &W, layout: Layout, bucket: u32) -> u32
    requires { IsLogOf layout (length (W.words words.now)) (slice_index (W.words words.now)) }
    ensures { result ≡ count_to bucket (chain_of (layout_shape layout) (slice_index (W.words words.now))) }
{
    let mut last = 0;
    let mut count = 0;
    for _ in 0..layout.buckets {
        let next = next_bucket(words, last);
        if next == 0 {
            break;
        }
        if next <= bucket {
            count += 1;
        }
        last = next;
    }
    count
}
