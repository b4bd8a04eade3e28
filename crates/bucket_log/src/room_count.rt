// How many more records there is room for.
ghost use Rattle.std.specs.Prelude.{◌≡◌, ◌<◌, ◌≤◌, ◌*◌, ◌+◌, ◌^◌, ℕ, length, slice_index};
ghost use Rattle.persist_model.specs.Region.{Words};
ghost use Rattle.persist_model.specs.Sound.{closed_cells, room_of};
ghost use Rattle.atomic_list.specs.Reads.{SameLog};
ghost use Rattle.atomic_list.specs.Walk.{chain_of};
ghost use Rattle.region_layout.specs.Layout.{layout_shape, IsPartition};
ghost use Rattle.bucket_log.specs.Reads.{IsLogOfPart, room_in};

use crate::chain::chain_end;
use persist_model::Look;
use region_layout::{Buckets, Layout};

// How many cells of a bucket are closed.
fn closed_in<W: Look>(words: &W, layout: Layout, bucket: u32) -> u32
    requires bucket { bucket + (8 + 8 * layout.cells) ≤ length (W.words words.now) }
    requires small { length (W.words words.now) < 2 ^ 31 }
    ensures value { result ≡ closed_cells (slice_index (W.words words.now)) bucket layout.cells }
    ensures bound { result ≤ layout.cells }
{
    let mut closed = 0;
    for cell in 0..layout.cells {
        if words.word(bucket + 8 + 8 * cell) == 0 {
            closed += 1;
        }
    }
    closed
}

fn read_room<W: Look>(words: &W, layout: Layout, part: Buckets) -> u64
    requires { IsLogOfPart layout part (length (W.words words.now)) (slice_index (W.words words.now)) }
    ensures { result ≡ room_in layout.cells (slice_index (W.words words.now)) part (chain_of (layout_shape layout) (slice_index (W.words words.now))) }
{
    let end = chain_end(words, layout);
    let free = u64::from(layout.cells) * u64::from(part.count - end.count);
    if end.last == 0 {
        return free;
    }
    u64::from(closed_in(words, layout, end.last)) + free
}

/// How many records the partition has room for: the closed cells of the chain's last bucket, and all cells of each bucket
/// of the part that isn't in the chain. It is the same in all words that have the same log.
pub fn room<W: Look>(words: &W, layout: Layout, part: Buckets) -> u64
    requires { IsLogOfPart layout part (length (W.words words.now)) (slice_index (W.words words.now)) }
    ensures { (w : Words) (p : ℕ) → SameLog (slice_index (W.words words.now)) w → IsPartition (layout_shape layout) p part
        → result ≡ room_of (layout_shape layout) w p (chain_of (layout_shape layout) w) }
{
    read_room(words, layout, part)
}
