ghost use Rattle.std.specs.Prelude.{◌≡◌, ◌↔◌, ◌<◌, ◌≤◌, ◌*◌, ◌+◌, ◌^◌, IsTrue, length, slice_index};
ghost use Rattle.persist_model.specs.Region.{Words};
ghost use Rattle.persist_model.specs.Sound.{IsClosedBucket};
ghost use Rattle.atomic_list.specs.Reads.{SameLog};
ghost use Rattle.atomic_list.specs.Walk.{chain_of};
ghost use Rattle.region_layout.specs.Layout.{layout_shape};
ghost use Rattle.bucket_log.specs.Reads.{IsLogOf};
ghost use Rattle.log_clearing.specs.Dropping.{IsRemovalOf};

use atomic_list::{Remove, next_bucket};
use persist_model::Look;
use region_layout::Layout;

// Whether all gates of a bucket are closed.
fn is_closed<W: Look>(words: &W, layout: Layout, bucket: u32) -> bool
    requires bucket { bucket + (8 + 8 * layout.cells) ≤ length (W.words words.now) }
    requires small { length (W.words words.now) < 2 ^ 31 }
    ensures { IsTrue result ↔ IsClosedBucket (layout_shape layout) (slice_index (W.words words.now)) bucket }
{
    for cell in 0..layout.cells {
        if words.word(bucket + 8 + 8 * cell) != 0 {
            return false;
        }
    }
    true
}

// The next removal, of these words.
fn read_removal<W: Look>(words: &W, layout: Layout) -> Option<Remove>
    requires { IsLogOf layout (length (W.words words.now)) (slice_index (W.words words.now)) }
    ensures { IsRemovalOf (layout_shape layout) (slice_index (W.words words.now)) (chain_of (layout_shape layout) (slice_index (W.words words.now))) result }
{
    let mut prev = 0;
    for _ in 0..layout.buckets {
        let node = next_bucket(words, prev);
        if node == 0 {
            return None;
        }
        let next = next_bucket(words, node);
        if next == 0 {
            return None;
        }
        if is_closed(words, layout, node) {
            return Some(Remove { node, prev, next });
        }
        prev = node;
    }
    None
}

/// The removal of the first bucket of the chain that isn't the last and has only closed gates, or none where there is none.
/// It is the same in all words that have the same log.
pub fn removal<W: Look>(words: &W, layout: Layout) -> Option<Remove>
    requires { IsLogOf layout (length (W.words words.now)) (slice_index (W.words words.now)) }
    ensures { (w : Words) → SameLog (slice_index (W.words words.now)) w → IsRemovalOf (layout_shape layout) w (chain_of (layout_shape layout) w) result }
{
    read_removal(words, layout)
}
