ghost use Rattle.std.specs.Prelude.{◌≡◌, ◌↔◌, ◌≤◌, ◌+◌, ◌^◌, ℕ, IsTrue, [], length, slice_index};
ghost use Rattle.std.specs.Bool.{OnTrue, OnFalse};
ghost use Rattle.persist_model.specs.Region.{Words};
ghost use Rattle.atomic_list.specs.Reads.{SameLog};
ghost use Rattle.atomic_list.specs.Walk.{chain_of};
ghost use Rattle.region_layout.specs.Layout.{layout_shape};
ghost use Rattle.bucket_log.specs.Reads.{IsLogOfPart};
ghost use Rattle.batch_log.specs.FreeBuckets.{buckets_for, free_buckets, AreWithin, IsChosen};

use crate::chosen::Slots;
use persist_model::Look;
use region_layout::{Buckets, Layout};

/// Puts into `out` the least buckets of the part that aren't in the chain, ascending, as many as so many records take, and the chain's
/// last bucket. They are the same in all words that have the same log. False exactly where there are fewer free buckets; `out` is then
/// unchanged. It takes no memory.
pub fn slots<W: Look>(words: &W, layout: Layout, part: Buckets, count: u64, out: &mut Slots) -> bool
    requires part { IsLogOfPart layout part (length (W.words words.now)) (slice_index (W.words words.now)) }
    requires count { count + layout.cells ≤ 2 ^ 64 }
    requires empty { out.old.buckets ≡ [] }
    requires spare { buckets_for layout.cells count ≤ out.old.spare }
    ensures found { (w : Words) → SameLog (slice_index (W.words words.now)) w →
        IsTrue result ↔ (buckets_for layout.cells count ≤ length (free_buckets (layout_shape layout) part (chain_of (layout_shape layout) w))) }
    ensures chosen { (w : Words) → SameLog (slice_index (W.words words.now)) w →
        OnTrue result (IsChosen (layout_shape layout) part w (buckets_for layout.cells count) out.old out.new) }
    ensures within { OnTrue result (AreWithin out.new.buckets) }
    ensures refused { OnFalse result (out.new ≡ out.old) }
{
    out.choose(words, layout, part, count)
}
