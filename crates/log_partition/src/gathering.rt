ghost use Rattle.std.specs.Prelude.{◌≡◌, IfOk, map, reverse, length, slice_index};
ghost use Rattle.persist_model.specs.Region.{Words};
ghost use Rattle.persist_model.specs.State.{State};
ghost use Rattle.persist_model.specs.Sound.{HasState};
ghost use Rattle.atomic_list.specs.Reads.{SameLog};
ghost use Rattle.region_layout.specs.Layout.{layout_shape};
ghost use Rattle.bucket_log.specs.Scans.{record_of_placed};
ghost use Rattle.log_partition.specs.Merging.{AreLogsOf};

use crate::view::PartView;
use bucket_log::{Placed, scan, sort_placed};
use persist_model::{List, Look, NoMemory};
use region_layout::Layout;
use std::alloc::Global;

/// The records of all partitions, ascending by number, then by address: read from the last they are the log, newest first.
/// They are the same in all words that have the same log. Nothing is said of words that have no state, as where a bucket that is
/// being taken out has open gates. Nothing changes where there is no memory.
pub fn merge<W: Look>(alloc: Global, words: &W, layout: Layout) -> Result<List<Placed>, NoMemory>
    requires { AreLogsOf layout (length (W.words words.now)) (slice_index (W.words words.now)) }
    ensures { (w : Words) (s : State) → SameLog (slice_index (W.words words.now)) w → HasState (layout_shape layout) w s
        → IfOk result (λ merged. reverse (map record_of_placed merged) ≡ s.log) }
{
    let mut found = Vec::new(alloc);
    for p in 0..layout.partitions {
        let view = PartView::new(words, layout, p);
        let part = scan(alloc, &view, layout)?;
        found.extend_from_slice(part.as_slice())?;
    }
    let sorted = sort_placed(found)?;
    Ok(List::from_vec(sorted))
}
