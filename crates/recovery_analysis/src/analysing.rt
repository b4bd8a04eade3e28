// Which transactions were committed, and which run.
ghost use Rattle.std.specs.Prelude.{IfOk, length, slice_index};
ghost use Rattle.persist_model.specs.State.{State};
ghost use Rattle.persist_model.specs.Sound.{HasState};
ghost use Rattle.region_layout.specs.Layout.{layout_shape};
ghost use Rattle.recovery_analysis.specs.Conditions.{IsSoundImage};
ghost use Rattle.recovery_analysis.specs.Analyses.{IsAnalysisOf};

use crate::grouping::transactions;
use crate::picking::{losers_of, winners_of};
use log_partition::merge;
use persist_model::{List, Look, NoMemory};
use region_layout::Layout;
use std::alloc::Global;

/// The transactions of a log by their fate, ascending.
#[derive(Drop)]
pub struct Analysis {
    /// Those that were committed.
    pub winners: List<u64>,
    /// Those that have no end.
    pub losers: List<u64>,
}

/// The committed and the running transactions of a sound image. Nothing changes where there is no memory.
pub fn analyse<W: Look>(alloc: Global, words: &W, layout: Layout) -> Result<Analysis, NoMemory>
    requires { IsSoundImage layout (length (W.words words.now)) (slice_index (W.words words.now)) }
    ensures { (s : State) → HasState (layout_shape layout) (slice_index (W.words words.now)) s → IfOk result (IsAnalysisOf s.log) }
{
    let merged = merge(alloc, words, layout)?;
    let all = transactions(alloc, merged.as_slice())?;
    let winners = winners_of(alloc, all.as_slice())?;
    let losers = losers_of(alloc, all.as_slice())?;
    Ok(Analysis { winners, losers })
}
