//! The address rule and the list rules of all partitions.
ghost use Rattle.std.specs.Prelude.{◌≡◌, ◌<◌, ◌≤◌, length, slice_index, OnOk, IfErr};
ghost use Rattle.persist_model.specs.Shape.{heap, words_of_shape, log_words};
ghost use Rattle.persist_model.specs.Faults.{IsListFault};
ghost use Rattle.region_layout.specs.Layout.{layout_shape};
ghost use Rattle.sound_check.specs.Faulty.{IfUnsound};
ghost use Rattle.sound_check.specs.Rules.{HasGoodLinks, HasBadLink, HasGoodList, HasBadList, EachPart};

use crate::addresses::try_addresses;
use crate::fault::CheckFault;
use crate::log_words::LogWords;
use crate::points::try_points;
use crate::walk::{chain, visit};
use log_partition::PartView;
use persist_model::Look;
use region_layout::Layout;
use std::alloc::Global;

// Tries the address rule of a partition, whose view the words are.
fn try_links_of<W: Look>(alloc: Global, words: &W, layout: Layout, p: u32) -> Result<(), CheckFault>
    requires part { p < layout.partitions }
    requires long { heap (layout_shape layout) ≤ length (W.words words.now) }
    ensures ok { OnOk result (HasGoodLinks (layout_shape layout) p (slice_index (W.words words.now))) }
    ensures fault { IfErr result (λ e. IfUnsound e (HasBadLink (layout_shape layout) p (slice_index (W.words words.now)))) }
{
    let visited = visit(alloc, words, layout, p)?;
    try_addresses(words, layout, p, visited.as_slice())?;
    Ok(())
}

// Tries the list rules of a partition, whose view the words are.
fn try_list_of<W: Look>(alloc: Global, words: &W, layout: Layout, p: u32) -> Result<(), CheckFault>
    requires part { p < layout.partitions }
    requires long { heap (layout_shape layout) ≤ length (W.words words.now) }
    requires links { HasGoodLinks (layout_shape layout) p (slice_index (W.words words.now)) }
    ensures ok { OnOk result (HasGoodList (layout_shape layout) p (slice_index (W.words words.now))) }
    ensures fault { IfErr result (λ e. IfUnsound e (HasBadList (layout_shape layout) p (slice_index (W.words words.now)))) }
{
    let visited = visit(alloc, words, layout, p)?;
    let chain = chain(alloc, words, visited.as_slice())?;
    try_points(words, layout, p, visited.as_slice(), chain.as_slice())?;
    Ok(())
}

// Tries the address rule of all partitions.
fn try_all_links<W: Look>(alloc: Global, words: &W, layout: Layout) -> Result<(), CheckFault>
    requires { heap (layout_shape layout) ≤ length (W.words words.now) }
    ensures ok { OnOk result (EachPart (layout_shape layout) (slice_index (W.words words.now)) HasGoodLinks) }
    ensures fault { IfErr result (λ e. IfUnsound e (IsListFault (layout_shape layout) (slice_index (W.words words.now)))) }
{
    for p in 0..layout.partitions {
        let view = PartView::new(words, layout, p);
        try_links_of(alloc, &view, layout, p)?;
    }
    Ok(())
}

// Tries the list rules of all partitions, whose words name buckets.
fn try_all_lists<W: Look>(alloc: Global, words: &W, layout: Layout) -> Result<(), CheckFault>
    requires long { heap (layout_shape layout) ≤ length (W.words words.now) }
    requires links { EachPart (layout_shape layout) (slice_index (W.words words.now)) HasGoodLinks }
    ensures ok { OnOk result (EachPart (layout_shape layout) (slice_index (W.words words.now)) HasGoodList) }
    ensures fault { IfErr result (λ e. IfUnsound e (IsListFault (layout_shape layout) (slice_index (W.words words.now)))) }
{
    for p in 0..layout.partitions {
        let view = PartView::new(words, layout, p);
        try_list_of(alloc, &view, layout, p)?;
    }
    Ok(())
}

/// Tries the address rule of all partitions, and then their list rules.
pub(crate) fn try_lists<W: Look>(alloc: Global, words: &W, layout: Layout) -> Result<(), CheckFault>
    requires { length (W.words words.now) ≡ words_of_shape (layout_shape layout) }
    ensures ok { OnOk result (EachPart (layout_shape layout) (log_words (layout_shape layout) (slice_index (W.words words.now))) HasGoodList) }
    ensures fault { IfErr result (λ e. IfUnsound e (IsListFault (layout_shape layout) (log_words (layout_shape layout) (slice_index (W.words words.now))))) }
{
    let log = LogWords::new(words, layout);
    try_all_links(alloc, &log, layout)?;
    try_all_lists(alloc, &log, layout)
}
