//! The address rule: the words of a partition that name buckets.
ghost use Rattle.std.specs.Prelude.{◌≡◌, ◌<◌, ◌≤◌, length, slice_index, OnOk, IfErr};
ghost use Rattle.persist_model.specs.ImageRules.{rule_number};
ghost use Rattle.persist_model.specs.Shape.{heap, IsBucketOf};
ghost use Rattle.persist_model.specs.Chain.{AreBuckets, Each, IsLink};
ghost use Rattle.persist_model.specs.Visit.{address_words, links_at, links_of};
ghost use Rattle.region_layout.specs.Layout.{layout_shape};
ghost use Rattle.sound_check.specs.Rules.{AreLinks, IsWrongLink};

use crate::walk::is_link;
use log_partition::out_address;
use persist_model::format::{HEAD, LAST_TAIL, TAIL, TO_APPEND, TO_REMOVE};
use persist_model::{ImageRule, Look};
use region_layout::{ImageFault, Layout};

// Tries the words at these addresses, in order.
fn try_links<W: Look>(words: &W, layout: Layout, p: u32, ats: &[u32]) -> Result<(), ImageFault>
    requires part { p < layout.partitions }
    requires inside { Each (λ a. a < length (W.words words.now)) ats.now }
    ensures ok { OnOk result (AreLinks (layout_shape layout) p (slice_index (W.words words.now)) ats.now) }
    ensures fault { IfErr result (λ found. IsWrongLink (layout_shape layout) p (slice_index (W.words words.now)) ats.now (rule_number found.rule) found.address) }
{
    for a in ats {
        if !is_link(layout, p, words.word(*a)) {
            return Err(ImageFault {
                rule: ImageRule::Address,
                address: out_address(p, *a),
            });
        }
    }
    Ok(())
}

// Tries the links of the buckets that the walk visited.
fn try_visited<W: Look>(
    words: &W,
    layout: Layout,
    p: u32,
    visited: &[u32],
) -> Result<(), ImageFault>
    requires part { p < layout.partitions }
    requires long { heap (layout_shape layout) ≤ length (W.words words.now) }
    requires buckets { AreBuckets (IsBucketOf (layout_shape layout) p) visited.now }
    ensures ok { OnOk result (AreLinks (layout_shape layout) p (slice_index (W.words words.now)) (links_of visited.now)) }
    ensures fault { IfErr result (λ found. IsWrongLink (layout_shape layout) p (slice_index (W.words words.now)) (links_of visited.now) (rule_number found.rule) found.address) }
{
    for b in visited {
        try_links(words, layout, p, &[*b, *b + 1])?;
    }
    Ok(())
}

// Tries the links of the bucket that the word at this address names.
fn try_named<W: Look>(words: &W, layout: Layout, p: u32, at: u32) -> Result<(), ImageFault>
    requires part { p < layout.partitions }
    requires long { heap (layout_shape layout) ≤ length (W.words words.now) }
    requires inside { at < 32 }
    requires link { IsLink (IsBucketOf (layout_shape layout) p) (slice_index (W.words words.now) at) }
    ensures ok { OnOk result (AreLinks (layout_shape layout) p (slice_index (W.words words.now)) (links_at (slice_index (W.words words.now)) at)) }
    ensures fault { IfErr result (λ found. IsWrongLink (layout_shape layout) p (slice_index (W.words words.now)) (links_at (slice_index (W.words words.now)) at) (rule_number found.rule) found.address) }
{
    let named = words.word(at);
    if named == 0 {
        return Ok(());
    }
    let b = named as u32;
    try_links(words, layout, p, &[b, b + 1])
}

/// Tries the five list words, the links of the buckets that the walk visited, and those of the buckets that TO_APPEND and
/// TO_REMOVE name. Each word is read only after the one that leads to it was tried.
pub(crate) fn try_addresses<W: Look>(
    words: &W,
    layout: Layout,
    p: u32,
    visited: &[u32],
) -> Result<(), ImageFault>
    requires part { p < layout.partitions }
    requires long { heap (layout_shape layout) ≤ length (W.words words.now) }
    requires buckets { AreBuckets (IsBucketOf (layout_shape layout) p) visited.now }
    ensures ok { OnOk result (AreLinks (layout_shape layout) p (slice_index (W.words words.now)) (address_words (slice_index (W.words words.now)) visited.now)) }
    ensures fault { IfErr result (λ found. IsWrongLink (layout_shape layout) p (slice_index (W.words words.now)) (address_words (slice_index (W.words words.now)) visited.now) (rule_number found.rule) found.address) }
{
    try_links(
        words,
        layout,
        p,
        &[HEAD, TAIL, TO_APPEND, LAST_TAIL, TO_REMOVE],
    )?;
    try_visited(words, layout, p, visited)?;
    try_named(words, layout, p, TO_APPEND)?;
    try_named(words, layout, p, TO_REMOVE)
}
