//! What the walk visits in any words, and the chain that follows from it.
ghost use Rattle.std.specs.Prelude.{◌≡◌, ◌≢◌, ◌↔◌, ◌+◌, ◌*◌, ◌<◌, ◌≤◌, ◌^◌, ◌++◌, ◌∷◌, [], ℕ, List, IsTrue, IfOk, OnOk, MatchOption, length, slice_index};
ghost use Rattle.persist_model.specs.Shape.{heap, IsBucketOf};
ghost use Rattle.persist_model.specs.Records.{IsAmong};
ghost use Rattle.persist_model.specs.Chain.{AreBuckets, IsLink, last_or as last_of, TO_APPEND as APPENDED, without as without_it};
ghost use Rattle.persist_model.specs.Visit.{IsCutAt, IsVisit, chain_from};
ghost use Rattle.region_layout.specs.Layout.{layout_shape};
ghost use Rattle.sound_check.specs.Walks.{HasStopped, GoesTo, AreMarks};

use persist_model::format::{
    BUCKET_HEADER_WORDS, CELL_WORDS, HEAD, HEADER_WORDS, LAST_TAIL, TO_APPEND, TO_REMOVE,
};
use persist_model::{Look, NoMemory};
use region_layout::Layout;
use std::alloc::{AllocError, Global};
use std::collections::BTreeSet;

// The buckets that a walk visited, as they are asked for.
type Marks = BTreeSet<u64>;

/// Whether this is the address of one of the partition's buckets.
pub(crate) fn is_bucket(layout: Layout, p: u32, word: u64) -> bool
    requires { p < layout.partitions }
    ensures { IsTrue result ↔ IsBucketOf (layout_shape layout) p word }
{
    let first_word = u64::from(HEADER_WORDS);
    if word < first_word {
        return false;
    }
    let part = layout.part(p);
    let size = u64::from(BUCKET_HEADER_WORDS + CELL_WORDS * layout.cells);
    let past = word - first_word;
    let number = past / size;
    let within = u64::from(part.first) <= number && number < u64::from(part.first + part.count);
    within && number * size == past
}

/// Whether this is 0 or one of the partition's buckets.
pub(crate) fn is_link(layout: Layout, p: u32, word: u64) -> bool
    requires { p < layout.partitions }
    ensures { IsTrue result ↔ IsLink (IsBucketOf (layout_shape layout) p) word }
{
    word == 0 || is_bucket(layout, p, word)
}

/// The last of these, or else what is given.
pub(crate) fn last_or(buckets: &[u32], other: u32) -> u32
    ensures { result ≡ last_of other buckets.now }
{
    if buckets.is_empty() {
        return other;
    }
    buckets[buckets.len() - 1]
}

/// Whether this is one of these.
pub(crate) fn is_among(buckets: &[u32], b: u64) -> bool
    ensures { IsTrue result ↔ IsAmong buckets.now b }
{
    for x in buckets {
        if u64::from(*x) == b {
            return true;
        }
    }
    false
}

// Whether the walk is cut after this bucket.
fn is_cut<W: Look>(words: &W, last: u32) -> bool
    requires { 32 ≤ length (W.words words.now) }
    ensures { IsTrue result ↔ IsCutAt (slice_index (W.words words.now)) last }
{
    words.word(TO_APPEND) != 0 && words.word(LAST_TAIL) == u64::from(last)
}

// Puts a bucket behind the others.
fn push(buckets: &mut Vec<u32>, b: u32) -> Result<(), NoMemory>
    ensures { OnOk result (buckets.new.items ≡ buckets.old.items ++ b ∷ []) }
{
    match buckets.push(b) {
        Ok(()) => Ok(()),
        Err(refused) => Err(AllocError::from(refused).into()),
    }
}

// Whether a bucket is marked.
fn is_marked(marks: &Marks, b: u64) -> bool
    ensures { (visited : List ℕ) → AreMarks marks.now visited → IsTrue result ↔ IsAmong visited b }
{
    marks.contains(&b)
}

// Marks a bucket.
fn mark(marks: &mut Marks, b: u32) -> Result<(), AllocError>
    ensures { OnOk result ((visited : List ℕ) → AreMarks marks.old visited → AreMarks marks.new (visited ++ b ∷ [])) }
{
    marks.insert(u64::from(b))?;
    Ok(())
}

// The bucket to which the walk goes on behind those that it visited, or none where it stops.
fn next_visit<W: Look>(
    words: &W,
    layout: Layout,
    p: u32,
    visited: &[u32],
    marks: &Marks,
) -> Option<u32>
    requires part { p < layout.partitions }
    requires long { heap (layout_shape layout) ≤ length (W.words words.now) }
    requires buckets { AreBuckets (IsBucketOf (layout_shape layout) p) visited.now }
    requires marks { AreMarks marks.now visited.now }
    ensures { MatchOption result
        (HasStopped (IsBucketOf (layout_shape layout) p) (slice_index (W.words words.now)) visited.now)
        (λ b. GoesTo (IsBucketOf (layout_shape layout) p) (slice_index (W.words words.now)) visited.now b) }
{
    if is_cut(words, last_or(visited, 0)) {
        return None;
    }
    let link = words.word(last_or(visited, HEAD));
    if !is_bucket(layout, p, link) || is_marked(marks, link) {
        return None;
    }
    Some(link as u32)
}

/// The buckets that the walk visits, in order.
pub(crate) fn visit<W: Look>(
    alloc: Global,
    words: &W,
    layout: Layout,
    p: u32,
) -> Result<Vec<u32>, NoMemory>
    requires part { p < layout.partitions }
    requires long { heap (layout_shape layout) ≤ length (W.words words.now) }
    ensures { IfOk result (λ visited. IsVisit (IsBucketOf (layout_shape layout) p) (slice_index (W.words words.now)) visited.items) }
{
    let mut visited = Vec::new(alloc);
    let mut marks = BTreeSet::new(alloc);
    while let Some(b) = next_visit(words, layout, p, visited.as_slice(), &marks) {
        push(&mut visited, b)?;
        mark(&mut marks, b)?;
    }
    Ok(visited)
}

// These without a bucket.
fn without(alloc: Global, b: u64, walk: &[u32]) -> Result<Vec<u32>, AllocError>
    ensures { IfOk result (λ kept. kept.items ≡ without_it b walk.now) }
{
    walk.iter()
        .copied()
        .filter(|x| u64::from(*x) != b)
        .collect(alloc)
}

/// The chain that follows from what was visited.
pub(crate) fn chain<W: Look>(
    alloc: Global,
    words: &W,
    visited: &[u32],
) -> Result<Vec<u32>, NoMemory>
    requires long { 32 ≤ length (W.words words.now) }
    requires fits { slice_index (W.words words.now) APPENDED < 2 ^ 32 }
    ensures { IfOk result (λ chain. chain.items ≡ chain_from (slice_index (W.words words.now)) visited.now) }
{
    let mut walk = Vec::new(alloc);
    walk.extend_from_slice(visited)?;
    let appended = words.word(TO_APPEND) as u32;
    if appended != 0 {
        push(&mut walk, appended)?;
    }
    let chain = without(alloc, words.word(TO_REMOVE), walk.as_slice())?;
    Ok(chain)
}
