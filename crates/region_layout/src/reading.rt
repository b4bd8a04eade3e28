//! The layout that the words of a region say.
ghost use Rattle.std.specs.Prelude.{◌≡◌, ℕ, ◌+◌, ◌*◌, ◌<◌, ◌≤◌, ◌↔◌, length, slice_index, IsTrue, IfOk, IfErr, OnOk, MatchOption};
ghost use Rattle.persist_model.specs.ImageRules.{rule_number};
ghost use Rattle.persist_model.specs.Shape.{shape_of, IsMagic, IsPolicy, IsCellCount, IsStructureCount, IsKind, IsShape, SECOND_MAGIC as second_magic};
ghost use Rattle.persist_model.specs.Faults.{IsShapeFault};
ghost use Rattle.region_layout.specs.Layout.{layout_shape, policy_number};
ghost use Rattle.region_layout.specs.Reading.{HasSizes, IsWrongKind, IsWrongSize};

use crate::layout::{Layout, Policy};
use persist_model::format::{
    BLOCKS, BUCKETS, CELLS, FEWEST_BLOCKS, FEWEST_BUCKETS, FIRST_KIND, HEADER_WORDS, MOST_BLOCKS,
    MOST_BUCKETS, PARTITIONS, POLICY, SECOND_MAGIC, STRUCTURES, is_magic,
};
use persist_model::{ImageRule, Look};

/// The first rule that words break, and the address that it names.
#[derive(Clone, Copy, Debug, PartialEq, Eq)]
pub struct ImageFault {
    pub rule: ImageRule,
    pub address: u32,
}

/// The layout that the header says, or which of the rules 1 to 4 is the first that fails.
pub fn read_layout<W: Look>(words: &W) -> Result<Layout, ImageFault>
    ensures shape { IfOk result (λ layout. layout_shape layout ≡ shape_of (slice_index (W.words words.now))) }
    ensures ok { OnOk result (IsShape (length (W.words words.now)) (slice_index (W.words words.now))) }
    ensures fault { IfErr result (λ found. IsShapeFault (length (W.words words.now)) (slice_index (W.words words.now)) (rule_number found.rule) found.address) }
{
    if !has_magic(words) {
        return Err(ImageFault {
            rule: ImageRule::Magic,
            address: 0,
        });
    }
    let Some(policy) = policy_of(words.word(POLICY)) else {
        return Err(ImageFault {
            rule: ImageRule::Policy,
            address: POLICY,
        });
    };
    if !is_cell_count(words.word(CELLS)) {
        return Err(ImageFault {
            rule: ImageRule::Cells,
            address: CELLS,
        });
    }
    if let Some(address) = wrong_size(words) {
        return Err(ImageFault {
            rule: ImageRule::Sizes,
            address,
        });
    }
    let layout = layout_of(words, policy);
    if words.size() != layout.size() {
        return Err(ImageFault {
            rule: ImageRule::Sizes,
            address: 0,
        });
    }
    Ok(layout)
}

fn has_magic<W: Look>(words: &W) -> bool
    ensures { IsTrue result ↔ ((32 ≤ length (W.words words.now)) × IsMagic (slice_index (W.words words.now) 0)) }
{
    words.size() >= HEADER_WORDS && is_magic(words.word(0))
}

fn policy_of(word: u64) -> Option<Policy>
    ensures { MatchOption result (IsPolicy word → ⊥) (λ policy. policy_number policy ≡ word) }
{
    match word {
        1 => Some(Policy::Force),
        2 => Some(Policy::NoForce),
        _ => None,
    }
}

fn is_cell_count(word: u64) -> bool
    ensures { IsTrue result ↔ IsCellCount word }
{
    word == 1 || word == 16
}

fn is_within(word: u64, low: u64, high: u64) -> bool
    ensures { IsTrue result ↔ ((low ≤ word) × (word ≤ high)) }
{
    low <= word && word <= high
}

/// The first word of the sizes and kinds that is wrong.
fn wrong_size<W: Look>(words: &W) -> Option<u32>
    requires { 32 ≤ length (W.words words.now) }
    ensures { MatchOption result (HasSizes (slice_index (W.words words.now))) (λ addr. IsWrongSize (slice_index (W.words words.now)) 4 addr) }
{
    if !is_within(words.word(BUCKETS), FEWEST_BUCKETS, MOST_BUCKETS) {
        return Some(BUCKETS);
    }
    if !is_within(words.word(BLOCKS), FEWEST_BLOCKS, MOST_BLOCKS) {
        return Some(BLOCKS);
    }
    if !is_within(words.word(STRUCTURES), 1, 8) {
        return Some(STRUCTURES);
    }
    if words.word(0) != SECOND_MAGIC {
        return None;
    }
    if !is_split(words.word(PARTITIONS), words.word(BUCKETS)) {
        return Some(PARTITIONS);
    }
    wrong_kind(words)
}

/// Whether so many partitions of a log may share so many buckets.
fn is_split(partitions: u64, buckets: u64) -> bool
    ensures { IsTrue result ↔ ((1 ≤ partitions) × (partitions ≤ 3) × (4 * partitions ≤ buckets)) }
{
    1 <= partitions && partitions <= 3 && 4 * partitions <= buckets
}

/// The first word that names no kind.
fn wrong_kind<W: Look>(words: &W) -> Option<u32>
    requires long { 32 ≤ length (W.words words.now) }
    requires structures { IsStructureCount (slice_index (W.words words.now) 5) }
    requires second { slice_index (W.words words.now) 0 ≡ second_magic }
    ensures { MatchOption result ((s : ℕ) → s < slice_index (W.words words.now) 5 → IsKind (slice_index (W.words words.now) (13 + s))) (λ addr. IsWrongKind (slice_index (W.words words.now)) 4 addr) }
{
    let structures = words.word(STRUCTURES) as u32;
    for s in 0..structures {
        if !is_within(words.word(FIRST_KIND + s), 1, 3) {
            return Some(FIRST_KIND + s);
        }
    }
    None
}

/// The layout of a header whose words are within their limits.
fn layout_of<W: Look>(words: &W, policy: Policy) -> Layout
    requires long { 32 ≤ length (W.words words.now) }
    requires magic { IsMagic (slice_index (W.words words.now) 0) }
    requires policy { policy_number policy ≡ slice_index (W.words words.now) 1 }
    requires cells { IsCellCount (slice_index (W.words words.now) 2) }
    requires sizes { HasSizes (slice_index (W.words words.now)) }
    ensures { layout_shape result ≡ shape_of (slice_index (W.words words.now)) }
{
    let is_second = words.word(0) == SECOND_MAGIC;
    Layout {
        policy,
        cells: words.word(CELLS) as u32,
        buckets: words.word(BUCKETS) as u32,
        blocks: words.word(BLOCKS) as u32,
        structures: words.word(STRUCTURES) as u32,
        format: if is_second { 2 } else { 1 },
        partitions: if is_second {
            words.word(PARTITIONS) as u32
        } else {
            1
        },
    }
}
