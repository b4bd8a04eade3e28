//! Devices on which worlds begin.
ghost use Rattle.std.specs.Prelude.{◌≡◌, IsTrue, slice_index};
ghost use Rattle.persist_model.specs.Region.{AreSettled};
ghost use Rattle.persist_model.specs.Shape.{shape_of};
ghost use Rattle.txn_core.specs.Starting.{IsForced};
ghost use Rattle.world_tests.specs.Small.{HasSizes};

use lane_traits::Device;
use persist_model::Look;
use persist_model::format::MAX_WORDS;
use std::alloc::Global;
use std::process::Abort;
use word_region::PlainCells;

/// Whether the policy is force.
fn is_force<W: Look>(words: &W) -> bool
    ensures { IsTrue result → IsForced (W.words words.now) }
{
    words.size() >= 2 && words.word(1) == 1
}

/// A device with these words, whose policy is force, that never stops of itself.
pub fn loaded(rt: &impl Abort, alloc: Global, words: &[u64]) -> PlainCells
    ensures settled { AreSettled (⟦<PlainCells as Device>⟧.cells result) }
    ensures force { IsForced (⟦<PlainCells as Look>⟧.words result) }
{
    let mut region = PlainCells::new(alloc, u64::MAX);
    assert!(rt; words.len() <= MAX_WORDS as usize);
    match region.load(words) {
        Ok(()) => {}
        Err(refused) => panic!(rt; "{refused:?}"),
    }
    if !is_force(&region) {
        panic!(rt; "not under force");
    }
    region
}

fn has_sizes<W: Look>(words: &W, heap: u32) -> bool
    ensures { IsTrue result → HasSizes heap (shape_of (slice_index (W.words words.now))) }
{
    if words.size() < 6 {
        return false;
    }
    let cells = words.word(2);
    let buckets = words.word(3);
    if cells > 16 || buckets > 1024 {
        return false;
    }
    if words.word(4) != 16 || words.word(5) != 2 {
        return false;
    }
    32 + buckets * (8 + 8 * cells) == u64::from(heap)
}

/// The region has two structures, and 16 blocks from this address on.
pub fn expect_sizes<W: Look>(words: &W, rt: &impl Abort, heap: u32)
    ensures { HasSizes heap (shape_of (slice_index (W.words words.now))) }
{
    if !has_sizes(words, heap) {
        panic!(rt; "other sizes");
    }
}
