// Blocks of a structure, each claimed once.
ghost use Rattle.std.specs.Prelude.{◌≡◌, ◌≢◌, ℕ, ◌+◌, ◌*◌, ◌<◌, ◌≤◌, ◌^◌, Bool, false, true, IsTrue, IfOk, MatchOption, length, vec_len, slice_index, slice_index_or};
ghost use Rattle.lane_traits.specs.Space.{IsOwn};
ghost use Rattle.persist_hash.specs.Reading.{IsHeap, land_in, AreMarks, with_block, with_link};

use persist_model::Look;
use std::alloc::{AllocError, Global};

/// Where the blocks of a heap are, and a structure.
#[derive(Clone, Copy)]
pub(crate) struct Blocks {
    pub heap: u32,
    pub count: u32,
    pub structure: u32,
}

impl Blocks {
    // The number of the block at this address.
    fn number_of(&self, at: u64) -> Option<u32>
        requires { self.now.heap + 16 * self.now.count < 2 ^ 32 }
        ensures { MatchOption result ((k : ℕ) → k < self.now.count → at ≢ self.now.heap + 16 * k)
            (λ k. (k < self.now.count) × (at ≡ self.now.heap + 16 * k)) }
    {
        let heap = u64::from(self.heap);
        if at < heap || (at - heap) % 16 != 0 {
            return None;
        }
        let number = (at - heap) / 16;
        if number < u64::from(self.count) {
            Some(number as u32)
        } else {
            None
        }
    }
}

// No block is claimed.
pub(crate) fn unclaimed(alloc: Global, count: u32) -> Result<Vec<bool>, AllocError>
    ensures long { IfOk result (λ marks. vec_len marks ≡ count) }
    ensures none { IfOk result (λ marks. (k : ℕ) → slice_index_or marks.items k false ≡ false) }
{
    vec![in alloc; false; count as usize]
}

// Claims a block of the structure that isn't claimed yet.
pub(crate) fn claim<L: Look>(words: &L, blocks: &Blocks, marks: &mut [bool], at: u64) -> bool
    requires heap { IsHeap (L.words words.now) blocks.now.heap blocks.now.count }
    requires long { length marks.old ≡ blocks.now.count }
    ensures own { IsTrue result → IsOwn (land_in (L.words words.now) blocks.now.heap blocks.now.structure) at }
    ensures claimed { IsTrue result → (test : ℕ → Bool) → AreMarks blocks.now.heap marks.old test
        → (test at ≡ false) × AreMarks blocks.now.heap marks.new (with_block at test) }
    ensures refused { result ≡ false → (test : ℕ → Bool) → AreMarks blocks.now.heap marks.old test
        → IsOwn (land_in (L.words words.now) blocks.now.heap blocks.now.structure) at → test at ≡ true }
{
    let Some(number) = blocks.number_of(at) else {
        return false;
    };
    if words.word(blocks.heap + 16 * number) != u64::from(blocks.structure) + 1 {
        return false;
    }
    let place = number as usize;
    if marks[place] {
        return false;
    }
    marks[place] = true;
    true
}

// Claims what a link leads to, if it isn't 0.
pub(crate) fn claim_link<L: Look>(words: &L, blocks: &Blocks, marks: &mut [bool], link: u64) -> bool
    requires heap { IsHeap (L.words words.now) blocks.now.heap blocks.now.count }
    requires long { length marks.old ≡ blocks.now.count }
    ensures own { IsTrue result → link ≢ 0 → IsOwn (land_in (L.words words.now) blocks.now.heap blocks.now.structure) link }
    ensures fresh { IsTrue result → link ≢ 0 → (test : ℕ → Bool) → AreMarks blocks.now.heap marks.old test → test link ≡ false }
    ensures claimed { IsTrue result → (test : ℕ → Bool) → AreMarks blocks.now.heap marks.old test
        → AreMarks blocks.now.heap marks.new (with_link link test) }
    ensures some { result ≡ false → link ≢ 0 }
    ensures refused { result ≡ false → (test : ℕ → Bool) → AreMarks blocks.now.heap marks.old test
        → IsOwn (land_in (L.words words.now) blocks.now.heap blocks.now.structure) link → test link ≡ true }
{
    if link == 0 {
        return true;
    }
    claim(words, blocks, marks, link)
}

// Whether each block of the structure is claimed.
pub(crate) fn all_claimed<L: Look>(words: &L, blocks: &Blocks, marks: &[bool]) -> bool
    requires heap { IsHeap (L.words words.now) blocks.now.heap blocks.now.count }
    requires long { length marks.now ≡ blocks.now.count }
    ensures all { IsTrue result → (k : ℕ) → k < blocks.now.count
        → slice_index (L.words words.now) (blocks.now.heap + 16 * k) ≡ blocks.now.structure + 1 → slice_index_or marks.now k false ≡ true }
    ensures missed { result ≡ false → (k : ℕ) × (k < blocks.now.count)
        × (slice_index (L.words words.now) (blocks.now.heap + 16 * k) ≡ blocks.now.structure + 1) × (slice_index_or marks.now k false ≡ false) }
{
    for k in 0..blocks.count {
        let own = words.word(blocks.heap + 16 * k) == u64::from(blocks.structure) + 1;
        if own && !marks[k as usize] {
            return false;
        }
    }
    true
}
