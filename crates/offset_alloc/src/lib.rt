//! Which blocks of a heap are free.
#![tactic(auto)]

ghost use Rattle.std.specs.Prelude.{◌≡◌, ◌^◌, ◌↔◌, ℕ, ◌<◌, ◌≤◌, [], ◌∷◌, ◌++◌, length, slice_get, slice_set, slice_index, Some, IsTrue, IsNone, OnOk, IfOk, IfSome};
ghost use Rattle.persist_model.specs.Shape.{words_of_shape};
ghost use Rattle.region_layout.specs.Layout.{layout_shape};
ghost use Rattle.offset_alloc.specs.Blocks.{standing_of, IsFree, IsLeastFree, NoneIsFreeBelow, IsLeastOrCount, AreAsOwned};

use persist_model::{Look, NoMemory};
use region_layout::Layout;
use std::alloc::{AllocError, Global};
use std::marker::Model;

/// Who has a block.
#[derive(Clone, Copy, Debug, PartialEq, Eq)]
pub enum Standing {
    /// It can be taken.
    Free,
    /// The structure with this number has it.
    Owned(u32),
    /// Nobody has it, and it can't be taken: it was given by a transaction whose records aren't closed yet, or its owner
    /// word names no structure.
    Pending,
}

/// The standing of each block of a heap.
#[derive(Drop)]
pub struct Blocks {
    standings: Vec<Standing>,
    // the least free block, or the number of blocks where none is free
    least: usize,
}

impl Model for Blocks {
    ghost use Rattle.std.specs.Prelude.{List};
    ghost use Rattle.offset_alloc.specs.declared.Standing.{Standing};
    ghost use Rattle.offset_alloc.specs.Blocks.{IsLeastOrCount};

    ghost Value = { List Standing };

    ghost view = { λ blocks. blocks.standings.items };

    ghost invariant = { λ blocks. IsLeastOrCount blocks.standings.items blocks.least };
}

/// What the owner word of a block says.
fn standing_at<W: Look>(words: &W, layout: Layout, k: u32) -> Standing
    requires long { length (W.words words.now) ≡ words_of_shape (layout_shape layout) }
    requires inside { k < layout.blocks }
    ensures { result ≡ standing_of (layout_shape layout) (slice_index (W.words words.now)) k }
{
    let owner = words.word(layout.block(k));
    if owner == 0 {
        return if k < layout.structures {
            Standing::Pending
        } else {
            Standing::Free
        };
    }
    if owner <= u64::from(layout.structures) {
        return Standing::Owned((owner - 1) as u32);
    }
    Standing::Pending
}

/// Puts a standing at the end.
fn put(standings: &mut Vec<Standing>, standing: Standing) -> Result<(), NoMemory>
    ensures { OnOk result (standings.new.items ≡ standings.old.items ++ standing ∷ []) }
{
    standings.push(standing).map_err(AllocError::from)?;
    Ok(())
}

/// The least free block, looked for from this one on, or the number of blocks where none is free.
fn next_free(standings: &[Standing], from: usize) -> usize
    requires within { from ≤ length standings.now }
    requires below { NoneIsFreeBelow standings.now from }
    ensures { IsLeastOrCount standings.now result }
{
    for k in from..standings.len() {
        if matches!(standings[k], Standing::Free) {
            return k;
        }
    }
    standings.len()
}

/// The blocks that stand so.
fn blocks_of(standings: Vec<Standing>) -> Blocks
    ensures { result ≡ standings.items }
{
    let least = next_free(&standings, 0);
    Blocks { standings, least }
}

impl Blocks {
    /// The standing of each block by its owner word. A root without an owner is pending for good.
    pub fn rebuild<W: Look>(alloc: Global, words: &W, layout: Layout) -> Result<Self, NoMemory>
        requires { length (W.words words.now) ≡ words_of_shape (layout_shape layout) }
        ensures all { IfOk result (λ blocks. length blocks ≡ layout.blocks) }
        ensures each { IfOk result (λ blocks. AreAsOwned (layout_shape layout) (slice_index (W.words words.now)) blocks) }
    {
        let mut standings = Vec::new(alloc);
        for k in 0..layout.blocks {
            put(&mut standings, standing_at(words, layout, k))?;
        }
        Ok(blocks_of(standings))
    }

    /// How many blocks there are.
    pub fn len(&self) -> usize
        ensures { result ≡ length self.now }
    {
        self.standings.len()
    }

    pub fn is_empty(&self) -> bool
        ensures { IsTrue result ↔ (self.now ≡ []) }
    {
        self.standings.is_empty()
    }

    /// The least free block, which is kept and not looked for.
    pub fn pick(&self) -> Option<u32>
        requires { length self.now < 2 ^ 32 }
        ensures least { IfSome result (IsLeastFree self.now) }
        ensures none { IsNone result ↔ ((k : ℕ) → IsFree self.now k → ⊥) }
    {
        if self.least < self.standings.len() {
            Some(self.least as u32)
        } else {
            None
        }
    }

    pub fn standing(&self, block: u32) -> Standing
        requires { block < length self.now }
        ensures { slice_get self.now block ≡ Some result }
    {
        self.standings[block as usize]
    }

    /// The block stands so from now on, and every other as before. Where the least free block is taken, the next one is
    /// looked for behind it.
    pub fn set(&mut self, block: u32, to: Standing)
        requires { block < length self.old }
        ensures { self.new ≡ slice_set self.old block to }
    {
        let block = block as usize;
        self.standings[block] = to;
        if matches!(to, Standing::Free) {
            if block < self.least {
                self.least = block;
            }
        } else if block == self.least {
            self.least = next_free(&self.standings, block + 1);
        }
    }
}

#[cfg(test)]
mod tests {
    use super::*;
    use std::test::Fail;

    #[test]
    fn the_least_free_block_is_picked(rt: HostRuntime) -> Result<(), Fail> {
        let alloc = rt.alloc();
        let standings = vec![in alloc;
            Standing::Owned(0),
            Standing::Pending,
            Standing::Free,
            Standing::Free,
        ]?;
        let mut blocks = blocks_of(standings);
        assert_eq!(rt; blocks.len(), 4);
        assert_eq!(rt; blocks.pick(), Some(2));
        blocks.set(2, Standing::Owned(1));
        assert_eq!(rt; blocks.standing(2), Standing::Owned(1));
        assert_eq!(rt; blocks.pick(), Some(3));
        blocks.set(3, Standing::Pending);
        assert_eq!(rt; blocks.pick(), None);
        Ok(())
    }

    #[test]
    fn a_freed_block_is_picked_if_it_is_below(rt: HostRuntime) -> Result<(), Fail> {
        let alloc = rt.alloc();
        let standings = vec![in alloc;
            Standing::Owned(0),
            Standing::Owned(0),
            Standing::Free,
            Standing::Pending,
            Standing::Pending,
        ]?;
        let mut blocks = blocks_of(standings);
        blocks.set(4, Standing::Free);
        assert_eq!(rt; blocks.pick(), Some(2));
        blocks.set(1, Standing::Free);
        assert_eq!(rt; blocks.pick(), Some(1));
        blocks.set(1, Standing::Owned(0));
        assert_eq!(rt; blocks.pick(), Some(2));
        blocks.set(2, Standing::Owned(0));
        assert_eq!(rt; blocks.pick(), Some(4));
        Ok(())
    }

    #[test]
    fn none_is_picked_until_one_is_freed(rt: HostRuntime) -> Result<(), Fail> {
        let alloc = rt.alloc();
        let standings = vec![in alloc; Standing::Owned(0), Standing::Free]?;
        let mut blocks = blocks_of(standings);
        blocks.set(1, Standing::Owned(0));
        assert_eq!(rt; blocks.pick(), None);
        blocks.set(0, Standing::Pending);
        assert_eq!(rt; blocks.pick(), None);
        blocks.set(1, Standing::Free);
        assert_eq!(rt; blocks.pick(), Some(1));
        Ok(())
    }
}
