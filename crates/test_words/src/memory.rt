ghost use Rattle.std.specs.Prelude.{◌≡◌, ◌≢◌, ℕ, ◌+◌, ◌*◌, ◌<◌, ◌≤◌, length, slice_index, nat_lt, IfOk, []};
ghost use Rattle.lane_traits.specs.Space.{Space};
ghost use Rattle.test_words.specs.Blocks.{AreOthers};

use lane_traits::Reads;
use persist_model::{List, NoMemory};
use std::alloc::{AllocError, Global};

/// The words of structure 0 in a vector, whose root block stands at 16. A word behind the last one can't be read.
#[derive(Drop)]
pub struct Memory {
    pub words: Vec<u64>,
}

impl Reads for Memory {
    ghost space = { λ m. record {
      land = record {
        heap = 16;
        structure = 0;
        owner = slice_index m.words.items;
        start = record { word = slice_index m.words.items; owner = slice_index m.words.items };
      };
      word = slice_index m.words.items;
      spare = [];
      writes = 0;
    } };

    ghost readable = { λ m a. nat_lt a (length m.words.items) };

    fn read(&mut self, a: u32) -> u64 {
        self.words[a as usize]
    }
}

/// The words of so many blocks from 16 on, each of them structure 0's, with 0 in all their data words.
pub fn owned_words(alloc: Global, blocks: u32) -> Result<Vec<u64>, AllocError>
    requires { blocks ≤ 64 }
    ensures size { IfOk result (λ words. length words.items ≡ 16 + 16 * blocks) }
    ensures owners { IfOk result (λ words. (k : ℕ) → k < blocks → slice_index words.items (16 + 16 * k) ≡ 1) }
    ensures others { IfOk result (λ words. (a : ℕ) → ((k : ℕ) → k < blocks → a ≢ 16 + 16 * k) → slice_index words.items a ≡ 0) }
{
    let mut words = vec![in alloc; 0; 16 + 16 * blocks as usize]?;
    for k in 0..blocks as usize {
        words[16 + 16 * k] = 1;
    }
    Ok(words)
}

/// The blocks of `owned_words` but the root, in order: those that a draft can take.
pub fn other_blocks(alloc: Global, blocks: u32) -> Result<List<u32>, NoMemory>
    requires few { blocks ≤ 64 }
    requires some { 1 ≤ blocks }
    ensures { IfOk result (λ found. AreOthers blocks found) }
{
    let mut found = List::new(alloc);
    for k in 1..blocks {
        found.push(16 + 16 * k).map_err(|_| NoMemory)?;
    }
    Ok(found)
}
