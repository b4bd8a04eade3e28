// A draft over words that are all 0: the root block stands at 16, and structure 0 owns so many blocks from there.
ghost use Rattle.std.specs.Prelude.{◌≡◌, ◌+◌, ◌*◌, ◌≤◌, true, nat_lt, if◌then◌else◌, IfOk, []};
ghost use Rattle.lane_traits.specs.Space.{Space, root_block};
ghost use Rattle.persist_hash.specs.Calls.{HasMap};

use lane_traits::{Draft, Reads};
use persist_model::NoMemory;
use std::alloc::Global;
use test_words::other_blocks;

#[derive(Clone, Copy)]
pub struct Blank {
    blocks: u32,
}

impl Reads for Blank {
    ghost space = { λ blank. record {
      land = record {
        heap = 16;
        structure = 0;
        owner = λ b. if nat_lt b (16 + 16 * blank.blocks) then 1 else 0;
        start = record { word = λ a. 0; owner = λ b. if nat_lt b (16 + 16 * blank.blocks) then 1 else 0 };
      };
      word = λ a. 0;
      spare = [];
      writes = 0;
    } };

    ghost readable = { λ blank a. true };

    fn read(&mut self, _a: u32) -> u64 {
        0
    }
}

/// An empty map, and so many blocks that can be taken.
pub fn fresh(alloc: Global, spare: u32) -> Result<Draft<Blank>, NoMemory>
    requires { spare ≤ 63 }
    ensures map { IfOk result (λ draft. HasMap (⟦<Draft<Blank> as Reads>⟧.space draft) 16) }
    ensures root { IfOk result (λ draft. root_block (⟦<Draft<Blank> as Reads>⟧.space draft).land ≡ 16) }
{
    let others = other_blocks(alloc, spare + 1)?;
    Ok(Draft::new(alloc, Blank { blocks: spare + 1 }, 0, others))
}
