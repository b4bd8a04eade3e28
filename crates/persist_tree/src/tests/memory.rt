// An empty map in words of structure 0, and blocks that it can take.
ghost use Rattle.std.specs.Prelude.{◌≡◌, ◌+◌, ◌≤◌, IfOk};
ghost use Rattle.lane_traits.specs.Space.{root_block};
ghost use Rattle.persist_tree.specs.Calls.{HoldsMap};

use lane_traits::{Draft, Reads};
use persist_model::NoMemory;
use std::alloc::Global;
use test_words::{Memory, other_blocks, owned_words};

/// An empty map, and so many blocks that can be taken.
pub fn fresh(alloc: Global, spare: u32) -> Result<Draft<Memory>, NoMemory>
    requires { spare ≤ 63 }
    ensures map { IfOk result (λ draft. HoldsMap (⟦<Draft<Memory> as Reads>⟧.space draft) 16) }
    ensures root { IfOk result (λ draft. root_block (⟦<Draft<Memory> as Reads>⟧.space draft).land ≡ 16) }
{
    let words = owned_words(alloc, spare + 1)?;
    let others = other_blocks(alloc, spare + 1)?;
    Ok(Draft::new(alloc, Memory { words }, 0, others))
}
