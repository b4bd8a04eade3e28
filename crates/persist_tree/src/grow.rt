// A new node.
ghost use Rattle.std.specs.Prelude.{◌≡◌, ◌+◌, IfOk};
ghost use Rattle.lane_traits.specs.Space.{Space};
ghost use Rattle.persist_tree.specs.Changes.{stored_height};
ghost use Rattle.persist_tree.specs.Below.{CanGrow, Grows};

use crate::fields::{field, sides_of};
use crate::hang::place;
use crate::join::join;
use lane_traits::Words;
use persist_model::NoMemory;

/// A node in the fresh block, with a key that the tree here hasn't, comes into the tree. The answer is the topmost block.
pub(crate) fn grow<W: Words>(
    words: &mut W,
    at: u32,
    fresh: u32,
    key: u64,
    value: u64,
) -> Result<u32, NoMemory>
    requires { CanGrow (W.space words.old) at fresh key }
    ensures { IfOk result (λ link. Grows (W.space words.old) (W.space words.new) at fresh key value link) }
{
    if at == 0 {
        place(words, fresh, key, value)?;
        return Ok(fresh);
    }
    let here = field(words, at, 1);
    let sides = sides_of(words, at);
    if key < here {
        let left = grow(words, sides.left, fresh, key, value)?;
        return join(words, at, left, sides.right);
    }
    let right = grow(words, sides.right, fresh, key, value)?;
    join(words, at, sides.left, right)
}
