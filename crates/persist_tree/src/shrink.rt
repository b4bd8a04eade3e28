// A node goes.
ghost use Rattle.std.specs.Prelude.{◌≡◌, ◌+◌, IfOk};
ghost use Rattle.lane_traits.specs.Space.{Space};
ghost use Rattle.persist_tree.specs.Changes.{stored_height};
ghost use Rattle.persist_tree.specs.Below.{LeadsFirst, CanDrop, Drops, CanMerge, Merges, CanShrink, Shrinks};

use crate::fields::{field, sides_of};
use crate::join::join;
use lane_traits::Words;
use persist_model::NoMemory;

// The block of the leftmost node.
fn leftmost<W: Words>(words: &mut W, at: u32) -> u32
    requires { CanDrop (W.space words.old) at }
    ensures leads { LeadsFirst (W.space words.old) at result }
    ensures same { W.space words.new ≡ W.space words.old }
{
    let sides = sides_of(words, at);
    if sides.left == 0 {
        return at;
    }
    leftmost(words, sides.left)
}

// The leftmost node goes. The answer is the topmost block.
fn drop_leftmost<W: Words>(words: &mut W, at: u32) -> Result<u32, NoMemory>
    requires { CanDrop (W.space words.old) at }
    ensures { IfOk result (λ link. Drops (W.space words.old) (W.space words.new) at link) }
{
    let sides = sides_of(words, at);
    if sides.left == 0 {
        return Ok(sides.right);
    }
    let left = drop_leftmost(words, sides.left)?;
    join(words, at, left, sides.right)
}

// The two sides of a node that goes come together: the leftmost node of the right one takes its place.
fn merge<W: Words>(words: &mut W, left: u32, right: u32) -> Result<u32, NoMemory>
    requires { CanMerge (W.space words.old) left right }
    ensures { IfOk result (λ link. Merges (W.space words.old) (W.space words.new) left right link) }
{
    if right == 0 {
        return Ok(left);
    }
    if left == 0 {
        return Ok(right);
    }
    let first = leftmost(words, right);
    let rest = drop_leftmost(words, right)?;
    join(words, first, left, rest)
}

/// The node with the key, which the tree here has, goes. The answer is the topmost block.
pub(crate) fn shrink<W: Words>(words: &mut W, at: u32, key: u64) -> Result<u32, NoMemory>
    requires { CanShrink (W.space words.old) at key }
    ensures { IfOk result (λ link. Shrinks (W.space words.old) (W.space words.new) at key link) }
{
    let here = field(words, at, 1);
    let sides = sides_of(words, at);
    if key == here {
        return merge(words, sides.left, sides.right);
    }
    if key < here {
        let left = shrink(words, sides.left, key)?;
        return join(words, at, left, sides.right);
    }
    let right = shrink(words, sides.right, key)?;
    join(words, at, sides.left, right)
}
