// A block becomes a node.
ghost use Rattle.std.specs.Prelude.{◌≡◌, ◌+◌, IfOk, OnOk};
ghost use Rattle.lane_traits.specs.Space.{Space, IsOwn, written};
ghost use Rattle.region_layout.specs.TreeMap.{Leaf, Node};
ghost use Rattle.persist_tree.specs.Changes.{HasParts, Hangs, IsRebuilt};

use crate::fields::{height_at, set};
use lane_traits::Words;
use persist_model::NoMemory;

// The links and the height of a node are then these.
fn store<W: Words>(
    words: &mut W,
    at: u32,
    left: u32,
    right: u32,
    height: u64,
) -> Result<(), NoMemory>
    requires { IsOwn (W.space words.old).land at }
    ensures { OnOk result (W.space words.new ≡ written (at + 5) height
        (written (at + 4) right (written (at + 3) left (W.space words.old)))) }
{
    set(words, at, 3, u64::from(left))?;
    set(words, at, 4, u64::from(right))?;
    set(words, at, 5, height)
}

/// The block, whose key and value stay, is then a node with these sides.
pub(crate) fn hang<W: Words>(words: &mut W, at: u32, left: u32, right: u32) -> Result<(), NoMemory>
    requires { HasParts (W.space words.old) at left right }
    ensures { OnOk result (Hangs (W.space words.old) (W.space words.new) at left right) }
{
    let on_left = height_at(words, left);
    let on_right = height_at(words, right);
    store(words, at, left, right, on_left.max(on_right) + 1)
}

/// A node without sides in a fresh block.
pub(crate) fn place<W: Words>(
    words: &mut W,
    fresh: u32,
    key: u64,
    value: u64,
) -> Result<(), NoMemory>
    requires { IsOwn (W.space words.old).land fresh }
    ensures { OnOk result (IsRebuilt (λ c. c ≡ fresh) 5 (W.space words.old) (W.space words.new) fresh
        (Node fresh key value Leaf Leaf)) }
{
    set(words, fresh, 1, key)?;
    set(words, fresh, 2, value)?;
    store(words, fresh, 0, 0, 1)
}
