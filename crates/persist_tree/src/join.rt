// A node is put right.
ghost use Rattle.std.specs.Prelude.{◌≡◌, ◌+◌, ◌<◌, IfOk};
ghost use Rattle.lane_traits.specs.Space.{Space};
ghost use Rattle.persist_tree.specs.Trees.{joined};
ghost use Rattle.persist_tree.specs.Changes.{HasParts, Builds};

use crate::fields::height_at;
use crate::hang::hang;
use crate::turn::{lower_left, lower_right};
use lane_traits::Words;
use persist_model::NoMemory;

/// The block is then a node of these trees, turned where one of them is higher by two. The answer is the topmost block.
pub(crate) fn join<W: Words>(words: &mut W, at: u32, left: u32, right: u32) -> Result<u32, NoMemory>
    requires { HasParts (W.space words.old) at left right }
    ensures { IfOk result (λ link. Builds joined 9 (W.space words.old) (W.space words.new) at left right link) }
{
    let on_left = height_at(words, left);
    let on_right = height_at(words, right);
    if on_right + 1 < on_left {
        return lower_left(words, at, left, right);
    }
    if on_left + 1 < on_right {
        return lower_right(words, at, left, right);
    }
    hang(words, at, left, right)?;
    Ok(at)
}
