// A key is looked for.
ghost use Rattle.std.specs.Prelude.{◌≡◌, ◌+◌};
ghost use Rattle.lane_traits.specs.Space.{Space};
ghost use Rattle.persist_tree.specs.Changes.{HasTree, stored_height};
ghost use Rattle.persist_tree.specs.Below.{Finds};

use crate::fields::{field, sides_of};
use lane_traits::Words;

/// The block that has the key, or 0.
pub(crate) fn seek<W: Words>(words: &mut W, at: u32, key: u64) -> u32
    requires { HasTree (W.space words.old) at }
    ensures found { Finds (W.space words.old) at key result }
    ensures same { W.space words.new ≡ W.space words.old }
{
    if at == 0 {
        return 0;
    }
    let here = field(words, at, 1);
    if key == here {
        return at;
    }
    let sides = sides_of(words, at);
    if key < here {
        return seek(words, sides.left, key);
    }
    seek(words, sides.right, key)
}
