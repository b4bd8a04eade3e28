// The words of a node: 1 its key, 2 its value, 3 and 4 the links to the left and to the right, 5 its height.
ghost use Rattle.std.specs.Prelude.{◌≡◌, ◌+◌, ◌<◌, OnOk};
ghost use Rattle.lane_traits.specs.Space.{Space, IsOwn, written};
ghost use Rattle.persist_tree.specs.Changes.{HasNode, HasTree, stored_height};

use lane_traits::Words;
use persist_model::NoMemory;

// A data word of a block.
pub(crate) fn field<W: Words>(words: &mut W, block: u32, index: u32) -> u64
    requires own { IsOwn (W.space words.old).land block }
    requires above { 0 < index }
    requires below { index < 16 }
    ensures value { result ≡ (W.space words.old).word (block + index) }
    ensures same { W.space words.new ≡ W.space words.old }
{
    words.read(block + index)
}

// The word is then this value.
pub(crate) fn set<W: Words>(
    words: &mut W,
    block: u32,
    index: u32,
    value: u64,
) -> Result<(), NoMemory>
    requires own { IsOwn (W.space words.old).land block }
    requires above { 0 < index }
    requires below { index < 16 }
    ensures { OnOk result (W.space words.new ≡ written (block + index) value (W.space words.old)) }
{
    words.write(block + index, value).map_err(|_| NoMemory)
}

// What hangs on a node.
#[derive(Clone, Copy)]
pub(crate) struct Sides {
    pub left: u32,
    pub right: u32,
}

pub(crate) fn sides_of<W: Words>(words: &mut W, at: u32) -> Sides
    requires { HasNode (W.space words.old) at }
    ensures left { result.left ≡ (W.space words.old).word (at + 3) }
    ensures right { result.right ≡ (W.space words.old).word (at + 4) }
    ensures same { W.space words.new ≡ W.space words.old }
{
    let left = field(words, at, 3);
    let right = field(words, at, 4);
    Sides {
        left: left as u32,
        right: right as u32,
    }
}

// The height of the tree here.
pub(crate) fn height_at<W: Words>(words: &mut W, at: u32) -> u64
    requires { HasTree (W.space words.old) at }
    ensures value { result ≡ stored_height (W.space words.old).word at }
    ensures same { W.space words.new ≡ W.space words.old }
{
    if at == 0 { 0 } else { field(words, at, 5) }
}
