// The data words of the structure's blocks.
ghost use Rattle.std.specs.Prelude.{◌≡◌, ◌+◌, ◌<◌, ◌^◌, OnOk, OnErr, Err};
ghost use Rattle.lane_traits.specs.Space.{Space, IsOwn, IsDataWordOf, written};

use lane_traits::{Words, WordsRefusal};

// A data word of a block.
pub(crate) fn field<W: Words>(words: &mut W, block: u32, index: u32) -> u64
    requires own { IsOwn (W.space words.old).land block }
    requires above { 0 < index }
    requires below { index < 16 }
    ensures value { result ≡ (W.space words.old).word (block + index) }
    ensures same { W.space words.new ≡ W.space words.old }
{
    words.read(block + index)
}

// A data word that is a block's address or 0.
pub(crate) fn link_at<W: Words>(words: &mut W, at: u32) -> u32
    requires held { IsDataWordOf (W.space words.old).land at }
    requires fits { (W.space words.old).word at < 2 ^ 32 }
    ensures value { result ≡ (W.space words.old).word at }
    ensures same { W.space words.new ≡ W.space words.old }
{
    words.read(at) as u32
}

// The word is then this value.
pub(crate) fn set<W: Words>(
    words: &mut W,
    block: u32,
    index: u32,
    value: u64,
) -> Result<(), WordsRefusal>
    requires own { IsOwn (W.space words.old).land block }
    requires above { 0 < index }
    requires below { index < 16 }
    ensures made { OnOk result (W.space words.new ≡ written (block + index) value (W.space words.old)) }
    ensures refused { OnErr result (W.space words.new ≡ W.space words.old) }
    ensures memory { OnErr result (result ≡ Err WordsRefusal.NoMemory) }
{
    words.write(block + index, value)
}
