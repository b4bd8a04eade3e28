ghost use Rattle.std.specs.Prelude.{◌≡◌, ◌≢◌, ◌↔◌, ℕ, Bool, IsTrue, OnOk, OnErr, IfOk, Err, []};
ghost use Rattle.lane_traits.specs.Space.{Space, IsDataWordOf, IsOwn, IsTaken, AreSpare, root_block, written, given};

use persist_model::NoMemory;

/// Why the words of a structure weren't changed.
#[derive(Clone, Copy, Debug, PartialEq, Eq)]
pub enum WordsRefusal {
    /// No block can be taken.
    HeapFull = 1,
    NoMemory = 2,
}

impl From<NoMemory> for WordsRefusal {
    ghost use Rattle.std.specs.Prelude.{◌≡◌};
    ghost use Rattle.lane_traits.specs.declared.words.WordsRefusal.TheVariants.{NoMemory as Refused};

    ghost from_gives = { λ _ refusal. refusal ≡ Refused };

    fn from(_: NoMemory) -> Self {
        WordsRefusal::NoMemory
    }
}

/// A key of a map and its value.
#[derive(Clone, Copy, Debug, PartialEq, Eq)]
pub struct Pair {
    pub key: u64,
    pub value: u64,
}

/// Words that can be read.
pub trait Reads {
    /// The words, whose the blocks are, and which can be taken: none for a plain reader.
    ghost space: { Self → Space };

    /// The addresses that can be read.
    ghost readable: { Self → ℕ → Bool };

    /// The word at this address. Nothing changes.
    fn read(&mut self, a: u32) -> u64
        requires { IsTrue (readable self.old a) }
        ensures value { result ≡ (space self.old).word a }
        ensures same { space self.new ≡ space self.old }
        ensures readable { readable self.new ≡ readable self.old };
}

/// The words of one structure. A refusal changes nothing.
pub trait Words: Reads {
    /// The word is then this value. It is refused for want of memory alone.
    fn write(&mut self, a: u32, v: u64) -> Result<(), WordsRefusal>
        requires { IsDataWordOf (Self.space self.old).land a }
        ensures made { OnOk result (Self.space self.new ≡ written a v (Self.space self.old)) }
        ensures refused { OnErr result (Self.space self.new ≡ Self.space self.old) }
        ensures memory { OnErr result (result ≡ Err WordsRefusal.NoMemory) };

    /// One of the blocks that can be taken is then the structure's. Its data words are as they were.
    fn take(&mut self) -> Result<u32, WordsRefusal>
        ensures full { (result ≡ Err WordsRefusal.HeapFull) ↔ ((Self.space self.old).spare ≡ []) }
        ensures taken { IfOk result (λ b. IsTaken (Self.space self.old) b (Self.space self.new)) }
        ensures refused { OnErr result (Self.space self.new ≡ Self.space self.old) };

    /// The block, which isn't the root, is no longer the structure's, and can't be taken. It is refused for want of memory alone.
    fn give(&mut self, block: u32) -> Result<(), WordsRefusal>
        requires own { IsOwn (Self.space self.old).land block }
        requires not_root { block ≢ root_block (Self.space self.old).land }
        ensures given { OnOk result (Self.space self.new ≡ given block (Self.space self.old)) }
        ensures refused { OnErr result (Self.space self.new ≡ Self.space self.old) }
        ensures memory { OnErr result (result ≡ Err WordsRefusal.NoMemory) };

    /// The data words of the structure's blocks can be read.
    ghost own_readable: { (words : Self) (a : ℕ) → IsDataWordOf (Self.space words).land a → IsTrue (Self.readable words a) };

    /// What can be taken are blocks of nobody, each once.
    ghost spare_apart: { (words : Self) → AreSpare (Self.space words) };
}
