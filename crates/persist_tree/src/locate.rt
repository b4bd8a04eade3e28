// The tree below the root block.
ghost use Rattle.std.specs.Prelude.{◌≡◌, ◌↔◌, ◌+◌, ◌≤◌, [], Err, OnOk};
ghost use Rattle.lane_traits.specs.Space.{Space};
ghost use Rattle.persist_tree.specs.Calls.{HoldsMap};
ghost use Rattle.persist_tree.specs.Located.{Locates, CanInsert, Inserts};

use crate::fields::{field, set};
use crate::grow::grow;
use crate::search::seek;
use lane_traits::{Words, WordsRefusal};

// The topmost node of the tree, and the block that has a key, or 0.
#[derive(Clone, Copy)]
pub(crate) struct Place {
    pub top: u32,
    pub at: u32,
}

/// Where a key is.
pub(crate) fn locate<W: Words>(words: &mut W, root: u32, key: u64) -> Place
    requires { HoldsMap (W.space words.old) root }
    ensures top { result.top ≡ (W.space words.old).word (root + 1) }
    ensures at { Locates (W.space words.old) root key result.at }
    ensures same { W.space words.new ≡ W.space words.old }
{
    let top = field(words, root, 1) as u32;
    Place {
        top,
        at: seek(words, top, key),
    }
}

/// A key that the map hasn't comes into it, in a block that is taken first.
pub(crate) fn insert<W: Words>(
    words: &mut W,
    root: u32,
    top: u32,
    key: u64,
    value: u64,
) -> Result<(), WordsRefusal>
    requires map { CanInsert (W.space words.old) root key }
    requires top { top ≡ (W.space words.old).word (root + 1) }
    requires value { 1 ≤ value }
    ensures made { OnOk result (Inserts (W.space words.old) (W.space words.new) root key value) }
    ensures full { (result ≡ Err WordsRefusal.HeapFull) ↔ ((W.space words.old).spare ≡ []) }
    ensures full_unchanged { result ≡ Err WordsRefusal.HeapFull → W.space words.new ≡ W.space words.old }
{
    let fresh = words.take()?;
    let link = grow(words, top, fresh, key, value)?;
    set(words, root, 1, u64::from(link))?;
    Ok(())
}
