// Where a key is.
ghost use Rattle.std.specs.Prelude.{◌≡◌, ◌≢◌, ◌⊎◌, ◌+◌, ◌*◌, ◌/◌, ◌%◌, ◌^◌, ◌<◌, IsTrue, false};
ghost use Rattle.lane_traits.specs.Space.{Space, IsOwn};
ghost use Rattle.region_layout.specs.HashMap.{Chains, chain_number, chain_word, IsHash};
ghost use Rattle.persist_hash.specs.Chains.{HasChain, IsFound, IsPlaceOf, HasHash};

use crate::fields::{field, link_at};
use lane_traits::Words;

/// The number of a key's chain.
pub(crate) fn chain_of(key: u64) -> u32
    ensures chain { result ≡ chain_number key }
    ensures below { result < 64 }
{
    (key.wrapping_mul(0x9E37_79B9_7F4A_7C15) >> 58) as u32
}

// Whether a search of the key goes on behind this node.
fn passes<W: Words>(words: &mut W, node: u32, key: u64) -> bool
    requires { node ≢ 0 → IsOwn (W.space words.old).land node }
    ensures on { IsTrue result → (node ≢ 0) × (key ≢ (W.space words.old).word (node + 1)) }
    ensures stops { result ≡ false → (node ≡ 0) ⊎ ((node ≢ 0) × ((W.space words.old).word (node + 1) ≡ key)) }
    ensures same { W.space words.new ≡ W.space words.old }
{
    if node == 0 {
        return false;
    }
    field(words, node, 1) != key
}

#[derive(Clone, Copy)]
pub(crate) struct Found {
    pub link: u32,
    pub node: u32,
}

// The first node with the key, or none, in the chain that a word links to, and the link to it.
pub(crate) fn seek<W: Words>(words: &mut W, first: u32, key: u64) -> Found
    requires { HasChain (W.space words.old) first }
    ensures found { IsFound (W.space words.old) first key result.link result.node }
    ensures same { W.space words.new ≡ W.space words.old }
{
    let mut link = first;
    let mut node = link_at(words, link);
    while passes(words, node, key) {
        link = node + 3;
        node = link_at(words, link);
    }
    Found { link, node }
}

/// Where a key is, or would be.
#[derive(Clone, Copy)]
pub(crate) struct Place {
    /// The directory block of its chain, or 0.
    pub directory: u32,
    /// The word that links to its node.
    pub link: u32,
    /// Its node, or 0.
    pub node: u32,
}

pub(crate) fn place_of<W: Words>(words: &mut W, root: u32, key: u64) -> Place
    requires { HasHash (W.space words.old) root }
    ensures place { (chains : Chains) → IsHash (W.space words.old).land (W.space words.old).word root chains
        → IsPlaceOf (W.space words.old) root key (chains (chain_number key)) result.directory result.link result.node }
    ensures same { W.space words.new ≡ W.space words.old }
{
    let chain = chain_of(key);
    let directory = link_at(words, root + 1 + chain / 8);
    if directory == 0 {
        return Place {
            directory,
            link: 0,
            node: 0,
        };
    }
    let found = seek(words, directory + 1 + chain % 8, key);
    Place {
        directory,
        link: found.link,
        node: found.node,
    }
}
