ghost use Rattle.std.specs.Prelude.{◌≡◌, ◌+◌, ◌<◌, ◌++◌, OnOk, OnErr, IfOk, IsTrue};
ghost use Rattle.std.specs.List.Sorted.{IsPermutation, IsNonDecreasingBy};
ghost use Rattle.lane_traits.specs.Space.{Space, IsOwn};
ghost use Rattle.region_layout.specs.FiniteMap.{FiniteMap};
ghost use Rattle.region_layout.specs.HashMap.{Chains, IsHash, first_link};
ghost use Rattle.persist_hash.specs.Chains.{HasHash};
ghost use Rattle.persist_hash.specs.Calls.{Holds, HasMap};
ghost use Rattle.persist_hash.specs.Walk.{entries_of, node_pairs};

use crate::fields::{field, link_at};
use lane_traits::{Pair, Words};
use persist_model::{List, NoMemory};
use std::alloc::{AllocError, Global};

// The first node of a chain, or 0.
fn first_node<W: Words>(words: &mut W, root: u32, chain: u32) -> u32
    requires hash { HasHash (W.space words.old) root }
    requires chain { chain < 64 }
    ensures value { result ≡ first_link (W.space words.old).word root chain }
    ensures same { W.space words.new ≡ W.space words.old }
{
    let directory = link_at(words, root + 1 + chain / 8);
    if directory == 0 {
        return 0;
    }
    link_at(words, directory + 1 + chain % 8)
}

fn pair_at<W: Words>(words: &mut W, node: u32) -> Pair
    requires { IsOwn (W.space words.old).land node }
    ensures key { result.key ≡ (W.space words.old).word (node + 1) }
    ensures value { result.value ≡ (W.space words.old).word (node + 2) }
    ensures same { W.space words.new ≡ W.space words.old }
{
    let key = field(words, node, 1);
    let value = field(words, node, 2);
    Pair { key, value }
}

// The pairs of a chain, behind those that were found before.
fn gather<W: Words>(
    words: &mut W,
    root: u32,
    chain: u32,
    found: &mut Vec<Pair>,
) -> Result<(), AllocError>
    requires hash { HasHash (W.space words.old) root }
    requires chain { chain < 64 }
    ensures found { OnOk result ((chains : Chains) → IsHash (W.space words.old).land (W.space words.old).word root chains
        → found.new.items ≡ found.old.items ++ node_pairs (chains chain)) }
    ensures same { W.space words.new ≡ W.space words.old }
{
    let mut node = first_node(words, root, chain);
    while node != 0 {
        let pair = pair_at(words, node);
        found.push(pair)?;
        node = link_at(words, node + 3);
    }
    Ok(())
}

fn sort_pairs(found: &mut Vec<Pair>) -> Result<(), AllocError>
    ensures same { IsPermutation found.old.items found.new.items }
    ensures sorted { OnOk result (IsNonDecreasingBy (λ pair. pair.key) found.new.items) }
{
    found.sort_by_key(|pair| pair.key)?;
    Ok(())
}

/// The pairs, ascending by key.
pub fn walk<W: Words>(alloc: Global, words: &mut W, root: u32) -> Result<List<Pair>, NoMemory>
    requires { HasMap (W.space words.old) root }
    ensures pairs { IfOk result (λ pairs. (contents : FiniteMap) → Holds (W.space words.old) root contents
        → entries_of pairs ≡ contents) }
    ensures same { W.space words.new ≡ W.space words.old }
{
    let mut found = Vec::new(alloc);
    for chain in 0..64u32 {
        gather(words, root, chain, &mut found)?;
    }
    sort_pairs(&mut found)?;
    Ok(List::from(found))
}
