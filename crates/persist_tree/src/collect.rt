// All entries of a map.
ghost use Rattle.std.specs.Prelude.{◌≡◌, ◌∷◌, ◌++◌, [], map, IfOk, OnOk};
ghost use Rattle.lane_traits.specs.Space.{Space};
ghost use Rattle.region_layout.specs.FiniteMap.{FiniteMap};
ghost use Rattle.region_layout.specs.TreeMap.{Tree, entries};
ghost use Rattle.persist_tree.specs.Changes.{StandsAt, HasTree, stored_height};
ghost use Rattle.persist_tree.specs.Calls.{HoldsMap, Holds, entry_of};

use crate::fields::{field, sides_of};
use lane_traits::{Pair, Words};
use persist_model::{List, NoMemory};
use std::alloc::Global;

// The pair comes behind the others.
fn append(found: &mut List<Pair>, pair: Pair) -> Result<(), NoMemory>
    ensures { OnOk result (found.new ≡ found.old ++ pair ∷ []) }
{
    found.push(pair).map_err(|_| NoMemory)
}

// The entries of the tree here come behind the others.
fn collect<W: Words>(words: &mut W, at: u32, found: &mut List<Pair>) -> Result<(), NoMemory>
    requires { HasTree (W.space words.old) at }
    ensures entries { OnOk result ((t : Tree) → StandsAt (W.space words.old) at t
        → map entry_of found.new ≡ map entry_of found.old ++ entries t) }
    ensures same { W.space words.new ≡ W.space words.old }
{
    if at == 0 {
        return Ok(());
    }
    let key = field(words, at, 1);
    let value = field(words, at, 2);
    let sides = sides_of(words, at);
    collect(words, sides.left, found)?;
    append(found, Pair { key, value })?;
    collect(words, sides.right, found)
}

/// All keys with their values, ascending by key.
pub fn walk<W: Words>(alloc: Global, words: &mut W, root: u32) -> Result<List<Pair>, NoMemory>
    requires { HoldsMap (W.space words.old) root }
    ensures entries { IfOk result (λ found. (m : FiniteMap) → Holds (W.space words.old) root m → map entry_of found ≡ m) }
    ensures same { W.space words.new ≡ W.space words.old }
{
    let top = field(words, root, 1) as u32;
    let mut found = List::new(alloc);
    collect(words, top, &mut found)?;
    Ok(found)
}
