// All entries of a map.
ghost use Rattle.std.specs.Prelude.{◌≡◌, ◌∷◌, ◌++◌, [], map, IfOk, OnOk};
ghost use Rattle.lane_traits.specs.Space.{Space};
ghost use Rattle.region_layout.specs.FiniteMap.{FiniteMap};
ghost use Rattle.persist_cells.specs.Calls.{HoldsMap, Holds, entry_of, entry_if};

use crate::calls::{KEYS, cell};
use lane_traits::{Pair, Words};
use persist_model::{List, NoMemory};
use std::alloc::Global;

// The key comes behind the others, if it has a value.
fn append(found: &mut List<Pair>, key: u64, value: u64) -> Result<(), NoMemory>
    ensures { OnOk result (map entry_of found.new ≡ map entry_of found.old ++ entry_if key value) }
{
    if value == 0 {
        return Ok(());
    }
    found.push(Pair { key, value }).map_err(|_| NoMemory)
}

/// All keys with their values, ascending by key.
pub fn walk<W: Words>(alloc: Global, words: &mut W, root: u32) -> Result<List<Pair>, NoMemory>
    requires { HoldsMap (W.space words.old) root }
    ensures entries { IfOk result (λ found. (m : FiniteMap) → Holds (W.space words.old) root m → map entry_of found ≡ m) }
    ensures same { W.space words.new ≡ W.space words.old }
{
    let mut found = List::new(alloc);
    for key in 0..KEYS {
        let value = cell(words, root, key);
        append(&mut found, key, value)?;
    }
    Ok(found)
}
