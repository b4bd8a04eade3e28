ghost use Rattle.std.specs.Prelude.{◌≡◌, ◌+◌, ◌<◌, ◌≤◌, [], length, OnOk, IfOk, Err};
ghost use Rattle.lane_traits.specs.Space.{Space};
ghost use Rattle.region_layout.specs.FiniteMap.{FiniteMap, lookup, with_pair};
ghost use Rattle.persist_hash.specs.Calls.{Holds, HasMap, needed, TakesBlocks, IsUnwritten, KeepsOthers};

use crate::add::{add, add_directory, replace};
use crate::search::{chain_of, place_of};
use lane_traits::{Words, WordsRefusal};

/// Sets the value of a key. The answer is the value before. It takes its blocks before its first write: after HeapFull one may
/// have been taken, and after NoMemory some of its words may have been written.
pub fn put<W: Words>(
    words: &mut W,
    root: u32,
    key: u64,
    value: u64,
) -> Result<Option<u64>, WordsRefusal>
    requires map { HasMap (W.space words.old) root }
    requires value { 1 ≤ value }

    ensures before { IfOk result (λ before. (contents : FiniteMap) → Holds (W.space words.old) root contents → before ≡ lookup key contents) }
    ensures contents { OnOk result ((contents : FiniteMap) → Holds (W.space words.old) root contents
        → Holds (W.space words.new) root (with_pair key value contents)) }
    ensures takes { OnOk result ((contents : FiniteMap) → Holds (W.space words.old) root contents
        → TakesBlocks (needed (W.space words.old).word root key contents) (W.space words.old) (W.space words.new)) }
    ensures map { OnOk result (HasMap (W.space words.new) root) }
    ensures others { OnOk result (KeepsOthers (W.space words.old) (W.space words.new)) }
    ensures writes { OnOk result ((W.space words.new).writes ≤ (W.space words.old).writes + 12) }

    // Fewer blocks can be taken than it needs.
    ensures full { result ≡ Err WordsRefusal.HeapFull → (contents : FiniteMap) → Holds (W.space words.old) root contents
        → length (W.space words.old).spare < needed (W.space words.old).word root key contents }
    ensures enough { OnOk result ((contents : FiniteMap) → Holds (W.space words.old) root contents
        → needed (W.space words.old).word root key contents ≤ length (W.space words.old).spare) }
    ensures none { (contents : FiniteMap) → Holds (W.space words.old) root contents → (W.space words.old).spare ≡ []
        → 0 < needed (W.space words.old).word root key contents → result ≡ Err WordsRefusal.HeapFull }
    ensures unwritten { result ≡ Err WordsRefusal.HeapFull → IsUnwritten 1 (W.space words.old) (W.space words.new) }
{
    let place = place_of(words, root, key);
    if place.node != 0 {
        let before = replace(words, place.node, value)?;
        return Ok(Some(before));
    }
    let chain = chain_of(key);
    if place.directory == 0 {
        add_directory(words, root, chain / 8, chain % 8, key, value)?;
        return Ok(None);
    }
    add(words, place.directory + 1 + chain % 8, key, value)?;
    Ok(None)
}
