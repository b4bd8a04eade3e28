// The calls of a map.
ghost use Rattle.std.specs.Prelude.{◌≡◌, ◌↔◌, ◌+◌, ◌<◌, ◌≤◌, Err, length, IfOk, OnOk, OnErr, MatchOption};
ghost use Rattle.lane_traits.specs.Space.{Space, root_block};
ghost use Rattle.region_layout.specs.FiniteMap.{FiniteMap, lookup, with_pair, without_key};
ghost use Rattle.persist_tree.specs.Calls.{HoldsMap, Holds, needed, KeepsBlocks, TakesOne, GivesOne, KeepsOthers, WritesFew};

use crate::fields::{field, set};
use crate::locate::{insert, locate};
use crate::shrink::shrink;
use lane_traits::{Words, WordsRefusal};

/// The value of a key.
pub fn get<W: Words>(words: &mut W, root: u32, key: u64) -> Option<u64>
    requires { HoldsMap (W.space words.old) root }
    ensures value { (m : FiniteMap) → Holds (W.space words.old) root m → result ≡ lookup key m }
    ensures same { W.space words.new ≡ W.space words.old }
{
    let place = locate(words, root, key);
    if place.at == 0 {
        return None;
    }
    Some(field(words, place.at, 2))
}

/// How many blocks a put of the key takes.
pub fn needs<W: Words>(words: &mut W, root: u32, key: u64) -> u32
    requires { HoldsMap (W.space words.old) root }
    ensures count { (m : FiniteMap) → Holds (W.space words.old) root m → result ≡ needed key m }
    ensures same { W.space words.new ≡ W.space words.old }
{
    let place = locate(words, root, key);
    if place.at == 0 { 1 } else { 0 }
}

/// The key then has this value, which is at least 1. The answer is the value before.
/// After `NoMemory` some of the writes may have been made; the words are then to be given up.
pub fn put<W: Words>(
    words: &mut W,
    root: u32,
    key: u64,
    value: u64,
) -> Result<Option<u64>, WordsRefusal>
    requires map { HoldsMap (W.space words.old) root }
    requires value { 1 ≤ value }

    ensures answer { IfOk result (λ before. (m : FiniteMap) → Holds (W.space words.old) root m → before ≡ lookup key m) }
    ensures contents { OnOk result ((m : FiniteMap) → Holds (W.space words.old) root m → Holds (W.space words.new) root (with_pair key value m)) }
    ensures others { OnOk result (KeepsOthers (W.space words.old) (W.space words.new)) }
    ensures writes { OnOk result (WritesFew (W.space words.old) (W.space words.new) root) }

    // A new key takes one block.
    ensures blocks { IfOk result (λ before. MatchOption before
        (TakesOne (W.space words.old) (W.space words.new)) (λ _. KeepsBlocks (W.space words.old) (W.space words.new))) }

    ensures full { (m : FiniteMap) → Holds (W.space words.old) root m
        → (result ≡ Err WordsRefusal.HeapFull) ↔ (length (W.space words.old).spare < needed key m) }
    ensures full_unchanged { result ≡ Err WordsRefusal.HeapFull → W.space words.new ≡ W.space words.old }
{
    let place = locate(words, root, key);
    if place.at == 0 {
        insert(words, root, place.top, key, value)?;
        return Ok(None);
    }
    let before = field(words, place.at, 2);
    set(words, place.at, 2, value)?;
    Ok(Some(before))
}

/// The key then has no value. The answer is the value before.
/// After `NoMemory` some of the writes may have been made; the words are then to be given up.
pub fn remove<W: Words>(words: &mut W, root: u32, key: u64) -> Result<Option<u64>, WordsRefusal>
    requires map { HoldsMap (W.space words.old) root }
    requires root { root ≡ root_block (W.space words.old).land }

    ensures answer { IfOk result (λ before. (m : FiniteMap) → Holds (W.space words.old) root m → before ≡ lookup key m) }
    ensures contents { OnOk result ((m : FiniteMap) → Holds (W.space words.old) root m → Holds (W.space words.new) root (without_key key m)) }
    ensures others { OnOk result (KeepsOthers (W.space words.old) (W.space words.new)) }
    ensures writes { OnOk result (WritesFew (W.space words.old) (W.space words.new) root) }

    // A key that was there gives one block.
    ensures blocks { IfOk result (λ before. MatchOption before
        (KeepsBlocks (W.space words.old) (W.space words.new)) (λ _. GivesOne (W.space words.old) (W.space words.new))) }

    ensures memory { OnErr result (result ≡ Err WordsRefusal.NoMemory) }
{
    let place = locate(words, root, key);
    if place.at == 0 {
        return Ok(None);
    }
    let before = field(words, place.at, 2);
    let link = shrink(words, place.top, key)?;
    set(words, root, 1, u64::from(link))?;
    words.give(place.at)?;
    Ok(Some(before))
}
