// The calls of a map.
ghost use Rattle.std.specs.Prelude.{◌≡◌, ◌+◌, ◌<◌, ◌≤◌, Ok, Err, None, IfOk, OnOk, OnErr};
ghost use Rattle.lane_traits.specs.Space.{Space, written};
ghost use Rattle.region_layout.specs.FiniteMap.{FiniteMap, lookup, with_pair, without_key};
ghost use Rattle.region_layout.specs.CellsMap.{CELL_KEYS, cell_of};
ghost use Rattle.persist_cells.specs.Calls.{HoldsMap, Holds, KeepsBlocks, KeepsOthers};

use lane_traits::{Words, WordsRefusal};

// How many keys there are, from 0 on.
pub(crate) const KEYS: u64 = 12;

// The word of a key.
pub(crate) fn cell<W: Words>(words: &mut W, root: u32, key: u64) -> u64
    requires map { HoldsMap (W.space words.old) root }
    requires key { key < CELL_KEYS }
    ensures value { result ≡ (W.space words.old).word (cell_of root key) }
    ensures same { W.space words.new ≡ W.space words.old }
{
    words.read(root + 4 + key as u32)
}

// The word of the key is then this one.
fn set_cell<W: Words>(words: &mut W, root: u32, key: u64, value: u64) -> Result<(), WordsRefusal>
    requires map { HoldsMap (W.space words.old) root }
    requires key { key < CELL_KEYS }
    ensures made { OnOk result (W.space words.new ≡ written (cell_of root key) value (W.space words.old)) }
    ensures refused { OnErr result (W.space words.new ≡ W.space words.old) }
    ensures memory { OnErr result (result ≡ Err WordsRefusal.NoMemory) }
{
    words.write(root + 4 + key as u32, value)
}

/// The value of a key.
pub fn get<W: Words>(words: &mut W, root: u32, key: u64) -> Option<u64>
    requires { HoldsMap (W.space words.old) root }
    ensures value { (m : FiniteMap) → Holds (W.space words.old) root m → result ≡ lookup key m }
    ensures same { W.space words.new ≡ W.space words.old }
{
    if key >= KEYS {
        return None;
    }
    let value = cell(words, root, key);
    if value == 0 { None } else { Some(value) }
}

/// How many blocks a put of the key takes: none.
pub fn needs<W: Words>(_words: &mut W, _root: u32, _key: u64) -> u32
    ensures count { result ≡ 0 }
    ensures same { W.space _words.new ≡ W.space _words.old }
{
    0
}

/// The key, which is at most 11, then has this value, which is at least 1. The answer is the value before.
/// After a refusal the words are as they were.
pub fn put<W: Words>(
    words: &mut W,
    root: u32,
    key: u64,
    value: u64,
) -> Result<Option<u64>, WordsRefusal>
    requires map { HoldsMap (W.space words.old) root }
    requires key { key < CELL_KEYS }
    requires value { 1 ≤ value }

    ensures answer { IfOk result (λ before. (m : FiniteMap) → Holds (W.space words.old) root m → before ≡ lookup key m) }
    ensures contents { OnOk result ((m : FiniteMap) → Holds (W.space words.old) root m → Holds (W.space words.new) root (with_pair key value m)) }
    ensures others { OnOk result (KeepsOthers (W.space words.old) (W.space words.new)) }
    ensures writes { OnOk result ((W.space words.new).writes ≡ (W.space words.old).writes + 1) }
    ensures blocks { OnOk result (KeepsBlocks (W.space words.old) (W.space words.new)) }

    ensures refused { OnErr result (W.space words.new ≡ W.space words.old) }
    ensures memory { OnErr result (result ≡ Err WordsRefusal.NoMemory) }
{
    let before = get(words, root, key);
    set_cell(words, root, key, value)?;
    Ok(before)
}

/// The key then has no value. The answer is the value before, and where there was none nothing is written.
/// After a refusal the words are as they were.
pub fn remove<W: Words>(words: &mut W, root: u32, key: u64) -> Result<Option<u64>, WordsRefusal>
    requires { HoldsMap (W.space words.old) root }

    ensures answer { IfOk result (λ before. (m : FiniteMap) → Holds (W.space words.old) root m → before ≡ lookup key m) }
    ensures contents { OnOk result ((m : FiniteMap) → Holds (W.space words.old) root m → Holds (W.space words.new) root (without_key key m)) }
    ensures others { OnOk result (KeepsOthers (W.space words.old) (W.space words.new)) }
    ensures writes { OnOk result ((W.space words.new).writes ≤ (W.space words.old).writes + 1) }
    ensures absent { result ≡ Ok None → W.space words.new ≡ W.space words.old }
    ensures blocks { OnOk result (KeepsBlocks (W.space words.old) (W.space words.new)) }

    ensures refused { OnErr result (W.space words.new ≡ W.space words.old) }
    ensures memory { OnErr result (result ≡ Err WordsRefusal.NoMemory) }
{
    match get(words, root, key) {
        None => Ok(None),
        Some(before) => {
            set_cell(words, root, key, 0)?;
            Ok(Some(before))
        }
    }
}
