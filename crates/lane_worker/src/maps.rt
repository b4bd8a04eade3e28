// The calls of a map, by its kind.
ghost use Rattle.std.specs.Prelude.{◌≡◌, ℕ, ◌<◌, ◌≤◌, IfOk, OnOk};
ghost use Rattle.persist_model.specs.Records.{IsAmong};
ghost use Rattle.persist_model.specs.Chain.{HasNoRepeats};
ghost use Rattle.lane_traits.specs.Space.{Space, root_block};
ghost use Rattle.region_layout.specs.declared.layout.Kind.TheVariants.{Cells as IsOfCells};
ghost use Rattle.region_layout.specs.FiniteMap.{FiniteMap, lookup, with_pair, without_key};
ghost use Rattle.lane_worker.specs.Drafts.{HasMapOf, HoldsOf, KeepsPlace};

use lane_traits::Words;
use persist_model::NoMemory;
use region_layout::Kind;

pub(crate) fn get_of<W: Words>(words: &mut W, kind: Kind, root: u32, key: u64) -> Option<u64>
    requires { HasMapOf kind (W.space words.old) root }
    ensures value { (m : FiniteMap) → HoldsOf kind (W.space words.old) root m → result ≡ lookup key m }
{
    match kind {
        Kind::Cells => persist_cells::get(words, root, key),
        Kind::Tree => persist_tree::get(words, root, key),
        Kind::Hash => persist_hash::get(words, root, key),
    }
}

// How many blocks a put of the key takes.
pub(crate) fn needs_of<W: Words>(words: &mut W, kind: Kind, root: u32, key: u64) -> u32
    requires { HasMapOf kind (W.space words.old) root }
{
    match kind {
        Kind::Cells => persist_cells::needs(words, root, key),
        Kind::Tree => persist_tree::needs(words, root, key),
        Kind::Hash => persist_hash::needs(words, root, key),
    }
}

// No block is added to those that can be taken.
pub(crate) fn put_of<W: Words>(
    words: &mut W,
    kind: Kind,
    root: u32,
    key: u64,
    value: u64,
) -> Result<(), NoMemory>
    requires map { HasMapOf kind (W.space words.old) root }
    requires key { kind ≡ IsOfCells → key ≤ 11 }
    requires value { 1 ≤ value }
    ensures contents { OnOk result ((m : FiniteMap) → HoldsOf kind (W.space words.old) root m → HoldsOf kind (W.space words.new) root (with_pair key value m)) }
    ensures place { OnOk result (KeepsPlace (W.space words.old) (W.space words.new)) }
    ensures once { OnOk result (HasNoRepeats (W.space words.new).spare) }
    ensures fewer { OnOk result ((b : ℕ) → IsAmong (W.space words.new).spare b → IsAmong (W.space words.old).spare b) }
{
    match kind {
        Kind::Cells => match persist_cells::put(words, root, key, value) {
            Ok(_) => Ok(()),
            Err(_) => Err(NoMemory),
        },
        Kind::Tree => match persist_tree::put(words, root, key, value) {
            Ok(_) => Ok(()),
            Err(_) => Err(NoMemory),
        },
        Kind::Hash => match persist_hash::put(words, root, key, value) {
            Ok(_) => Ok(()),
            Err(_) => Err(NoMemory),
        },
    }
}

pub(crate) fn remove_of<W: Words>(
    words: &mut W,
    kind: Kind,
    root: u32,
    key: u64,
) -> Result<(), NoMemory>
    requires map { HasMapOf kind (W.space words.old) root }
    requires root { root ≡ root_block (W.space words.old).land }
    ensures contents { OnOk result ((m : FiniteMap) → HoldsOf kind (W.space words.old) root m → HoldsOf kind (W.space words.new) root (without_key key m)) }
    ensures place { OnOk result (KeepsPlace (W.space words.old) (W.space words.new)) }
    ensures once { OnOk result (HasNoRepeats (W.space words.new).spare) }
    ensures fewer { OnOk result ((b : ℕ) → IsAmong (W.space words.new).spare b → IsAmong (W.space words.old).spare b) }
{
    match kind {
        Kind::Cells => match persist_cells::remove(words, root, key) {
            Ok(_) => Ok(()),
            Err(_) => Err(NoMemory),
        },
        Kind::Tree => match persist_tree::remove(words, root, key) {
            Ok(_) => Ok(()),
            Err(_) => Err(NoMemory),
        },
        Kind::Hash => match persist_hash::remove(words, root, key) {
            Ok(_) => Ok(()),
            Err(_) => Err(NoMemory),
        },
    }
}
