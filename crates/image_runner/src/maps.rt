//! What the structures of a region hold.
ghost use Rattle.std.specs.Prelude.{◌≡◌, ◌<◌, ◌≤◌, ◌++◌, ◌∷◌, [], ℕ, Err, length, slice_index, IfOk, OnOk};
ghost use Rattle.persist_model.specs.Shape.{heap, words_of_shape};
ghost use Rattle.region_layout.specs.Layout.{layout_shape};
ghost use Rattle.region_layout.specs.declared.layout.Kind.TheVariants as kind;
ghost use Rattle.image_runner.specs.Maps.{ReadsMap, HoldMaps, IsFirstBroken};

use crate::cells::{owns_root_alone, pairs_of_cells};
use crate::reader::words_of_structure;
use lane_traits::Pair;
use persist_model::{List, Look, NoMemory};
use region_layout::{Kind, Layout};
use rewind_script::PairList;
use std::alloc::Global;

/// Why there are no maps to tell.
#[derive(Clone, Copy, Debug, PartialEq, Eq)]
pub enum MapFault {
    /// The words of a structure are no map. The address of its root block.
    At(u32),
    NoMemory,
}

impl From<NoMemory> for MapFault {
    ghost use Rattle.std.specs.Prelude.{◌≡◌};
    ghost use Rattle.image_runner.specs.declared.maps.MapFault.TheVariants.{NoMemory};

    ghost from_gives = { λ _ fault. fault ≡ NoMemory };

    fn from(_: NoMemory) -> Self {
        MapFault::NoMemory
    }
}

fn read_cells<L: Look>(
    alloc: Global,
    words: &L,
    layout: Layout,
    structure: u32,
) -> Result<List<Pair>, MapFault>
    requires long { length (L.words words.now) ≡ words_of_shape (layout_shape layout) }
    requires structure { structure < layout.structures }
    ensures { ReadsMap kind.Cells (heap (layout_shape layout)) (slice_index (L.words words.now)) structure result }
{
    let root = layout.block(structure);
    if !owns_root_alone(words, layout, structure) {
        return Err(MapFault::At(root));
    }
    Ok(pairs_of_cells(alloc, words, root)?)
}

fn read_tree<L: Look>(
    alloc: Global,
    words: &L,
    layout: Layout,
    structure: u32,
) -> Result<List<Pair>, MapFault>
    requires long { length (L.words words.now) ≡ words_of_shape (layout_shape layout) }
    requires structure { structure < layout.structures }
    ensures { ReadsMap kind.Tree (heap (layout_shape layout)) (slice_index (L.words words.now)) structure result }
{
    let root = layout.block(structure);
    match persist_tree::sound(words, layout, structure) {
        Err(_) => return Err(MapFault::At(root)),
        Ok(()) => {}
    }
    let mut tree = words_of_structure(alloc, words, layout, structure);
    Ok(persist_tree::walk(alloc, &mut tree, root)?)
}

fn read_hash<L: Look>(
    alloc: Global,
    words: &L,
    layout: Layout,
    structure: u32,
) -> Result<List<Pair>, MapFault>
    requires long { length (L.words words.now) ≡ words_of_shape (layout_shape layout) }
    requires structure { structure < layout.structures }
    ensures { ReadsMap kind.Hash (heap (layout_shape layout)) (slice_index (L.words words.now)) structure result }
{
    match persist_hash::sound(alloc, words, layout, structure) {
        Err(persist_hash::Broken::At(root)) => return Err(MapFault::At(root)),
        Err(persist_hash::Broken::NoMemory) => return Err(MapFault::NoMemory),
        Ok(()) => {}
    }
    let mut hash = words_of_structure(alloc, words, layout, structure);
    Ok(persist_hash::walk(alloc, &mut hash, layout.block(structure))?)
}

/// The pairs of a structure of this kind, ascending by key.
fn read_map<L: Look>(
    alloc: Global,
    words: &L,
    layout: Layout,
    kind: Kind,
    structure: u32,
) -> Result<List<Pair>, MapFault>
    requires long { length (L.words words.now) ≡ words_of_shape (layout_shape layout) }
    requires structure { structure < layout.structures }
    ensures { ReadsMap kind (heap (layout_shape layout)) (slice_index (L.words words.now)) structure result }
{
    match kind {
        Kind::Cells => read_cells(alloc, words, layout, structure),
        Kind::Tree => read_tree(alloc, words, layout, structure),
        Kind::Hash => read_hash(alloc, words, layout, structure),
    }
}

fn push_map(maps: &mut List<PairList>, pairs: List<Pair>) -> Result<(), NoMemory>
    ensures { OnOk result (maps.new ≡ maps.old ++ record { pairs = pairs } ∷ []) }
{
    if let Err(refused) = maps.push(PairList { pairs }) {
        return Err(refused.1);
    }
    Ok(())
}

/// The pairs of each structure, the first being structure 0, or the first that is no map.
pub fn read_maps<L: Look>(
    alloc: Global,
    words: &L,
    layout: Layout,
    kinds: &[Kind],
) -> Result<List<PairList>, MapFault>
    requires long { length (L.words words.now) ≡ words_of_shape (layout_shape layout) }
    requires count { length kinds.now ≤ layout.structures }
    ensures read { IfOk result (λ maps. HoldMaps (heap (layout_shape layout)) (slice_index (L.words words.now)) kinds.now maps) }
    ensures broken { (at : ℕ) → result ≡ Err (MapFault.At at) → IsFirstBroken (heap (layout_shape layout)) (slice_index (L.words words.now)) kinds.now at }
{
    let mut maps = List::new(alloc);
    let mut structure: u32 = 0;
    for kind in kinds {
        match read_map(alloc, words, layout, *kind, structure) {
            Err(fault) => return Err(fault),
            Ok(pairs) => push_map(&mut maps, pairs)?,
        }
        structure += 1;
    }
    Ok(maps)
}
