//! A map of cells in the words of one structure.
ghost use Rattle.std.specs.Prelude.{◌≡◌, ◌≢◌, ◌↔◌, ◌+◌, ◌*◌, ◌<◌, ◌≤◌, ℕ, length, slice_index, IsTrue, IfOk};
ghost use Rattle.persist_model.specs.Shape.{heap, block, words_of_shape};
ghost use Rattle.region_layout.specs.Layout.{layout_shape};
ghost use Rattle.region_layout.specs.CellsMap.{CELL_KEYS as keys_of_cells};
ghost use Rattle.image_runner.specs.Cells.{OwnsRootAlone, AreCellsBelow, with_cell};
ghost use Rattle.lane_traits.specs.Device.{MAX_WORDS};

use lane_traits::Pair;
use persist_model::{List, Look, NoMemory};
use region_layout::{CELL_KEYS, Layout};
use std::alloc::Global;

/// The first word of the root block that has a key.
const FIRST_KEY: u32 = 4;

/// Whether the structure owns its root block and no other.
pub(crate) fn owns_root_alone<L: Look>(words: &L, layout: Layout, structure: u32) -> bool
    requires long { length (L.words words.now) ≡ words_of_shape (layout_shape layout) }
    requires structure { structure < layout.structures }
    ensures { IsTrue result ↔ OwnsRootAlone (heap (layout_shape layout)) (slice_index (L.words words.now)) structure layout.blocks }
{
    for k in 0..layout.blocks {
        if is_owned(words, layout, structure, k) != (k == structure) {
            return false;
        }
    }
    true
}

/// Whether the block with this number is the structure's.
fn is_owned<L: Look>(words: &L, layout: Layout, structure: u32, k: u32) -> bool
    requires long { length (L.words words.now) ≡ words_of_shape (layout_shape layout) }
    requires structure { structure < layout.structures }
    requires block { k < layout.blocks }
    ensures { IsTrue result ↔ (slice_index (L.words words.now) (heap (layout_shape layout) + 16 * k) ≡ structure + 1) }
{
    words.word(layout.block(k)) == u64::from(structure) + 1
}

/// The pairs of the cells of a root block, ascending by key.
pub(crate) fn pairs_of_cells<L: Look>(
    alloc: Global,
    words: &L,
    root: u32,
) -> Result<List<Pair>, NoMemory>
    requires inside { root + 16 ≤ length (L.words words.now) }
    requires small { length (L.words words.now) ≤ MAX_WORDS }
    ensures { IfOk result (λ pairs. AreCellsBelow keys_of_cells (slice_index (L.words words.now)) root pairs) }
{
    let mut pairs = List::new(alloc);
    for key in 0..CELL_KEYS {
        let value = words.word(root + FIRST_KEY + key);
        push_cell(&mut pairs, u64::from(key), value)?;
    }
    Ok(pairs)
}

/// Puts a cell's pair behind the others, where it has a value.
fn push_cell(pairs: &mut List<Pair>, key: u64, value: u64) -> Result<(), NoMemory>
    ensures { IfOk result (λ done. pairs.new ≡ with_cell key value pairs.old) }
{
    if value == 0 {
        return Ok(());
    }
    pairs.push(Pair { key, value }).map_err(|refused| refused.1)
}
