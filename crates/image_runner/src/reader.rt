//! The words of one structure, in those of a region.
ghost use Rattle.std.specs.Prelude.{◌≡◌, [], length, slice_index, nat_lt};
ghost use Rattle.persist_model.specs.Shape.{heap, words_of_shape};
ghost use Rattle.lane_traits.specs.Space.{Space};
ghost use Rattle.lane_traits.specs.Draft.{drafted};
ghost use Rattle.region_layout.specs.Layout.{layout_shape};
ghost use Rattle.image_runner.specs.Reader.{space_of};

use lane_traits::{Draft, Reads};
use persist_model::{List, Look};
use region_layout::Layout;
use std::alloc::Global;

/// A reader of a region's words, for one structure.
#[derive(Drop)]
pub(crate) struct StructureReader<'a, L: Look> {
    words: &'a L,
    layout: Layout,
    structure: u32,
    ghost long: { length (L.words words.now) ≡ words_of_shape (layout_shape layout) },
}

impl<L: Look> Reads for StructureReader<'_, L> {
    ghost space = { λ r. space_of (heap (layout_shape r.layout)) r.structure (L.words r.words.now) };

    ghost readable = { λ r a. nat_lt a (words_of_shape (layout_shape r.layout)) };

    fn read(&mut self, a: u32) -> u64 {
        self.words.word(a)
    }
}

/// The words of a structure, of which no block can be taken. What is written to them stays in the draft.
pub(crate) fn words_of_structure<'a, L: Look>(
    alloc: Global,
    words: &'a L,
    layout: Layout,
    structure: u32,
) -> Draft<StructureReader<'a, L>>
    requires { length (L.words words.now) ≡ words_of_shape (layout_shape layout) }
    ensures { ⟦<Draft<StructureReader<'a, L>> as Reads>⟧.space result
        ≡ drafted structure [] [] [] (space_of (heap (layout_shape layout)) structure (L.words words.now)) }
{
    let reader = StructureReader {
        words,
        layout,
        structure,
    };
    Draft::new(alloc, reader, structure, List::new(alloc))
}
