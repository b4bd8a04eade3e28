//! What holds of every layout, as functions that do nothing: the clause is the law.
ghost use Rattle.region_layout.specs.Layout.{layout_shape, IsAllowed};
ghost use Rattle.region_layout.specs.Apart.{WordsAreApart, PartsAreApart, SizesAreBounded};
ghost use Rattle.region_layout.specs.Fresh.{FreshIsEmpty};
ghost use Rattle.region_layout.specs.Reading.{ShapesAreRead};
ghost use Rattle.region_layout.specs.Cell.{CellsAreRecords};
ghost use Rattle.region_layout.specs.MapLaws.{CellsHoldOneMap, CellsDependOnTheirBlocks, FreshHoldsEmptyMaps};

use crate::layout::Layout;

/// A layout keeps the limits of a region.
pub fn layouts_are_allowed(layout: &Layout)
    ensures { IsAllowed (layout_shape layout.now) }
{}

/// Each word of a region is one of its header, of one bucket, or of one block.
pub fn words_are_apart()
    ensures { WordsAreApart }
{}

/// Each bucket is in one partition of the log.
pub fn parts_are_apart()
    ensures { PartsAreApart }
{}

/// A fresh region is sound: it has its layout's shape, empty chains, no record and all room.
pub fn fresh_regions_are_empty()
    ensures { FreshIsEmpty }
{}

/// Each structure of a fresh region is the empty map.
pub fn fresh_structures_are_empty_maps()
    ensures { FreshHoldsEmptyMaps }
{}

/// The words of cells hold no two maps.
pub fn cells_hold_one_map()
    ensures { CellsHoldOneMap }
{}

/// Heaps in which the structure owns the same blocks, with the same words in them, hold the same map of cells.
pub fn cells_depend_on_their_blocks()
    ensures { CellsDependOnTheirBlocks }
{}

/// A cell that is read has the words from its address on, and is the record there.
pub fn cells_are_records()
    ensures { CellsAreRecords }
{}

/// A header that is read says a layout, and one that is refused has exactly one first fault.
pub fn shapes_are_read()
    ensures { ShapesAreRead }
{}

/// A region has at most 1,187,872 words.
pub fn sizes_are_bounded()
    ensures { SizesAreBounded }
{}
