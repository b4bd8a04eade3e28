//! Where a cell stands.
ghost use Rattle.std.specs.Prelude.{◌≡◌, ◌<◌};
ghost use Rattle.persist_model.specs.Shape.{part_of as part_of_shape};
ghost use Rattle.region_layout.specs.Layout.{layout_shape};

use region_layout::Layout;

/// The partition in which the cell at this address stands.
pub fn part_of(layout: Layout, at: u32) -> u32
    ensures is { result ≡ part_of_shape (layout_shape layout) at }
    ensures inside { result < layout.partitions }
{
    let bucket = at.saturating_sub(32) / (8 + 8 * layout.cells);
    let part = bucket / (layout.buckets / layout.partitions);
    part.min(layout.partitions - 1)
}
