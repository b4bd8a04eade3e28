ghost use Rattle.std.specs.Prelude.{◌≡◌, IfOk};
ghost use Rattle.lane_book.specs.Books.{IsBook};

use crate::deed::Nothing;
use lane_book::Book;
use offset_alloc::Blocks;
use persist_model::List;
use region_layout::{Layout, Policy};
use std::alloc::Global;
use std::test::Fail;
use test_regions::Row;

/// The heap begins at 96, and its 16 blocks have 16 words each.
pub fn small() -> Layout
    ensures { result.blocks ≡ 16 }
{
    Layout {
        policy: Policy::Force,
        cells: 1,
        buckets: 4,
        blocks: 16,
        structures: 2,
        format: 2,
        partitions: 1,
    }
}

/// So many lanes over two structures that have one block each, 0 and 1.
pub fn fresh(alloc: Global, lanes: u32) -> Result<Book<Nothing>, Fail>
    ensures { IfOk result (λ book. IsBook book) }
{
    let layout = small();
    let row = Row::changed(alloc, &[(96, 1), (112, 2)], &[], layout.size())?;
    let blocks = Blocks::rebuild(alloc, &row, layout)?;
    Ok(Book::new(alloc, lanes, blocks, List::new(alloc))?)
}
