// The records of a chain, read back.
ghost use Rattle.std.specs.Prelude.{◌≡◌, ◌<◌, ◌≤◌, ◌*◌, ◌+◌, ◌++◌, ◌^◌, IfOk, OnOk, map, reverse, length, slice_index};
ghost use Rattle.persist_model.specs.Region.{Words};
ghost use Rattle.atomic_list.specs.Reads.{SameLog};
ghost use Rattle.atomic_list.specs.Walk.{chain_of};
ghost use Rattle.region_layout.specs.Layout.{layout_shape};
ghost use Rattle.bucket_log.specs.Reads.{IsLogOf};
ghost use Rattle.bucket_log.specs.Scans.{record_of_placed, open_cell, open_cells, chain_cells, IsLogIn, IsSortedOf};

use atomic_list::next_bucket;
use persist_model::{List, Look, NoMemory};
use region_layout::{Cell, Layout, read_cell};
use std::alloc::{AllocError, Global};

/// An open cell and the address of its gate.
#[derive(Clone, Copy, Debug, PartialEq, Eq)]
pub struct Placed {
    pub at: u32,
    pub cell: Cell,
}

// Puts an open cell behind those found.
fn keep_open(found: &mut Vec<Placed>, at: u32, cell: Cell) -> Result<(), NoMemory>
    ensures { OnOk result (found.new.items ≡ found.old.items ++ open_cell at cell) }
{
    if cell.lsn == 0 {
        return Ok(());
    }
    match found.push(Placed { at, cell }) {
        Ok(()) => Ok(()),
        Err(refused) => Err(AllocError::from(refused).into()),
    }
}

// Puts the open cells of a bucket behind those found.
fn scan_bucket<W: Look>(
    words: &W,
    layout: Layout,
    bucket: u32,
    found: &mut Vec<Placed>,
) -> Result<(), NoMemory>
    requires bucket { bucket + (8 + 8 * layout.cells) ≤ length (W.words words.now) }
    requires small { length (W.words words.now) < 2 ^ 31 }
    ensures { OnOk result (found.new.items ≡ found.old.items ++ open_cells (slice_index (W.words words.now)) bucket layout.cells) }
{
    for cell in 0..layout.cells {
        let at = bucket + 8 + 8 * cell;
        keep_open(found, at, read_cell(words, at))?;
    }
    Ok(())
}

// The open cells of the chain, in its order.
fn scan_chain<W: Look>(alloc: Global, words: &W, layout: Layout) -> Result<Vec<Placed>, NoMemory>
    requires { IsLogOf layout (length (W.words words.now)) (slice_index (W.words words.now)) }
    ensures { IfOk result (λ found. found.items ≡ chain_cells (slice_index (W.words words.now)) layout.cells (chain_of (layout_shape layout) (slice_index (W.words words.now)))) }
{
    let mut found = Vec::new(alloc);
    let mut last = 0;
    for _ in 0..layout.buckets {
        let next = next_bucket(words, last);
        if next == 0 {
            break;
        }
        last = next;
        scan_bucket(words, layout, last, &mut found)?;
    }
    Ok(found)
}

/// Sorts cells ascending by gate, then by address. Nothing is left of them where there is no memory.
pub fn sort_placed(mut found: Vec<Placed>) -> Result<Vec<Placed>, NoMemory>
    ensures { IfOk result (λ sorted. IsSortedOf found.items sorted.items) }
{
    found.sort_by_key(|placed| (placed.cell.lsn, placed.at))?;
    Ok(found)
}

/// The open cells of the chain, ascending by gate, then by address: read from the last they are the partition's records, newest first.
/// They are the same in all words that have the same log. Nothing changes where there is no memory.
pub fn scan<W: Look>(alloc: Global, words: &W, layout: Layout) -> Result<List<Placed>, NoMemory>
    requires { IsLogOf layout (length (W.words words.now)) (slice_index (W.words words.now)) }
    ensures { (w : Words) → SameLog (slice_index (W.words words.now)) w
        → IfOk result (λ found. IsLogIn layout.cells w (chain_of (layout_shape layout) w) (reverse (map record_of_placed found))) }
{
    let found = scan_chain(alloc, words, layout)?;
    let sorted = sort_placed(found)?;
    Ok(List::from_vec(sorted))
}
