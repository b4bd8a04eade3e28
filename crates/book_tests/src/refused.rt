//! Asks that the book decides, and those that it refuses.
ghost use Rattle.std.specs.Prelude.{◌≡◌, ◌<◌, ◌≤◌, ℕ, length, IsTrue};
ghost use Rattle.offset_alloc.specs.declared.Standing.TheVariants as Standing;
ghost use Rattle.lane_book.specs.Books.{IsBook};
ghost use Rattle.lane_book.specs.Refusals.{AreStructures, AreHeapWords, NamesInside};

use crate::asks::write;
use crate::deed::Nothing;
use crate::start::small;
use lane_book::Book;
use lane_traits::WordWrite;
use lane_types::{Call, Refusal};
use offset_alloc::{Blocks, Standing};
use persist_model::{List, NoMemory};
use region_layout::Layout;
use std::alloc::Global;
use std::process::Abort;

/// What is asked.
#[derive(Clone, Copy, Debug)]
pub enum Ask {
    Begin(u8),
    Read(u32),
    Write(u32),
    /// The words of both writes.
    Batch(u32, u32),
    Take(u32),
    Give(u32),
    Commit,
    Abort,
    Checkpoint,
    Savepoint,
    RollbackTo(u64),
}

fn batch(alloc: Global, a: u32, b: u32) -> Result<Call<Nothing>, NoMemory> {
    let mut writes = List::new(alloc);
    writes.extend_from_slice(&[write(a), write(b)])?;
    Ok(Call::Batch(writes))
}

/// The call that is asked.
pub fn call_of(alloc: Global, ask: Ask) -> Result<Call<Nothing>, NoMemory> {
    match ask {
        Ask::Begin(set) => Ok(Call::Begin(set)),
        Ask::Read(a) => Ok(Call::Read(a)),
        Ask::Write(a) => Ok(Call::Write(a, 7)),
        Ask::Batch(a, b) => batch(alloc, a, b),
        Ask::Take(structure) => Ok(Call::Take(structure)),
        Ask::Give(block) => Ok(Call::Give(block)),
        Ask::Commit => Ok(Call::Commit(Nothing)),
        Ask::Abort => Ok(Call::Abort),
        Ask::Checkpoint => Ok(Call::Checkpoint),
        Ask::Savepoint => Ok(Call::Savepoint),
        Ask::RollbackTo(n) => Ok(Call::RollbackTo(n)),
    }
}

fn is_structure(standing: Standing) -> bool
    ensures { IsTrue result → (s : ℕ) → standing ≡ Standing.Owned s → s < 8 }
{
    match standing {
        Standing::Owned(s) => s < 8,
        Standing::Free | Standing::Pending => true,
    }
}

fn are_structures(blocks: &Blocks) -> bool
    requires { length blocks.now ≡ 16 }
    ensures { IsTrue result → AreStructures blocks.now }
{
    for k in 0..16 {
        if !is_structure(blocks.standing(k)) {
            return false;
        }
    }
    true
}

fn are_inside(layout: Layout, writes: &[WordWrite]) -> bool
    ensures { IsTrue result → AreHeapWords layout writes.now }
{
    for k in 0..writes.len() {
        if !layout.is_data(writes[k].address) {
            return false;
        }
    }
    true
}

// Whether what the call names is in the region.
fn names_inside(layout: Layout, call: &Call<Nothing>) -> bool
    ensures { IsTrue result → NamesInside layout call.now }
{
    match call {
        Call::Read(a) => layout.is_data(*a),
        Call::Write(a, _) => layout.is_data(*a),
        Call::Take(s) => *s < 8,
        Call::Give(block) => *block < layout.blocks,
        Call::Batch(writes) => are_inside(layout, writes.as_slice()),
        _ => true,
    }
}

/// What the call needs with so many partitions of buckets of one cell. 5 cells of the first are kept for checkpoints.
pub fn need(
    book: &Book<Nothing>,
    rt: &impl Abort,
    partitions: u32,
    lane: u32,
    call: &Call<Nothing>,
) -> u64 {
    assert!(rt; (lane as usize) < book.lanes.len());
    assert!(rt; book.lanes.len() <= 16);
    assert!(rt; partitions >= 1);
    book.need(1, partitions, 5, lane, call)
}

fn refusal(
    book: &Book<Nothing>,
    rt: &impl Abort,
    lane: u32,
    call: &Call<Nothing>,
    room: u64,
) -> Option<Refusal> {
    let layout = small();
    assert!(rt; (lane as usize) < book.lanes.len());
    assert!(rt; book.blocks.len() == 16);
    if !names_inside(layout, call) {
        panic!(rt; "outside the region");
    }
    if !are_structures(&book.blocks) {
        panic!(rt; "no structure");
    }
    book.refusal(layout, lane, call, room, need(book, rt, 1, lane, call))
}

/// Why the ask is refused where the log has so much room. The lane's tally counts it.
pub fn refuses(
    book: &mut Book<Nothing>,
    rt: &impl Abort,
    alloc: Global,
    lane: u32,
    ask: Ask,
    room: u64,
) -> Result<Option<Refusal>, NoMemory>
    requires { IsBook book.old }
    ensures { IsBook book.new }
{
    let call = call_of(alloc, ask)?;
    let answer = refusal(book, rt, lane, &call, room);
    assert!(rt; (lane as usize) < book.lanes.len());
    if let Some(refused) = answer {
        book.refuse(lane, &call, refused);
    }
    Ok(answer)
}

/// No block is free from then on.
pub fn fill(book: &mut Book<Nothing>, rt: &impl Abort)
    requires { IsBook book.old }
    ensures { IsBook book.new }
{
    for block in 2..16 {
        assert!(rt; (block as usize) < book.blocks.len());
        book.blocks.set(block, Standing::Pending);
    }
}
