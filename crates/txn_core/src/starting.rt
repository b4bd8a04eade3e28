//! Where a world begins: a region at rest, fresh lanes, and a log without a record.
ghost use Rattle.std.specs.Prelude.{◌≡◌, ◌≤◌, length, slice_index, IfOk, IfErr};
ghost use Rattle.persist_model.specs.Region.{AreSettled};
ghost use Rattle.persist_model.specs.Shape.{words_of_shape};
ghost use Rattle.region_layout.specs.Layout.{layout_shape};
ghost use Rattle.rest_check.specs.Rest.{IsRestCause};
ghost use Rattle.txn_core.specs.Starting.{IsForced, Prepares, Starts};

use lane_book::Book;
use lane_traits::Device;
use lane_types::Deed;
use log_keeper::LogKeeper;
use offset_alloc::Blocks;
use persist_model::{List, NoMemory};
use region_layout::Layout;
use rest_check::{RestFault, check_rest};
use std::alloc::Global;

/// What a world begins with.
#[derive(Drop)]
pub struct Begun<D, E> {
    pub device: D,
    pub layout: Layout,
    pub book: Book<E>,
    pub log: LogKeeper,
}

// The book and the log's keeper of a region without a record.
fn prepare<D: Device, E: Deed>(
    alloc: Global,
    device: &D,
    layout: Layout,
    lanes: u32,
    sorts: List<u64>,
) -> Result<(Book<E>, LogKeeper), NoMemory>
    requires { length (D.words device.now) ≡ words_of_shape (layout_shape layout) }
    ensures { IfOk result (λ made. Prepares lanes sorts (D.words device.now) layout made.0 made.1) }
{
    let log = LogKeeper::new(alloc, layout.partitions, &[], 1)?;
    let blocks = Blocks::rebuild(alloc, device, layout)?;
    let book = Book::new(alloc, lanes, blocks, sorts)?;
    Ok((book, log))
}

// What a world on this device begins with, beside the device.
fn read_start<D: Device, E: Deed>(
    alloc: Global,
    device: &D,
    lanes: u32,
    sorts: List<u64>,
) -> Result<(Layout, Book<E>, LogKeeper), RestFault>
    requires some { 1 ≤ lanes }
    requires few { lanes ≤ 16 }
    requires settled { AreSettled (D.cells device.now) }
    requires force { IsForced (D.words device.now) }
    ensures starts { IfOk result (λ made. Starts E.meaning lanes sorts (D.words device.now) (D.cells device.now) (D.spare device.now) (D.counts device.now) made.0 made.1 made.2) }
    ensures cause { IfErr result (IsRestCause (length (D.words device.now)) (slice_index (D.words device.now))) }
{
    let layout = match check_rest(alloc, device) {
        Ok(layout) => layout,
        Err(fault) => return Err(fault),
    };
    match prepare(alloc, device, layout, lanes, sorts) {
        Ok((book, log)) => Ok((layout, book, log)),
        Err(_) => Err(RestFault::NoMemory),
    }
}

/// A world of so many lanes begins on the device, whose words are settled: no event is made.
///
/// It is refused where the words are no sound image, where they are one that isn't recovered, and for want of memory. The device then comes back
/// as it was. Otherwise no lane has begun anything, no commit is in the history or in flight, and the blocks are those that the heap's owner words
/// tell: what stood at the start is what the words of the device say, whose policy is force.
pub fn start<D: Device, E: Deed>(
    alloc: Global,
    device: D,
    lanes: u32,
    sorts: List<u64>,
) -> Result<Begun<D, E>, (RestFault, D)>
    requires some { 1 ≤ lanes }
    requires few { lanes ≤ 16 }
    requires settled { AreSettled (D.cells device) }
    requires force { IsForced (D.words device) }
    ensures starts { IfOk result (λ made. Starts E.meaning lanes sorts (D.words device) (D.cells device) (D.spare device) (D.counts device) made.layout made.book made.log) }
    ensures same { IfOk result (λ made. made.device ≡ device) }
    ensures cause { IfErr result (λ refused. IsRestCause (length (D.words device)) (slice_index (D.words device)) refused.0) }
    ensures back { IfErr result (λ refused. refused.1 ≡ device) }
{
    match read_start(alloc, &device, lanes, sorts) {
        Ok((layout, book, log)) => Ok(Begun {
            device,
            layout,
            book,
            log,
        }),
        Err(fault) => Err((fault, device)),
    }
}
