// A step of what a lane appends or closes, with its answer where the call goes on as it was.
ghost use Rattle.std.specs.Prelude.{◌≡◌, ◌<◌, ◌≤◌, length};
ghost use Rattle.lane_types.specs.declared.call.Phase.TheVariants as Phase;
ghost use Rattle.lane_book.specs.FacesOf.{lane_at};
ghost use Rattle.lane_book.specs.Books.{IsBook};
ghost use Rattle.txn_core.specs.Advancing.{CanRun, CanBegin, RunsBehind, Advances, Appends};

use crate::beginning::begin;
use crate::running::{Ran, run};
use lane_book::Book;
use lane_traits::Device;
use lane_types::{Deed, Stepped, What};
use log_keeper::LogKeeper;
use region_layout::{Cell, Layout};

/// What came of a step of a lane's part.
#[derive(Clone, Copy, Debug, PartialEq, Eq)]
pub enum Went {
    /// The step is answered so, and the call goes on as it was.
    Answered(Stepped),
    /// The gate of the record of this cell is stored. The step isn't answered yet.
    Stored(Cell),
    /// The part is whole, and the lane has its latch still. The step isn't answered yet.
    Whole,
}

/// The next event of the lane's part.
pub fn advance<D: Device, E: Deed>(
    device: &mut D,
    layout: Layout,
    log: &mut LogKeeper,
    book: &mut Book<E>,
    lane: u32,
) -> Went
    requires lane { lane < length book.old.lanes.items }
    requires few { length book.old.lanes.items ≤ 16 }
    requires slots { length log.old.slots.items ≡ layout.partitions }
    requires calling { (lane_at book.old lane).phase ≡ Phase.Calling }
    requires can { CanRun layout log.old (D.cells device.old) (D.spare device.old) book.old lane }
    requires book { IsBook book.old }
    ensures advances { Advances E.meaning layout log.old log.new (D.cells device.old) (D.cells device.new) (D.counts device.old) (D.counts device.new) (D.spare device.old) (D.spare device.new) book.old book.new lane result }
    ensures book { IsBook book.new }
{
    match run(device, layout, log, book, lane) {
        Ran::Stopped => Went::Answered(book.stop(lane)),
        Ran::Going => {
            let part = book.part(lane);
            Went::Answered(book.go_on(lane, part))
        }
        Ran::Stored(cell) => Went::Stored(cell),
        Ran::Whole => Went::Whole,
    }
}

/// The append of the record of this cell is begun, where the lane hasn't yet, and goes on by an event; or the lane waits for the latch.
pub fn append<D: Device, E: Deed>(
    device: &mut D,
    layout: Layout,
    log: &mut LogKeeper,
    book: &mut Book<E>,
    lane: u32,
    cell: Cell,
) -> Went
    requires few { length book.old.lanes.items ≤ 16 }
    requires calling { (lane_at book.old lane).phase ≡ Phase.Calling }
    requires can { CanBegin layout log.old (D.words device.old) book.old lane }
    requires behind { RunsBehind layout log.old (D.words device.old) (D.cells device.old) (D.spare device.old) book.old lane cell }
    requires book { IsBook book.old }
    ensures appends { Appends E.meaning layout log.old log.new (D.words device.old) (D.cells device.old) (D.cells device.new) (D.counts device.old) (D.counts device.new) (D.spare device.old) (D.spare device.new) book.old book.new lane cell result }
    ensures book { IsBook book.new }
{
    let p = lane % layout.partitions;
    if let Some(holder) = begin(device, layout, log, book, lane, cell) {
        return Went::Answered(book.wait(lane, What::Latch(p), holder));
    }
    advance(device, layout, log, book, lane)
}
