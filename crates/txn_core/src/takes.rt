// A take: behind the append of its update its owner word is stored.
ghost use Rattle.std.specs.Prelude.{◌≡◌, ◌<◌, length};
ghost use Rattle.lane_book.specs.FacesOf.{lane_at};
ghost use Rattle.lane_book.specs.declared.lane.Doing.TheVariants as Doing;
ghost use Rattle.txn_state.specs.Stages.{Storing, stage_of};
ghost use Rattle.txn_core.specs.Exact.{GoesExactly};
ghost use Rattle.txn_core.specs.States.{HasWorld};
ghost use Rattle.txn_core.specs.Stepping.{StepsWorld};

use crate::events::make;
use lane_book::Book;
use lane_traits::{Device, Done};
use lane_types::{Deed, Stepped};
use log_keeper::LogKeeper;
use persist_model::Event;
use region_layout::Layout;

// The owner word is stored, and the take is answered.
pub(crate) fn store_owner<D: Device, E: Deed>(
    device: &mut D,
    layout: Layout,
    log: &mut LogKeeper,
    book: &mut Book<E>,
    lane: u32,
    structure: u32,
    block: u32,
) -> Stepped
    requires lane { lane < length book.old.lanes.items }
    requires doing { (lane_at book.old lane).doing ≡ Doing.Take structure block }
    requires inside { block < layout.blocks }
    requires stage { stage_of (lane_at book.old lane) ≡ Storing }
    requires world { HasWorld E.meaning layout book.old log.old (D.cells device.old) (D.spare device.old) (D.counts device.old) }
    ensures steps { StepsWorld E.meaning layout book.old book.new log.old log.new (D.cells device.old) (D.cells device.new) (D.spare device.old) (D.spare device.new) (D.counts device.old) (D.counts device.new) lane result }
    ensures exact { GoesExactly layout book.old book.new log.old (D.counts device.old) (D.counts device.new) lane result }
{
    let a = layout.block(block);
    match make(
        device,
        book,
        lane,
        Event::PStore(a, u64::from(structure) + 1),
    ) {
        Done::Stopped => book.stop(lane),
        Done::Made => book.taken(lane, structure, block, a),
    }
}
