// How a lane comes to append: it takes the latch of its partition, where that is free, and begins.
ghost use Rattle.log_keeper.specs.declared.slots.TheConstants.{NOBODY};
ghost use Rattle.std.specs.Prelude.{◌≡◌, ◌≢◌, ◌%◌, ◌<◌, ◌≤◌, ◌^◌, length};
ghost use Rattle.lane_book.specs.FacesOf.{lane_at};
ghost use Rattle.lane_book.specs.Books.{IsBook};
ghost use Rattle.log_keeper.specs.Keeper.{keeping_of, free_places};
ghost use Rattle.txn_state.specs.ReadLaws.{HasLogs, room_seen};
ghost use Rattle.txn_core.specs.Beginning.{Begins};

use bucket_log::place;
use lane_book::Book;
use lane_traits::Device;
use log_keeper::{LogKeeper, NOBODY};
use log_partition::PartView;
use region_layout::{Cell, Layout};

/// The lane takes the latch of its partition and begins to append the record of this cell, where it hasn't yet. Another lane that holds the latch is
/// given back, and then nothing is done.
pub fn begin<D: Device, E>(
    device: &D,
    layout: Layout,
    log: &mut LogKeeper,
    book: &mut Book<E>,
    lane: u32,
    cell: Cell,
) -> Option<u32>
    requires lane { lane < length book.old.lanes.items }
    requires slots { length log.old.slots.items ≡ layout.partitions }
    requires logs { HasLogs layout (D.words device.now) }
    requires room { (keeping_of log.old).holder (lane % layout.partitions) ≡ NOBODY → room_seen layout (lane % layout.partitions) (D.words device.now) ≢ 0 }
    requires owed { (keeping_of log.old).holder (lane % layout.partitions) ≡ NOBODY → 1 ≤ (lane_at book.old lane).owed_records }
    requires places { (keeping_of log.old).holder (lane % layout.partitions) ≡ NOBODY → 1 ≤ free_places log.old }
    requires numbers { log.old.next_lsn < 2 ^ 63 }
    requires book { IsBook book.old }
    ensures begins { Begins layout log.old log.new book.old book.new (D.words device.now) lane cell result }
    ensures book { IsBook book.new }
{
    let p = lane % layout.partitions;
    let holder = log.slots[p as usize].holder;
    if holder == lane {
        return None;
    }
    if holder != NOBODY {
        return Some(holder);
    }
    let view = PartView::new(device, layout, p);
    // There is one, since the room isn't 0.
    let Some(found) = place(&view, layout, layout.part(p)) else {
        return None;
    };
    log.take_latch(p, lane);
    log.begin_append(p, found, cell);
    book.pay_record(lane);
    None
}
