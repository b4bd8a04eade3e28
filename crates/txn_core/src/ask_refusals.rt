// Why an ask is refused for any cause but want of memory.
ghost use Rattle.std.specs.Prelude.{◌≡◌, ◌<◌, ◌≤◌, ◌^◌, ◌-◌, min, length};
ghost use Rattle.lane_types.specs.Faces.{Base};
ghost use Rattle.lane_book.specs.FacesOf.{lane_at, faces_of};
ghost use Rattle.lane_book.specs.Refusals.{AreStructures, NamesInside, NamesData, ShowsBlocks, Decides, Told};
ghost use Rattle.txn_state.specs.ReadLaws.{HasLogs};
ghost use Rattle.txn_core.specs.Asking.{room_for, need_for};

use bucket_log::room;
use lane_book::Book;
use lane_traits::Device;
use lane_types::{Call, Refusal};
use log_partition::PartView;
use region_layout::Layout;

// How many records more there is room for in the lane's partition.
fn lane_room<D: Device>(device: &D, layout: Layout, lane: u32) -> u64
    requires logs { HasLogs layout (D.words device.now) }
    ensures { result ≡ room_for layout (D.words device.now) lane }
{
    let p = lane % layout.partitions;
    let view = PartView::new(device, layout, p);
    room(&view, layout, layout.part(p))
}

/// Why the lane's call is refused, for any cause but want of memory. A need above the greatest number stands as that.
pub(crate) fn refusal<D: Device, E>(
    device: &D,
    layout: Layout,
    book: &Book<E>,
    lane: u32,
    call: &Call<E>,
) -> Option<Refusal>
    requires lane { lane < length book.now.lanes.items }
    requires few { length book.now.lanes.items ≤ 16 }
    requires logs { HasLogs layout (D.words device.now) }
    requires many { length book.now.blocks ≡ layout.blocks }
    requires structures { AreStructures book.now.blocks }
    requires inside { NamesInside layout call.now }
    ensures decides { Decides layout (room_for layout (D.words device.now) lane) (min (need_for layout book.now lane call.now) (2 ^ 64 - 1)) book.now.blocks (lane_at book.now lane) call.now result }
    ensures told { (base : Base) → ShowsBlocks layout book.now lane base → NamesData base layout call.now
        → Told (faces_of base book.now lane) call.now result }
{
    let found = lane_room(device, layout, lane);
    let need = book.need(u64::from(layout.cells), layout.partitions, 0, lane, call);
    book.refusal(layout, lane, call, found, need)
}
