// An event of a lane on its own words.
ghost use Rattle.std.specs.Prelude.{◌≡◌, ◌<◌, ◌≤◌, length, slice_index, None};
ghost use Rattle.lane_traits.specs.Device.{IsWithin};
ghost use Rattle.region_layout.specs.Layout.{layout_shape, IsDataWord};
ghost use Rattle.lane_book.specs.FacesOf.{lane_at};
ghost use Rattle.lane_book.specs.Books.{IsBook};
ghost use Rattle.txn_core.specs.Making.{Makes, changed_word};

use lane_book::Book;
use lane_traits::{Device, Done};
use persist_model::Event;
use region_layout::Layout;

/// The event is made, and the lane's book pays for it. After `Stopped` the book and the words are as they were.
pub fn make<D: Device, E>(device: &mut D, book: &mut Book<E>, lane: u32, event: Event) -> Done
    requires lane { lane < length book.old.lanes.items }
    requires few { length book.old.lanes.items ≤ 16 }
    requires address { IsWithin (D.cells device.old).size event }
    requires owed { 1 ≤ (lane_at book.old lane).owed_events }
    requires spare { 1 ≤ D.spare device.old }
    requires book { IsBook book.old }
    ensures makes { Makes event (D.cells device.old) (D.cells device.new) (D.counts device.old) (D.counts device.new) (D.spare device.old) (D.spare device.new) book.old book.new lane result }
    ensures book { IsBook book.new }
{
    match device.event(lane, event) {
        Done::Stopped => Done::Stopped,
        Done::Made => {
            book.pay_event(lane);
            Done::Made
        }
    }
}

// The word at address `a`, where its value is another than `v`.
pub(crate) fn changed<D: Device>(device: &D, a: u32, v: u64) -> Option<u32>
    requires { a < length (D.words device.now) }
    ensures { result ≡ changed_word (slice_index (D.words device.now) a) v a }
{
    if device.word(a) == v { None } else { Some(a) }
}

// The same where it is a data word of the heap, and none where it is the owner word of a block.
pub(crate) fn changed_data<D: Device>(device: &D, layout: Layout, a: u32, v: u64) -> Option<u32>
    requires { a < length (D.words device.now) }
    ensures data_word { IsDataWord (layout_shape layout) a → result ≡ changed_word (slice_index (D.words device.now) a) v a }
    ensures owner { (IsDataWord (layout_shape layout) a → ⊥) → result ≡ None }
{
    if layout.is_data(a) {
        changed(device, a, v)
    } else {
        None
    }
}
