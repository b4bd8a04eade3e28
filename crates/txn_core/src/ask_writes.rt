// A write is asked.
ghost use Rattle.std.specs.Prelude.{◌≡◌, ◌<◌, ◌≤◌, true, length, OnOk, OnErr};
ghost use Rattle.region_layout.specs.Layout.{layout_shape, IsDataWord};
ghost use Rattle.lane_types.specs.declared.call.Call.TheVariants as Call;
ghost use Rattle.lane_types.specs.declared.call.Phase.TheVariants as Phase;
ghost use Rattle.lane_book.specs.declared.lane.Doing.TheVariants as Doing;
ghost use Rattle.lane_book.specs.FacesOf.{lane_at};
ghost use Rattle.lane_book.specs.Refusals.{is_mine, block_in};
ghost use Rattle.log_keeper.specs.Keeper.{keeping_of};
ghost use Rattle.txn_core.specs.Exact.{KeepsBeside, MayMake};
ghost use Rattle.txn_core.specs.Asking.{IsAsked, IsUnasked, LacksMemory, need_for, room_for};
ghost use Rattle.txn_core.specs.States.{HasWorld};

use crate::ask_memory::take_memory;
use crate::ask_wants::write_wants;
use lane_book::Book;
use lane_traits::Device;
use lane_types::Deed;
use log_keeper::LogKeeper;
use persist_model::NoMemory;
use region_layout::Layout;

/// A write of a word that the lane holds, for which the log has room, is the lane's call. After `NoMemory` no face is another.
pub(crate) fn ask_write<D: Device, E: Deed>(
    device: &mut D,
    layout: Layout,
    log: &mut LogKeeper,
    book: &mut Book<E>,
    lane: u32,
    a: u32,
    v: u64,
) -> Result<(), NoMemory>
    requires lane { lane < length book.old.lanes.items }
    requires nothing { (lane_at book.old lane).doing ≡ Doing.Nothing }
    requires phase { (lane_at book.old lane).phase ≡ Phase.In }
    requires data_word { IsDataWord (layout_shape layout) a }
    requires own { is_mine book.old.blocks (lane_at book.old lane) (block_in layout a) ≡ true }
    requires room { need_for {E = E} layout book.old lane (Call.Write a v) ≤ room_for layout (D.words device.old) lane }
    requires world { HasWorld E.meaning layout book.old log.old (D.cells device.old) (D.spare device.old) (D.counts device.old) }
    ensures cells { D.cells device.new ≡ D.cells device.old }
    ensures counts { D.counts device.new ≡ D.counts device.old }
    ensures log { keeping_of log.new ≡ keeping_of log.old }
    ensures asked { OnOk result (IsAsked E.meaning layout (Call.Write a v) book.old book.new log.old log.new (D.cells device.old) (D.spare device.old) (D.spare device.new) (D.counts device.old) lane) }
    ensures lacks { OnErr result (LacksMemory E.meaning layout book.old book.new log.old log.new (D.cells device.old) (D.spare device.old) (D.spare device.new) (D.counts device.old) lane) }
    ensures unasked { OnErr result (IsUnasked book.old book.new log.old log.new (D.spare device.old) (D.spare device.new) lane) }
    ensures beside { KeepsBeside book.old book.new lane }
    ensures owes { OnOk result (MayMake layout (Call.Write a v) book.old book.new lane) }
{
    match take_memory(
        device,
        log,
        book,
        lane,
        lane % layout.partitions,
        write_wants(layout),
    ) {
        Ok(()) => book.ask_write(lane, a, v),
        Err(refused) => Err(refused),
    }
}
