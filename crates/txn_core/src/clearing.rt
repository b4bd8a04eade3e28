// Behind the end's fence: its transaction's records are closed, then the end, and buckets with only closed gates are taken out, all under the latch.
ghost use Rattle.std.specs.Prelude.{◌≡◌, ◌⊎◌, ◌%◌, ◌<◌, length, None};
ghost use Rattle.persist_model.specs.Shape.{IsHeapWord};
ghost use Rattle.region_layout.specs.Layout.{layout_shape};
ghost use Rattle.lane_types.specs.declared.call.Stepped.TheVariants as Stepped;
ghost use Rattle.lane_book.specs.declared.lane.Doing.TheVariants as Doing;
ghost use Rattle.lane_book.specs.FacesOf.{lane_at};
ghost use Rattle.lane_book.specs.Lanes.{left};
ghost use Rattle.lane_book.specs.Refusals.{AreHeapWords};
ghost use Rattle.lane_book.specs.Steps.{HasEntered};
ghost use Rattle.lane_book.specs.Calls.{IsCalling, Moves};
ghost use Rattle.log_keeper.specs.Parts.{rests};
ghost use Rattle.log_keeper.specs.Keeper.{keeping_of};
ghost use Rattle.txn_state.specs.ClosingLaws.{end_reply, HasCleared};
ghost use Rattle.txn_state.specs.ReadLaws.{HasLogs};
ghost use Rattle.txn_state.specs.Stages.{Closing, stage_of, is_commit};
ghost use Rattle.txn_core.specs.Exact.{GoesExactly};
ghost use Rattle.txn_core.specs.Clearing.{Clears};
ghost use Rattle.txn_core.specs.Freeing.{freed_one, freed, blocks_left, with_blocks};
ghost use Rattle.txn_core.specs.Phases.{IsPhased};
ghost use Rattle.txn_core.specs.States.{HasWorld};
ghost use Rattle.txn_core.specs.Stepping.{StepsWorld};

use crate::advancing::{Went, advance};
use lane_book::{Book, Doing};
use lane_traits::{Device, WordWrite};
use lane_types::{Deed, Stepped};
use log_clearing::removal;
use log_keeper::LogKeeper;
use log_partition::PartView;
use offset_alloc::{Blocks, Standing};
use region_layout::Layout;
use txn_state::parts::{CLOSE_END, DROP};

// Where this is the owner word of a block, the block is free.
fn free_owned(layout: Layout, a: u32, blocks: &mut Blocks)
    requires inside { IsHeapWord (layout_shape layout) a }
    requires many { length blocks.old ≡ layout.blocks }
    ensures { blocks.new ≡ freed_one layout a blocks.old }
{
    let offset = a - layout.heap();
    if offset % 16 == 0 {
        blocks.set(offset / 16, Standing::Free);
    }
}

// Each block whose owner word is among these writes is free.
fn free_taken(layout: Layout, writes: &[WordWrite], blocks: &mut Blocks)
    requires inside { AreHeapWords layout writes.now }
    requires many { length blocks.old ≡ layout.blocks }
    ensures { blocks.new ≡ freed layout writes.now blocks.old }
{
    for write in writes {
        free_owned(layout, write.address, blocks);
    }
}

// The call that ends a transaction is answered. What an aborted one took is free.
fn end<E: Deed>(book: &mut Book<E>, layout: Layout, lane: u32) -> Stepped
    requires calling { IsCalling book.old lane }
    requires doing { ((lane_at book.old lane).doing ≡ Doing.Commit) ⊎ ((lane_at book.old lane).doing ≡ Doing.Abort) }
    requires entered { (lane_at book.old lane).doing ≡ Doing.Commit → HasEntered book.old lane }
    requires inside { AreHeapWords layout (lane_at book.old lane).writes.items }
    requires many { length book.old.blocks ≡ layout.blocks }
    ensures moves { Moves E.meaning (with_blocks (blocks_left layout (is_commit (lane_at book.old lane).doing) (lane_at book.old lane) book.old.blocks) book.old) book.new lane None result (left (end_reply (is_commit (lane_at book.old lane).doing)) (lane_at book.old lane)) }
    ensures result { result ≡ Stepped.Answered (end_reply (is_commit (lane_at book.old lane).doing)) }
{
    match book.doing(lane) {
        Doing::Commit => book.committed(lane),
        _ => {
            free_taken(
                layout,
                book.lanes[lane as usize].writes.as_slice(),
                &mut book.blocks,
            );
            book.aborted(lane)
        }
    }
}

// The next bucket of the lane's partition that has only closed gates is taken out; where there is none the latch is let go, and the call is answered.
fn clear_next<D: Device, E: Deed>(
    device: &D,
    layout: Layout,
    log: &mut LogKeeper,
    book: &mut Book<E>,
    lane: u32,
) -> Stepped
    requires calling { IsCalling book.old lane }
    requires doing { ((lane_at book.old lane).doing ≡ Doing.Commit) ⊎ ((lane_at book.old lane).doing ≡ Doing.Abort) }
    requires entered { (lane_at book.old lane).doing ≡ Doing.Commit → HasEntered book.old lane }
    requires inside { AreHeapWords layout (lane_at book.old lane).writes.items }
    requires many { length book.old.blocks ≡ layout.blocks }
    requires slots { length log.old.slots.items ≡ layout.partitions }
    requires rests { ((keeping_of log.old).runs (lane % layout.partitions)).part ≡ rests }
    requires logs { HasLogs layout (D.words device.now) }
    ensures { Clears E.meaning layout log.old log.new (D.words device.now) book.old book.new lane result }
{
    let p = lane % layout.partitions;
    let view = PartView::new(device, layout, p);
    match removal(&view, layout) {
        Some(found) => {
            log.begin_removal(p, found);
            book.go_on(lane, DROP)
        }
        None => {
            log.release_latch(p);
            end(book, layout, lane)
        }
    }
}

// The transaction's records but its end are closed.
pub(crate) fn close_records<D: Device, E: Deed>(
    device: &mut D,
    layout: Layout,
    log: &mut LogKeeper,
    book: &mut Book<E>,
    lane: u32,
) -> Stepped
    requires lane { lane < length book.old.lanes.items }
    requires stage { stage_of (lane_at book.old lane) ≡ Closing }
    requires world { HasWorld E.meaning layout book.old log.old (D.cells device.old) (D.spare device.old) (D.counts device.old) }
    ensures steps { StepsWorld E.meaning layout book.old book.new log.old log.new (D.cells device.old) (D.cells device.new) (D.spare device.old) (D.spare device.new) (D.counts device.old) (D.counts device.new) lane result }
    ensures exact { GoesExactly layout book.old book.new log.old (D.counts device.old) (D.counts device.new) lane result }
{
    let transaction = book.lanes[lane as usize].transaction;
    match advance(device, layout, log, book, lane) {
        Went::Answered(answer) => answer,
        // No append is under way.
        Went::Stored(_) => book.stop(lane),
        Went::Whole => {
            log.begin_closing_end(lane % layout.partitions, transaction);
            book.go_on(lane, CLOSE_END)
        }
    }
}

// Its end is closed, or a bucket is taken out.
pub(crate) fn clear_further<D: Device, E: Deed>(
    device: &mut D,
    layout: Layout,
    log: &mut LogKeeper,
    book: &mut Book<E>,
    lane: u32,
) -> Stepped
    requires lane { lane < length book.old.lanes.items }
    requires stage { HasCleared (lane_at book.old lane) }
    requires phased { IsPhased (lane_at book.old lane) }
    requires world { HasWorld E.meaning layout book.old log.old (D.cells device.old) (D.spare device.old) (D.counts device.old) }
    ensures steps { StepsWorld E.meaning layout book.old book.new log.old log.new (D.cells device.old) (D.cells device.new) (D.spare device.old) (D.spare device.new) (D.counts device.old) (D.counts device.new) lane result }
    ensures exact { GoesExactly layout book.old book.new log.old (D.counts device.old) (D.counts device.new) lane result }
{
    match advance(device, layout, log, book, lane) {
        Went::Answered(answer) => answer,
        // No append is under way.
        Went::Stored(_) => book.stop(lane),
        Went::Whole => clear_next(device, layout, log, book, lane),
    }
}
