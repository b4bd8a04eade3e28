//! The rule on the room of partitions, and all rules of the log.
ghost use Rattle.std.specs.Prelude.{◌≡◌, ◌<◌, ◌≤◌, ◌^◌, ◌+◌, ℕ, length, slice_index, OnOk, IfErr};
ghost use Rattle.persist_model.specs.ImageRules.{rule_number};
ghost use Rattle.persist_model.specs.State.{State, HasRoom};
ghost use Rattle.persist_model.specs.Sound.{HasState};
ghost use Rattle.region_layout.specs.Layout.{layout_shape};
ghost use Rattle.log_partition.specs.Merging.{AreLogsOf};
ghost use Rattle.persist_model.specs.Shape.{part_of};
ghost use Rattle.log_tables.specs.Homes.{AreTransactions};
ghost use Rattle.sound_check.specs.Faulty.{IfUnsound};
ghost use Rattle.log_tables.specs.Rows.{log_of_rows};
ghost use Rattle.sound_check.specs.Logs.{HasAllRoom, LacksRoom, HoldsLog, HasLogFault};

use crate::fault::CheckFault;
use crate::formed::try_records;
use crate::numbers::{has_room, keeps_numbers};
use crate::order::try_order;
use bucket_log::{Placed, room};
use log_partition::PartView;
use log_tables::{Transactions, read_transactions};
use persist_model::format::list_words;
use persist_model::{ImageRule, Look};
use region_layout::{ImageFault, Layout};
use std::alloc::Global;

/// The address of a fault of the numbers: the first TAIL.
const NUMBERS_ADDRESS: u32 = 9;

// How many records a partition has room for.
fn room_of_part<W: Look>(words: &W, layout: Layout, p: u32) -> u64
    requires part { p < layout.partitions }
    requires logs { AreLogsOf layout (length (W.words words.now)) (slice_index (W.words words.now)) }
    ensures room { (s : State) → HasState (layout_shape layout) (slice_index (W.words words.now)) s → result ≡ s.room p }
    ensures small { result < 2 ^ 63 }
{
    let view = PartView::new(words, layout, p);
    room(&view, layout, layout.part(p))
}

// Tries the room of each partition.
fn try_room<W: Look>(
    words: &W,
    layout: Layout,
    all: &Transactions,
    rows: &[Placed],
) -> Result<(), ImageFault>
    requires logs { AreLogsOf layout (length (W.words words.now)) (slice_index (W.words words.now)) }
    requires all { AreTransactions (part_of (layout_shape layout)) all.now (log_of_rows rows.now) }
    ensures ok { OnOk result (HasAllRoom (layout_shape layout) (slice_index (W.words words.now)) (log_of_rows rows.now)) }
    ensures fault { IfErr result (λ found. LacksRoom (layout_shape layout) (slice_index (W.words words.now)) (log_of_rows rows.now) (rule_number found.rule) found.address) }
{
    for p in 0..layout.partitions {
        if !has_room(layout, all, rows, p, room_of_part(words, layout, p)) {
            return Err(ImageFault {
                rule: ImageRule::Room,
                address: list_words(p) + 1,
            });
        }
    }
    Ok(())
}

/// Tries the rules of the log whose records these are: records, order, room and numbers.
pub(crate) fn try_log<W: Look>(
    alloc: Global,
    words: &W,
    layout: Layout,
    rows: &[Placed],
) -> Result<(), CheckFault>
    requires { AreLogsOf layout (length (W.words words.now)) (slice_index (W.words words.now)) }
    ensures ok { OnOk result (HoldsLog (layout_shape layout) (slice_index (W.words words.now)) (log_of_rows rows.now)) }
    ensures fault { IfErr result (λ e. IfUnsound e (HasLogFault (layout_shape layout) (slice_index (W.words words.now)) (log_of_rows rows.now))) }
{
    try_records(layout, rows)?;
    let all = read_transactions(alloc, layout, rows)?;
    try_order(alloc, layout, &all.summaries, rows)?;
    try_room(words, layout, &all, rows)?;
    if !keeps_numbers(layout, &all, rows) {
        return Err(CheckFault::Unsound(ImageFault {
            rule: ImageRule::Room,
            address: NUMBERS_ADDRESS,
        }));
    }
    Ok(())
}
