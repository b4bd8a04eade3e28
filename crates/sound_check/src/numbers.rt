//! The rule on room and on numbers.
ghost use Rattle.std.specs.Prelude.{◌≡◌, ◌↔◌, ◌+◌, ◌-◌, ◌<◌, ◌≤◌, ◌^◌, ◌==◌, ◌&&◌, ◌||◌, not, nat_lt, ℕ, min, IsTrue, if◌then◌else◌};
ghost use Rattle.std.specs.List.{list_any};
ghost use Rattle.persist_model.specs.Kinds.{CHECKPOINT};
ghost use Rattle.persist_model.specs.Shape.{part_of as part_of_shape};
ghost use Rattle.persist_model.specs.Records.{Record, Log, IsAmong};
ghost use Rattle.persist_model.specs.Need.{need_of as need_of_log, need_in};
ghost use Rattle.persist_model.specs.State.{HasOpen, HasRoom, HasNumbers, total_need as total_need_of};
ghost use Rattle.region_layout.specs.Layout.{layout_shape};
ghost use Rattle.log_tables.specs.Rows.{log_of_rows};
ghost use Rattle.sound_check.specs.Rows.{IsDrawn, has_checkpoint_behind};
ghost use Rattle.log_tables.specs.Tables.{IsSummary, AreSummaries, is_end_below, summary_of};
ghost use Rattle.log_tables.specs.Homes.{share_of, AreHomes, AreTransactions};

use bucket_log::Placed;
use log_tables::{Home, Summaries, Summary, Transactions};
use persist_model::RecordKind;
use region_layout::{Layout, Policy};

/// The greatest number that a record may have.
const MAX_NUMBER: u64 = 0x8000_0000_0000_0000;

// ---- what recovery needs

// How many records the undo of a transaction appends beside the compensations.
fn frame(has_rollback: bool) -> u64
    ensures { result ≡ (if has_rollback then 0 else 1) + 1 }
{
    if has_rollback { 1 } else { 2 }
}

// How many cells the undo of a transaction takes. A sum above the greatest number stands as that.
fn need_of(own: Summary) -> u64
    ensures { (part : ℕ → ℕ) (t : ℕ) (log : Log) → IsSummary part own t log → result ≡ min (need_of_log log t) (2 ^ 64 - 1) }
{
    if own.first_end.is_some() {
        return 0;
    }
    own.undo_count.saturating_add(frame(own.has_rollback))
}

// What a transaction adds to the need of a partition: its own, where its home is there.
fn share(whole: &Summaries, home: Home, p: u32) -> u64
    ensures { (part : ℕ → ℕ) (log : Log) → AreSummaries part whole.now log → result ≡ min (share_of p (need_of_log log) home) (2 ^ 64 - 1) }
{
    if home.part == p {
        need_of(whole.of(home.transaction))
    } else {
        0
    }
}

// The need of a partition. A sum above the greatest number stands as that.
fn need(all: &Transactions, p: u32) -> u64
    ensures { (part : ℕ → ℕ) (log : Log) → AreTransactions part all.now log → result ≡ min (need_in part p log) (2 ^ 64 - 1) }
{
    let mut sum: u64 = 0;
    for home in &all.homes {
        sum = sum.saturating_add(share(&all.summaries, *home, p));
    }
    sum
}

// The need of so many partitions.
fn total_need(all: &Transactions, partitions: u32) -> u64
    ensures { (part : ℕ → ℕ) (log : Log) → AreTransactions part all.now log → result ≡ min (total_need_of part partitions log) (2 ^ 64 - 1) }
{
    let mut sum: u64 = 0;
    for p in 0..partitions {
        sum = sum.saturating_add(need(all, p));
    }
    sum
}

// ---- whether recovery writes a checkpoint record

// The greatest number of a checkpoint record, or 0.
fn newest_checkpoint(rows: &[Placed]) -> u64
    ensures { (n : ℕ) → nat_lt n result ≡ has_checkpoint_behind n (log_of_rows rows.now) }
{
    let mut newest = 0;
    for s in rows {
        newest = newest_behind(s, newest);
    }
    newest
}

// The same behind a record.
fn newest_behind(s: &Placed, newest: u64) -> u64
    ensures { (n : ℕ) → nat_lt n result ≡ (((s.now.cell.kind == CHECKPOINT) && nat_lt n s.now.cell.lsn) || nat_lt n newest) }
{
    if !s.cell.is(RecordKind::Checkpoint) {
        return newest;
    }
    newest.max(s.cell.lsn)
}

// Whether a transaction's end is older than the newest checkpoint record.
fn is_skipped(own: Summary, newest: u64) -> bool
    ensures { result ≡ is_end_below own.first_end newest }
{
    match own.first_end {
        Some(number) => number < newest,
        None => false,
    }
}

// Whether there is a running transaction, or an ended one whose end isn't older than this number.
fn has_unskipped(whole: &Summaries, newest: u64, rows: &[Placed]) -> bool
    ensures { result ≡ list_any (λ r. not (r.cell.kind == CHECKPOINT) && not (is_end_below (summary_of whole.now r.cell.transaction).first_end newest)) rows.now }
{
    rows.iter().any(|r| {
        !r.cell.is(RecordKind::Checkpoint) && !is_skipped(whole.of(r.cell.transaction), newest)
    })
}

// Whether there is a running transaction, or an ended one that isn't skipped.
fn is_open(whole: &Summaries, rows: &[Placed]) -> bool
    requires { (part : ℕ → ℕ) × AreSummaries part whole.now (log_of_rows rows.now) }
    ensures { IsTrue result ↔ HasOpen (log_of_rows rows.now) }
{
    has_unskipped(whole, newest_checkpoint(rows), rows)
}

// Whether recovery would write a checkpoint record.
fn is_checkpointed(layout: Layout, whole: &Summaries, rows: &[Placed]) -> bool
    requires { AreSummaries (part_of_shape (layout_shape layout)) whole.now (log_of_rows rows.now) }
    ensures { IsTrue result ↔ (((layout_shape layout).policy ≡ 2) × HasOpen (log_of_rows rows.now)) }
{
    match layout.policy {
        Policy::NoForce => is_open(whole, rows),
        Policy::Force => false,
    }
}

// ---- the rule

/// Whether a partition with this much room has enough, by the transactions of these records.
pub(crate) fn has_room(
    layout: Layout,
    all: &Transactions,
    rows: &[Placed],
    p: u32,
    room: u64,
) -> bool
    requires all { AreTransactions (part_of_shape (layout_shape layout)) all.now (log_of_rows rows.now) }
    requires small { room < 2 ^ 63 }
    ensures { IsTrue result ↔ HasRoom (layout_shape layout) (log_of_rows rows.now) p room }
{
    let need = need(all, p);
    if p == 0 && is_checkpointed(layout, &all.summaries, rows) {
        return need < room;
    }
    need <= room
}

// How many numbers recovery would draw. A sum above the greatest number of 64 bits stands as that.
fn drawn(layout: Layout, all: &Transactions, rows: &[Placed]) -> u64
    requires { AreTransactions (part_of_shape (layout_shape layout)) all.now (log_of_rows rows.now) }
    ensures { IsDrawn (layout_shape layout) (log_of_rows rows.now) result }
{
    let total = total_need(all, layout.partitions);
    if is_checkpointed(layout, &all.summaries, rows) {
        return total.saturating_add(1);
    }
    total
}

// Whether so many numbers behind this one are too many.
fn exceeds(number: u64, count: u64) -> bool
    ensures { result ≡ nat_lt (2 ^ 63) (number + count) }
{
    number > MAX_NUMBER || count > MAX_NUMBER - number
}

// Whether so many numbers behind some record are too many.
fn is_exceeded(rows: &[Placed], count: u64) -> bool
    ensures { result ≡ list_any (λ r. nat_lt (2 ^ 63) (r.cell.lsn + count)) rows.now }
{
    rows.iter().any(|r| exceeds(r.cell.lsn, count))
}

/// Whether recovery draws numbers up to the greatest one at most, by the transactions of these records.
pub(crate) fn keeps_numbers(layout: Layout, all: &Transactions, rows: &[Placed]) -> bool
    requires { AreTransactions (part_of_shape (layout_shape layout)) all.now (log_of_rows rows.now) }
    ensures { IsTrue result ↔ ((r : Record) → IsAmong (log_of_rows rows.now) r → HasNumbers (layout_shape layout) (log_of_rows rows.now) r) }
{
    !is_exceeded(rows, drawn(layout, all, rows))
}
