// What became of a transaction.
ghost use Rattle.std.specs.Prelude.{◌≡◌, ◌↔◌, ◌⊎◌, ℕ, Bool, ◌<◌, ◌≤◌, ◌+◌, ◌-◌, ◌^◌, ◌==◌, ◌&&◌, if◌then◌else◌, nat_lt, length, map, reverse, IsTrue};
ghost use Rattle.std.specs.List.{list_any};
ghost use Rattle.persist_model.specs.Records.{Log, IsAmong, IsRunning, IsCommitted, IsSkipped};
ghost use Rattle.persist_model.specs.Need.{to_undo, need_of};
ghost use Rattle.bucket_log.specs.Scans.{record_of_placed};
ghost use Rattle.recovery_analysis.specs.Grouping.{IsTransactionOf};
ghost use Rattle.recovery_analysis.specs.Fates.{IsNewestCheckpoint};

use crate::grouping::Transaction;
use bucket_log::Placed;
use persist_model::RecordKind;
use persist_model::format::{CHECKPOINT, COMMITTED, COMPENSATION, END, ROLLBACK, UPDATE};
use region_layout::Cell;

// Whether there is a record of this kind.
pub(crate) fn has_kind(records: &[Placed], kind: u64) -> bool
    ensures { result ≡ list_any (λ x. x.cell.kind == kind) records.now }
{
    records.iter().any(|placed| placed.cell.kind == kind)
}

// Whether there is the end of a commit.
fn has_commit(records: &[Placed]) -> bool
    ensures { result ≡ list_any (λ x. (x.cell.kind == END) && (x.cell.outcome == COMMITTED)) records.now }
{
    records.iter().any(|placed| placed.cell.kind == END && placed.cell.outcome == COMMITTED)
}

// Whether there is an end with a number below this one.
fn has_end_below(records: &[Placed], number: u64) -> bool
    ensures { result ≡ list_any (λ x. (x.cell.kind == END) && nat_lt x.cell.lsn number) records.now }
{
    records.iter().any(|placed| placed.cell.kind == END && placed.cell.lsn < number)
}

/// Whether the transaction has no end.
pub fn is_running(transaction: &Transaction) -> bool
    ensures { (log : Log) → IsTransactionOf log transaction.now → IsTrue result ↔ IsRunning log transaction.now.number }
{
    !has_kind(transaction.records.as_slice(), END)
}

/// Whether the transaction has the end of a commit.
pub fn is_committed(transaction: &Transaction) -> bool
    ensures { (log : Log) → IsTransactionOf log transaction.now → IsTrue result ↔ IsCommitted log transaction.now.number }
{
    has_commit(transaction.records.as_slice())
}

/// Whether an end of the transaction is older than the newest checkpoint record, which has this number: all that it changed is
/// in the heap for good.
pub fn is_skipped(transaction: &Transaction, checkpoint: u64) -> bool
    ensures { (log : Log) → IsTransactionOf log transaction.now → IsNewestCheckpoint log checkpoint
        → IsTrue result ↔ IsSkipped log transaction.now.number }
{
    has_end_below(transaction.records.as_slice(), checkpoint)
}

// The newest checkpoint record's number with one record more.
fn later_checkpoint(newest: u64, cell: Cell) -> u64
    ensures { (e : ℕ) → (e < result) ↔ ((e < newest) ⊎ ((cell.kind ≡ CHECKPOINT) × (e < cell.lsn))) }
{
    if cell.kind == CHECKPOINT && newest < cell.lsn {
        cell.lsn
    } else {
        newest
    }
}

/// The number of the newest checkpoint record, or 0 where there is none.
pub fn newest_checkpoint(merged: &[Placed]) -> u64
    ensures { IsNewestCheckpoint (reverse (map record_of_placed merged.now)) result }
{
    let mut newest = 0;
    for placed in merged {
        newest = later_checkpoint(newest, placed.cell);
    }
    newest
}

// How many updates wait to be undone with one record more: a compensation closes the newest.
fn waiting_with(waiting: usize, cell: Cell) -> usize
    requires { waiting + 1 < 2 ^ 64 }
    ensures { result ≡ (if cell.kind == UPDATE then waiting + 1 else (if cell.kind == COMPENSATION then waiting - 1 else waiting)) }
{
    match cell.record_kind() {
        Some(RecordKind::Update) => waiting + 1,
        Some(RecordKind::Compensation) => waiting.saturating_sub(1),
        Some(RecordKind::Rollback)
        | Some(RecordKind::End)
        | Some(RecordKind::Checkpoint)
        | Some(RecordKind::Deletion) => waiting,
        None => waiting,
    }
}

// How many updates of a transaction no compensation names, by its records.
fn waiting_updates(records: &[Placed]) -> usize
    ensures count { (t : ℕ) → ((x : Placed) → IsAmong records.now x → x.cell.transaction ≡ t)
        → result ≡ length (to_undo t (reverse (map record_of_placed records.now))) }
    ensures few { result ≤ length records.now }
{
    let mut waiting = 0;
    for placed in records {
        waiting = waiting_with(waiting, placed.cell);
    }
    waiting
}

/// How many cells the undo of the transaction needs: a rollback record if it has none, a compensation of each update that none
/// names, and an end; none where the transaction is ended.
pub fn need(transaction: &Transaction) -> usize
    ensures need { (log : Log) → IsTransactionOf log transaction.now → result ≡ need_of log transaction.now.number }
    ensures few { result ≤ length transaction.now.records + 2 }
{
    let records = transaction.records.as_slice();
    if has_kind(records, END) {
        return 0;
    }
    let rollback = if has_kind(records, ROLLBACK) { 0 } else { 1 };
    rollback + (waiting_updates(records) + 1)
}
