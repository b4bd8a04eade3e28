//! What the records of each transaction come to.
ghost use Rattle.std.specs.Prelude.{◌≡◌, ◌==◌, ◌&&◌, ◌||◌, ◌+◌, ◌<◌, ◌≤◌, ◌^◌, ◌∷◌, [], ℕ, not, nat_lt, is_some, length, OnOk};
ghost use Rattle.std.specs.BTreeMap.{get};
ghost use Rattle.std.specs.Ordering.{nat_cmp};
ghost use Rattle.persist_model.specs.Kinds.{CHECKPOINT, COMMITTED, END, ROLLBACK};
ghost use Rattle.persist_model.specs.Records.{Log};
ghost use Rattle.persist_model.specs.Order.{undo_point as undo_point_of};
ghost use Rattle.persist_model.specs.Need.{to_undo};
ghost use Rattle.persist_model.specs.Shape.{part_of as part_of_shape};
ghost use Rattle.bucket_log.specs.Scans.{record_of_placed};
ghost use Rattle.region_layout.specs.Layout.{layout_shape};
ghost use Rattle.log_tables.specs.Tables.{IsSummary, AreSummaries, no_summary, is_end_below, after_put, summary_of};
ghost use Rattle.log_tables.specs.Seen.{has_other};

use crate::seen::Seen;
use bucket_log::{Placed, part_of};
use persist_model::{NoMemory, Outcome, RecordKind};
use region_layout::Layout;
use std::alloc::{AllocError, Global};
use std::collections::BTreeMap;

/// What the records of a transaction come to, so far.
#[derive(Clone, Copy, Debug, PartialEq, Eq)]
pub struct Summary {
    /// Whether it has a record.
    pub has_record: bool,
    /// The partitions of its records.
    pub parts: Seen,
    /// Whether it has a rollback record.
    pub has_rollback: bool,
    /// Whether it has an end that commits it.
    pub has_commit: bool,
    /// The least number of an end of it.
    pub first_end: Option<u64>,
    /// The number of the update that it would undo next, or 0.
    pub undo_point: u64,
    /// How many of its updates no compensation names.
    pub undo_count: u64,
}

// That of a transaction without records.
fn nothing() -> Summary
    ensures { result ≡ no_summary }
{
    Summary {
        has_record: false,
        parts: Seen::Nothing,
        has_rollback: false,
        has_commit: false,
        first_end: None,
        undo_point: 0,
        undo_count: 0,
    }
}

// Whether there is a record behind this one.
fn record_behind(s: &Placed, has_record: bool) -> bool
    ensures { result ≡ (not (s.now.cell.kind == CHECKPOINT) || has_record) }
{
    !s.cell.is(RecordKind::Checkpoint) || has_record
}

// Whether there is a rollback record behind this record.
fn rollback_behind(s: &Placed, has_rollback: bool) -> bool
    ensures { result ≡ ((s.now.cell.kind == ROLLBACK) || has_rollback) }
{
    s.cell.is(RecordKind::Rollback) || has_rollback
}

// Whether there is an end that commits, behind a record.
fn commit_behind(s: &Placed, has_commit: bool) -> bool
    ensures { result ≡ (((s.now.cell.kind == END) && (s.now.cell.outcome == COMMITTED)) || has_commit) }
{
    (s.cell.is(RecordKind::End) && s.cell.has_outcome(Outcome::Committed)) || has_commit
}

// The partitions behind a record.
fn parts_behind(layout: Layout, s: &Placed, parts: Seen) -> Seen
    ensures { (p : ℕ) → has_other result p ≡ ((not (s.now.cell.kind == CHECKPOINT) && not (part_of_shape (layout_shape layout) s.now.at == p)) || has_other parts p) }
{
    if s.cell.is(RecordKind::Checkpoint) {
        return parts;
    }
    parts.with(u64::from(part_of(layout, s.at)))
}

// The undo point behind a record of the transaction.
fn point_behind(s: &Placed, point: u64) -> u64
    ensures { (log : Log) → point ≡ undo_point_of s.now.cell.transaction log → result ≡ undo_point_of s.now.cell.transaction (record_of_placed s.now ∷ log) }
{
    match s.cell.record_kind() {
        Some(RecordKind::Update) => s.cell.lsn,
        Some(RecordKind::Compensation) => s.cell.undo_next,
        Some(RecordKind::Rollback | RecordKind::End | RecordKind::Checkpoint | RecordKind::Deletion)
        | None => point,
    }
}

// How many updates no compensation names, behind a record of the transaction.
fn count_behind(s: &Placed, count: u64) -> u64
    requires { count + 1 < 2 ^ 64 }
    ensures count { (log : Log) → count ≡ length (to_undo s.now.cell.transaction log) → result ≡ length (to_undo s.now.cell.transaction (record_of_placed s.now ∷ log)) }
    ensures bound { result ≤ count + 1 }
{
    match s.cell.record_kind() {
        Some(RecordKind::Update) => count + 1,
        Some(RecordKind::Compensation) => count.saturating_sub(1),
        Some(RecordKind::Rollback | RecordKind::End | RecordKind::Checkpoint | RecordKind::Deletion)
        | None => count,
    }
}

// The least number of an end behind a record.
fn end_behind(s: &Placed, first: Option<u64>) -> Option<u64>
    ensures some { is_some result ≡ ((s.now.cell.kind == END) || is_some first) }
    ensures below { (n : ℕ) → is_end_below result n ≡ (((s.now.cell.kind == END) && nat_lt s.now.cell.lsn n) || is_end_below first n) }
{
    if !s.cell.is(RecordKind::End) {
        return first;
    }
    match first {
        Some(number) => Some(number.min(s.cell.lsn)),
        None => Some(s.cell.lsn),
    }
}

impl Summary {
    // Behind a record of the transaction.
    fn behind(self, layout: Layout, s: &Placed) -> Summary
        requires { self.undo_count + 1 < 2 ^ 64 }
        ensures { (log : Log) → IsSummary (part_of_shape (layout_shape layout)) self s.now.cell.transaction log
            → IsSummary (part_of_shape (layout_shape layout)) result s.now.cell.transaction (record_of_placed s.now ∷ log) }
    {
        Summary {
            has_record: record_behind(s, self.has_record),
            parts: parts_behind(layout, s, self.parts),
            has_rollback: rollback_behind(s, self.has_rollback),
            has_commit: commit_behind(s, self.has_commit),
            first_end: end_behind(s, self.first_end),
            undo_point: point_behind(s, self.undo_point),
            undo_count: count_behind(s, self.undo_count),
        }
    }
}

/// A summary of each transaction of a log.
#[derive(Drop)]
pub struct Summaries {
    table: BTreeMap<u64, Summary>,
}

impl Summaries {
    /// Those of an empty log.
    pub fn new(alloc: Global) -> Summaries
        ensures { (part : ℕ → ℕ) → AreSummaries part result [] }
    {
        Summaries {
            table: BTreeMap::new(alloc),
        }
    }

    /// That of this transaction.
    pub fn of(&self, transaction: u64) -> Summary
        ensures value { result ≡ summary_of self.now transaction }
        ensures summary { (part : ℕ → ℕ) (log : Log) → AreSummaries part self.now log → IsSummary part result transaction log }
    {
        self.table.get(&transaction).copied().unwrap_or(nothing())
    }

    fn put(&mut self, transaction: u64, summary: Summary) -> Result<(), AllocError>
        ensures { OnOk result ((t : ℕ) → get nat_cmp self.new.table t ≡ after_put transaction summary (get nat_cmp self.old.table t) t) }
    {
        self.table.insert(transaction, summary)?;
        Ok(())
    }

    /// Takes one record more.
    pub fn add(&mut self, layout: Layout, s: &Placed) -> Result<(), NoMemory>
        requires { (log : Log) × AreSummaries (part_of_shape (layout_shape layout)) self.old log × (length log + 1 < 2 ^ 64) }
        ensures { OnOk result ((log : Log) → AreSummaries (part_of_shape (layout_shape layout)) self.old log
            → AreSummaries (part_of_shape (layout_shape layout)) self.new (record_of_placed s.now ∷ log)) }
    {
        let before = self.of(s.cell.transaction);
        self.put(s.cell.transaction, before.behind(layout, s))?;
        Ok(())
    }
}
