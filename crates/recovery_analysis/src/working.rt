// What is to be done in a recovery, and the memory for it.
ghost use Rattle.std.specs.Prelude.{◌≡◌, ◌↔◌, ℕ, ◌+◌, ◌*◌, ◌<◌, ◌≤◌, ◌^◌, ◌==◌, ◌||◌, ◌++◌, ◌∷◌, [], not, if◌then◌else◌, IsTrue, IfOk, length, map, reverse, sum_by, slice_index, slice_index_or};
ghost use Rattle.std.specs.List.{filter, list_any};
ghost use Rattle.std.specs.Vec.{vec_len, vec_capacity};
ghost use Rattle.persist_model.specs.Records.{Log, IsAmong};
ghost use Rattle.persist_model.specs.State.{HasOpen};
ghost use Rattle.persist_model.specs.Need.{need_of};
ghost use Rattle.region_layout.specs.Layout.{layout_shape, policy_number};
ghost use Rattle.bucket_log.specs.Scans.{record_of_placed};
ghost use Rattle.recovery_run.specs.Groups.{ListsAll};
ghost use Rattle.recovery_analysis.specs.Grouping.{AreTransactionsOf};
ghost use Rattle.recovery_analysis.specs.Fates.{IsNewestCheckpoint};
ghost use Rattle.recovery_analysis.specs.Conditions.{IsSoundMerge};
ghost use Rattle.recovery_analysis.specs.Needs.{AreSmall};
ghost use Rattle.recovery_analysis.specs.Works.{IsWorkOf, HasSpare, next_lsn};

use crate::changing::{Change, redo_of};
use crate::fates::{has_kind, is_skipped, need, newest_checkpoint};
use crate::grouping::{Transaction, transactions};
use crate::picking::{losers_of, unskipped_of, winners_of};
use bucket_log::Placed;
use persist_model::format::{CHECKPOINT, END};
use persist_model::{List, NoMemory, RecordKind};
use recovery_run::{Gates, put_gate};
use region_layout::{Layout, Policy};
use std::alloc::Global;

/// What is to be done in a recovery, with all the memory for it.
#[derive(Drop)]
pub struct Work {
    /// The committed transactions, ascending.
    pub winners: List<u64>,
    /// The running transactions, ascending.
    pub losers: List<u64>,
    /// What is to be stored before the undo, in this order.
    pub redo: List<Change>,
    /// The running transactions with their records, ascending.
    pub undo: List<Transaction>,
    /// Whether a checkpoint record is to be appended.
    pub checkpoint: bool,
    /// The gates of all records, and memory for those that recovery appends.
    pub gates: Gates,
    /// The number of the next record.
    pub next: u64,
    /// The most events that recovery makes.
    pub most: u64,
}

// Whether a transaction runs, or is ended and not skipped.
fn has_open(all: &[Transaction], checkpoint: u64) -> bool
    ensures { (log : Log) → AreTransactionsOf log all.now → IsNewestCheckpoint log checkpoint → IsTrue result ↔ HasOpen log }
{
    for transaction in all {
        if !is_skipped(transaction, checkpoint) {
            return true;
        }
    }
    false
}

// One more than the newest record's number.
fn next_number(merged: &[Placed]) -> u64
    requires { (x : Placed) → IsAmong merged.now x → x.cell.lsn + 1 < 2 ^ 64 }
    ensures { result ≡ next_lsn (reverse (map record_of_placed merged.now)) }
{
    if merged.is_empty() {
        return 1;
    }
    merged[merged.len() - 1].cell.lsn + 1
}

// The transactions that have no end.
fn running_of(all: List<Transaction>) -> List<Transaction>
    ensures { result ≡ filter (λ t. not (list_any (λ x. x.cell.kind == END) t.records)) all }
{
    let mut kept = all.into_vec();
    kept.retain(|transaction| !has_kind(transaction.records.as_slice(), END));
    List::from_vec(kept)
}

// How many cells the undo of all these needs.
fn total_need(undo: &[Transaction]) -> usize
    requires { (log : Log) × AreSmall log undo.now }
    ensures { (log : Log) → AreSmall log undo.now → result ≡ sum_by (λ t. need_of log t.number) undo.now }
{
    let mut total = 0;
    for transaction in undo {
        total += need(transaction);
    }
    total
}

// Puts the gate of a record into its group.
fn put_gate_of(gates: &mut Gates, placed: Placed)
    requires { HasSpare gates.old 1 1 1 }
    ensures gates { gates.new.gates.items ≡ gates.old.gates.items ++ (if (placed.cell.kind == END) || (placed.cell.kind == CHECKPOINT) then [] else placed.at ∷ []) }
    ensures ends { gates.new.ends.items ≡ gates.old.ends.items ++ (if placed.cell.kind == END then placed.at ∷ [] else []) }
    ensures checkpoints { gates.new.checkpoints.items ≡ gates.old.checkpoints.items ++ (if placed.cell.kind == CHECKPOINT then placed.at ∷ [] else []) }
    ensures spare { (more ends checkpoints : ℕ) → HasSpare gates.old (more + 1) (ends + 1) (checkpoints + 1) → HasSpare gates.new more ends checkpoints }
{
    match placed.cell.record_kind() {
        Some(RecordKind::End) => put_gate(&mut gates.ends, placed.at),
        Some(RecordKind::Checkpoint) => put_gate(&mut gates.checkpoints, placed.at),
        Some(RecordKind::Update)
        | Some(RecordKind::Compensation)
        | Some(RecordKind::Rollback)
        | Some(RecordKind::Deletion) => put_gate(&mut gates.gates, placed.at),
        None => put_gate(&mut gates.gates, placed.at),
    }
}

// The gates of all records, and memory for so many more, with that many ends and one checkpoint record.
pub(crate) fn gates_of(
    alloc: Global,
    merged: &[Placed],
    more: usize,
    ends: usize,
) -> Result<Gates, NoMemory>
    requires more { more < 2 ^ 32 }
    requires ends { ends < 2 ^ 60 }
    ensures lists { IfOk result (λ made. ListsAll (reverse (map record_of_placed merged.now)) made.gates.items made.ends.items made.checkpoints.items) }
    ensures spare { IfOk result (λ made. HasSpare made more ends 1) }
    ensures count { IfOk result (λ made. vec_len made.gates + vec_len made.ends + vec_len made.checkpoints ≡ length merged.now) }
{
    let count = merged.len();
    let mut made = Gates::with_memory(alloc, count + more, count + ends, count + 1)?;
    for placed in merged {
        put_gate_of(&mut made, *placed);
    }
    Ok(made)
}

// The most events of a recovery that reads so many records and appends so many.
fn most_events(records: usize, appends: usize, layout: Layout) -> u64
    requires records { records < 2 ^ 60 }
    requires appends { appends < 2 ^ 32 }
    ensures { result ≡ 20 + 2 * records + (23 + layout.cells) * appends + 7 * layout.buckets }
{
    let each = u64::from(23 + layout.cells);
    20 + 2 * records as u64 + each * appends as u64 + 7 * u64::from(layout.buckets)
}

// Whether recovery is to append a checkpoint record.
fn has_checkpoint(all: &[Transaction], newest: u64, policy: Policy) -> bool
    ensures { (log : Log) → AreTransactionsOf log all.now → IsNewestCheckpoint log newest → IsTrue result ↔ ((policy_number policy ≡ 2) × HasOpen log) }
{
    match policy {
        Policy::Force => false,
        Policy::NoForce => has_open(all, newest),
    }
}

// The records that recovery appends.
fn appends_with(needed: usize, checkpoint: bool) -> usize
    requires { needed < 2 ^ 32 }
    ensures { result ≡ needed + (if checkpoint then 1 else 0) }
{
    if checkpoint { needed + 1 } else { needed }
}

/// What is to be done to recover an image with these records, ascending, with all the memory for it. Nothing changes where there
/// is no memory.
pub fn work_of(alloc: Global, merged: &[Placed], layout: Layout) -> Result<Work, NoMemory>
    requires { IsSoundMerge layout merged.now }
    ensures { IfOk result (IsWorkOf (layout_shape layout) (reverse (map record_of_placed merged.now))) }
{
    let all = transactions(alloc, merged)?;
    let newest = newest_checkpoint(merged);
    let winners = winners_of(alloc, all.as_slice())?;
    let losers = losers_of(alloc, all.as_slice())?;
    let unskipped = unskipped_of(alloc, all.as_slice(), newest)?;
    let redo = redo_of(
        alloc,
        merged,
        layout.policy,
        unskipped.as_slice(),
        winners.as_slice(),
    )?;
    let checkpoint = has_checkpoint(all.as_slice(), newest, layout.policy);
    let undo = running_of(all);
    let needed = total_need(undo.as_slice());
    let gates = gates_of(alloc, merged, needed, undo.as_slice().len())?;
    let appends = appends_with(needed, checkpoint);
    Ok(Work {
        winners,
        losers,
        redo,
        undo,
        checkpoint,
        gates,
        next: next_number(merged),
        most: most_events(merged.len(), appends, layout),
    })
}
