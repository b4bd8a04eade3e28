//! Small logs, as slices of records, and a region without records.
ghost use Rattle.std.specs.Prelude.{◌≡◌, ◌<◌, ◌≤◌, ◌^◌, IfOk, length, slice_index};
ghost use Rattle.region_layout.specs.Layout.{layout_shape};
ghost use Rattle.recovery_analysis.specs.Conditions.{IsSoundImage};

use crate::changing::redo_of;
use crate::picking::{losers_of, unskipped_of, winners_of};
use crate::working::gates_of;
use crate::{
    Change, Work, analyse, is_committed, is_running, is_skipped, need, newest_checkpoint,
    transactions, work_of,
};
use bucket_log::Placed;
use log_partition::merge;
use persist_model::Look;
use persist_model::format::{
    CHECKPOINT, COMMITTED, COMPENSATION, DELETION, END, NO_OUTCOME, UPDATE,
};
use region_layout::laws::layouts_are_allowed;
use region_layout::{Cell, Kind, Layout, Policy, format};
use std::alloc::Global;
use std::test::Fail;
use test_regions::Row;

/// A record with this number, whose values tell it from others. An end is that of a commit.
fn record(lsn: u32, transaction: u64, kind: u64, address: u32) -> Placed
    ensures small { result.cell.word < 2 ^ 32 }
    ensures low { result.cell.lsn < 2 ^ 32 }
{
    Placed {
        at: lsn,
        cell: Cell {
            lsn: u64::from(lsn),
            transaction,
            kind,
            word: u64::from(address),
            before: 0,
            after: u64::from(lsn) * 10,
            undo_next: 0,
            outcome: if kind == END { COMMITTED } else { NO_OUTCOME },
        },
    }
}

#[test]
fn finds_each_transaction(rt: HostRuntime) -> Result<(), Fail> {
    let alloc = rt.alloc();
    let merged = [
        record(1, 7, UPDATE, 400),
        record(2, 9, UPDATE, 401),
        record(3, 8, UPDATE, 402),
        record(4, 7, COMPENSATION, 400),
        record(5, 9, END, 0),
        record(6, 8, UPDATE, 403),
    ];
    let all = transactions(alloc, &merged)?;
    let wanted = [(7, 2, true, 2), (8, 2, true, 4), (9, 2, false, 0)];
    assert_eq!(rt; all.len(), wanted.len());
    for (transaction, (number, records, running, cells)) in all.as_slice().iter().zip(wanted) {
        assert_eq!(rt; transaction.number, number);
        assert_eq!(rt; transaction.records.len(), records, "of {number}");
        assert_eq!(rt; is_running(transaction), running, "{number}");
        assert_eq!(rt; is_committed(transaction), !running, "{number}");
        assert_eq!(rt; need(transaction), cells, "{number}");
    }
    let winners = winners_of(alloc, all.as_slice())?;
    let losers = losers_of(alloc, all.as_slice())?;
    assert_eq!(rt; winners.as_slice(), [9].as_slice());
    assert_eq!(rt; losers.as_slice(), [7, 8].as_slice());
    Ok(())
}

#[test]
fn a_checkpoint_skips_what_ended_before_it(rt: HostRuntime) -> Result<(), Fail> {
    let alloc = rt.alloc();
    let merged = [
        record(1, 3, UPDATE, 400),
        record(2, 3, END, 0),
        record(3, 0, CHECKPOINT, 0),
        record(4, 4, UPDATE, 401),
        record(5, 4, END, 0),
        record(6, 5, UPDATE, 402),
    ];
    let newest = newest_checkpoint(&merged);
    assert_eq!(rt; newest, 3);
    let all = transactions(alloc, &merged)?;
    for (transaction, skipped) in all.as_slice().iter().zip([true, false, false]) {
        assert_eq!(rt;
            is_skipped(transaction, newest),
            skipped,
            "{}",
            transaction.number
        );
    }
    let unskipped = unskipped_of(alloc, all.as_slice(), newest)?;
    assert_eq!(rt; unskipped.as_slice(), [4].as_slice());
    Ok(())
}

#[test]
fn redoes_in_order_and_then_deletes(rt: HostRuntime) -> Result<(), Fail> {
    let alloc = rt.alloc();
    let merged = [
        record(1, 3, DELETION, 416),
        record(2, 4, UPDATE, 400),
        record(3, 4, DELETION, 432),
        record(4, 4, COMPENSATION, 400),
        record(5, 5, UPDATE, 401),
    ];
    let redone = [(400, 20), (400, 40)];
    let deleted = [(416, 0), (432, 0)];
    let changes = redo_of(alloc, &merged, Policy::NoForce, &[4], &[3, 4])?;
    assert_eq!(rt; changes.len(), 4);
    for (change, (word, value)) in changes.as_slice().iter().zip(redone.iter().chain(&deleted)) {
        assert_eq!(rt;
            *change,
            Change {
                word: *word,
                value: *value
            }
        );
    }
    let changes = redo_of(alloc, &merged, Policy::Force, &[4], &[3, 4])?;
    assert_eq!(rt; changes.len(), 2);
    for (change, (word, value)) in changes.as_slice().iter().zip(&deleted) {
        assert_eq!(rt;
            *change,
            Change {
                word: *word,
                value: *value
            }
        );
    }
    Ok(())
}

#[test]
fn lists_the_gates_by_their_group(rt: HostRuntime) -> Result<(), Fail> {
    let merged = [
        record(1, 3, UPDATE, 400),
        record(2, 3, END, 0),
        record(3, 0, CHECKPOINT, 0),
        record(4, 4, UPDATE, 401),
    ];
    let gates = gates_of(rt.alloc(), &merged, 2, 1)?;
    assert_eq!(rt; gates.gates.as_slice(), [1, 4].as_slice());
    assert_eq!(rt; gates.ends.as_slice(), [2].as_slice());
    assert_eq!(rt; gates.checkpoints.as_slice(), [3].as_slice());
    Ok(())
}

fn smallest() -> Layout
    ensures { result.structures ≡ 1 }
{
    Layout {
        policy: Policy::NoForce,
        cells: 1,
        buckets: 4,
        blocks: 16,
        structures: 1,
        format: 1,
        partitions: 1,
    }
}

/// A region without records.
fn empty(alloc: Global, layout: Layout) -> Result<Row, Fail>
    requires { layout.structures ≡ 1 }
    ensures { IfOk result (λ row. IsSoundImage layout (length (⟦<Row as Look>⟧.words row)) (slice_index (⟦<Row as Look>⟧.words row))) }
{
    layouts_are_allowed(&layout);
    let fresh = format(alloc, layout, &[Kind::Cells])?;
    Ok(Row::new(fresh.into_vec()))
}

/// What is to be done to recover a sound image.
fn work_of_image(alloc: Global, row: &Row, layout: Layout) -> Result<Work, Fail>
    requires { IsSoundImage layout (length (⟦<Row as Look>⟧.words row.now)) (slice_index (⟦<Row as Look>⟧.words row.now)) }
{
    let merged = merge(alloc, row, layout)?;
    let work = work_of(alloc, merged.as_slice(), layout)?;
    Ok(work)
}

#[test]
fn nothing_is_to_be_done_without_records(rt: HostRuntime) -> Result<(), Fail> {
    let alloc = rt.alloc();
    let layout = smallest();
    let row = empty(alloc, layout)?;
    let analysis = analyse(alloc, &row, layout)?;
    assert!(rt; analysis.winners.is_empty() && analysis.losers.is_empty());
    let work = work_of_image(alloc, &row, layout)?;
    assert!(rt; work.redo.is_empty() && work.undo.is_empty());
    assert!(rt; !work.checkpoint);
    assert_eq!(rt; work.next, 1);
    assert_eq!(rt; work.most, 48);
    assert!(rt; work.gates.checkpoints.capacity() >= 1);
    Ok(())
}
