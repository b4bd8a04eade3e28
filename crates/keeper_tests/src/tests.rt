use crate::lanes::Lanes;
use log_keeper::Progress::{Drawn, Settled, Stored};
use persist_model::format::{COMMITTED, DELETION, END, NO_OUTCOME, UPDATE};
use region_layout::Cell;
use std::test::Fail;

// A record without its number, which the keeper draws.
fn cell(transaction: u64, kind: u64) -> Cell {
    Cell {
        lsn: 0,
        transaction,
        kind,
        word: 169,
        before: 0,
        after: 5,
        undo_next: 0,
        outcome: if kind == END { COMMITTED } else { NO_OUTCOME },
    }
}

#[test]
fn two_lanes_append_side_by_side(rt: HostRuntime) -> Result<(), Fail> {
    let alloc = rt.alloc();
    let mut lanes = Lanes::fresh(&rt, alloc)?;
    assert!(rt; lanes.latch(&rt, 0, 3));
    assert!(rt; !lanes.latch(&rt, 0, 5));
    assert!(rt; !lanes.latch_all(5));
    assert!(rt; lanes.latch(&rt, 1, 5));
    assert!(rt; !lanes.step(&rt, 0));
    lanes.append(&rt, 0, &[], cell(1, UPDATE))?;
    lanes.append(&rt, 1, &[], cell(2, UPDATE))?;
    lanes.check_ledger(&rt, &[(1, Drawn), (2, Drawn)]);
    // a fresh bucket of one cell: a gate, 11 events of the list, and 10 of the cell, of which the ninth is its gate
    lanes.make(&rt, 0, 20);
    lanes.make(&rt, 1, 21);
    lanes.check_ledger(&rt, &[(1, Drawn), (2, Stored)]);
    lanes.make(&rt, 0, 2);
    lanes.check_ledger(&rt, &[(1, Settled), (2, Stored)]);
    assert_eq!(rt; lanes.finish(&rt, 1), 1);
    lanes.check_ledger(&rt, &[(1, Settled), (2, Settled)]);
    lanes.check_log(&rt, alloc, 0, &[0], &[(40, 1)])?;
    lanes.check_log(&rt, alloc, 1, &[4], &[(104, 2)])?;
    lanes.release(&rt, 0);
    assert!(rt; !lanes.latch_all(4));
    lanes.release(&rt, 1);
    assert!(rt; lanes.latch_all(4));
    assert!(rt; !lanes.latch(&rt, 0, 3));
    Ok(())
}

#[test]
fn closed_records_leave_the_ledger_and_their_buckets_the_chain(
    rt: HostRuntime,
) -> Result<(), Fail> {
    let alloc = rt.alloc();
    let mut lanes = Lanes::fresh(&rt, alloc)?;
    assert!(rt; lanes.latch(&rt, 1, 3));
    let chain = [4, 5, 6];
    lanes.append(&rt, 1, &[], cell(1, UPDATE))?;
    assert_eq!(rt; lanes.finish(&rt, 1), 22);
    lanes.append(&rt, 1, &chain[..1], cell(1, END))?;
    assert_eq!(rt; lanes.finish(&rt, 1), 22);
    lanes.append(&rt, 1, &chain[..2], cell(1, DELETION))?;
    assert_eq!(rt; lanes.finish(&rt, 1), 22);
    let settled = [(1, Settled), (2, Settled), (3, Settled), (4, Settled)];
    lanes.check_ledger(&rt, &settled[..3]);
    lanes.close(&rt, 1, &[104], &[])?;
    lanes.make(&rt, 1, 1);
    lanes.check_ledger(&rt, &settled[..3]);
    assert_eq!(rt; lanes.finish(&rt, 1), 1);
    lanes.check_ledger(&rt, &settled[1..3]);
    lanes.close(&rt, 1, &[], &[120])?;
    assert_eq!(rt; lanes.finish(&rt, 1), 2);
    lanes.check_ledger(&rt, &settled[2..3]);
    lanes.take_out(&rt, 1, &chain)?;
    assert_eq!(rt; lanes.finish(&rt, 1), 7);
    lanes.take_out(&rt, 1, &chain[1..])?;
    assert_eq!(rt; lanes.finish(&rt, 1), 7);
    lanes.take_back(&rt, 1, &[136])?;
    assert_eq!(rt; lanes.finish(&rt, 1), 2);
    lanes.check_ledger(&rt, &[]);
    // the last bucket stays in the chain, and its cell is closed
    lanes.check_log(&rt, alloc, 1, &chain[2..], &[])?;
    lanes.append(&rt, 1, &chain[2..], cell(2, UPDATE))?;
    assert_eq!(rt; lanes.finish(&rt, 1), 10);
    lanes.check_ledger(&rt, &settled[3..]);
    lanes.check_log(&rt, alloc, 1, &chain[2..], &[(136, 4)])?;
    lanes.check_log(&rt, alloc, 0, &[], &[])?;
    lanes.release(&rt, 1);
    Ok(())
}

#[test]
fn a_transaction_has_its_records_and_its_newest_change(rt: HostRuntime) -> Result<(), Fail> {
    let alloc = rt.alloc();
    let mut lanes = Lanes::fresh(&rt, alloc)?;
    assert!(rt; lanes.latch(&rt, 0, 3));
    lanes.append(&rt, 0, &[], cell(1, UPDATE))?;
    assert_eq!(rt; lanes.finish(&rt, 0), 22);
    assert_eq!(rt; lanes.keeper.change_of(1, 169), Some(5));
    // also one whose number is drawn
    let second = Cell {
        after: 7,
        ..cell(1, UPDATE)
    };
    lanes.append(&rt, 0, &[0], second)?;
    assert_eq!(rt; lanes.keeper.change_of(1, 169), Some(7));
    assert_eq!(rt; lanes.keeper.change_of(1, 170), None);
    assert_eq!(rt; lanes.keeper.change_of(2, 169), None);
    assert_eq!(rt; lanes.finish(&rt, 0), 22);
    // the end isn't counted, and is no change
    lanes.append(&rt, 0, &[0, 1], cell(1, END))?;
    assert_eq!(rt; lanes.finish(&rt, 0), 22);
    assert_eq!(rt; lanes.keeper.records_of(1), 2);
    assert_eq!(rt; lanes.keeper.records_of(2), 0);
    assert_eq!(rt; lanes.keeper.change_of(1, 169), Some(7));
    Ok(())
}
