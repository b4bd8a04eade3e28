use crate::asks::{ask_abort, ask_write};
use crate::owed::{Debt, settle};
use crate::refused::{Ask, call_of, need};
use crate::reserved::{reserved, reserved_in_two};
use crate::start::fresh;
use crate::stores::{
    aborted, store_compensation, store_end, store_rollback, store_update, take_back, written,
};
use crate::turns::{Turn, begins, make};
use std::test::Fail;

#[test]
fn a_write_reserves_its_undo_until_the_end(rt: HostRuntime) -> Result<(), Fail> {
    let mut book = fresh(rt.alloc(), 2)?;
    begins(&mut book, &rt, 0, 1)?;
    assert_eq!(rt; reserved(&book, &rt), 5);
    // the update, its undo, the rollback record and the end
    ask_write(&mut book, &rt, 0, 97, 7)?;
    assert_eq!(rt; reserved(&book, &rt), 9);
    store_update(&mut book, &rt, 0, 97, 7);
    assert_eq!(rt; reserved(&book, &rt), 8);
    written(&mut book, &rt, 0, 97, 7);
    assert_eq!(rt; reserved(&book, &rt), 8);
    ask_abort(&mut book, &rt, 0)?;
    assert_eq!(rt; reserved(&book, &rt), 8);
    store_rollback(&mut book, &rt, 0);
    assert_eq!(rt; reserved(&book, &rt), 7);
    store_compensation(&mut book, &rt, 0);
    assert_eq!(rt; reserved(&book, &rt), 6);
    take_back(&mut book, &rt, 0);
    assert_eq!(rt; reserved(&book, &rt), 6);
    store_end(&mut book, &rt, 0);
    assert_eq!(rt; reserved(&book, &rt), 5);
    aborted(&mut book, &rt, 0);
    assert_eq!(rt; reserved(&book, &rt), 5);
    Ok(())
}

/// A lane's call, and the reserved cells of both partitions behind it: lane 1 alone appends to the second.
const RESERVED: &[(u32, Turn, (u64, u64))] = &[
    (0, Turn::Begin(1), (5, 0)),
    (1, Turn::Begin(2), (5, 0)),
    (2, Turn::Begin(4), (5, 0)),
    (0, Turn::Write(97, 7), (8, 0)),
    (1, Turn::Write(113, 7), (8, 3)),
    (1, Turn::Write(114, 7), (8, 4)),
    (2, Turn::Write(145, 7), (11, 4)),
    (1, Turn::Give(1), (11, 4)),
    (0, Turn::Take(0, 3), (12, 4)),
    (2, Turn::Savepoint, (12, 4)),
    (2, Turn::Write(146, 7), (13, 4)),
    (2, Turn::Back(0, 1), (12, 4)),
    (0, Turn::Abort(2), (8, 4)),
    (2, Turn::Commit, (5, 4)),
    (1, Turn::Commit, (5, 0)),
    (0, Turn::Checkpoint, (5, 0)),
    (1, Turn::Begin(2), (5, 0)),
    (1, Turn::Batch(113), (5, 4)),
    (1, Turn::Write(115, 7), (5, 5)),
    (1, Turn::Abort(3), (5, 0)),
];

#[test]
fn each_call_reserves_in_its_partition(rt: HostRuntime) -> Result<(), Fail> {
    let alloc = rt.alloc();
    let mut book = fresh(alloc, 3)?;
    for (lane, turn, cells) in RESERVED {
        make(&mut book, &rt, alloc, *lane, *turn)?;
        assert_eq!(rt;
            reserved_in_two(&book, &rt),
            *cells,
            "lane {lane}, {turn:?}"
        );
    }
    Ok(())
}

/// A lane, an ask, and what it needs in its partition, of one and of two. Lane 0 has an update in the log, so that its partition
/// has 8 reserved cells. Lane 1 has no record, and a call that appends its first one needs 2 cells more.
const NEEDED: &[(u32, Ask, u64, u64)] = &[
    (0, Ask::Read(97), 8, 8),
    (0, Ask::Write(97), 10, 10),
    (0, Ask::Batch(97, 98), 13, 13),
    (0, Ask::Take(0), 10, 10),
    (0, Ask::Give(0), 9, 9),
    (0, Ask::Commit, 8, 8),
    (1, Ask::Read(113), 8, 0),
    (1, Ask::Write(113), 12, 4),
    (1, Ask::Batch(113, 114), 15, 7),
    (1, Ask::Take(1), 12, 4),
    (1, Ask::Give(1), 11, 3),
    (1, Ask::Abort, 8, 0),
];

#[test]
fn each_call_needs_what_it_appends_and_its_undo(rt: HostRuntime) -> Result<(), Fail> {
    let alloc = rt.alloc();
    let mut book = fresh(alloc, 2)?;
    make(&mut book, &rt, alloc, 0, Turn::Begin(1))?;
    make(&mut book, &rt, alloc, 0, Turn::Write(97, 7))?;
    make(&mut book, &rt, alloc, 1, Turn::Begin(2))?;
    for (lane, ask, one, two) in NEEDED {
        let call = call_of(alloc, *ask)?;
        assert_eq!(rt;
            need(&book, &rt, 1, *lane, &call),
            *one,
            "lane {lane}, {ask:?}"
        );
        assert_eq!(rt;
            need(&book, &rt, 2, *lane, &call),
            *two,
            "lane {lane}, {ask:?}"
        );
    }
    Ok(())
}

/// A lane, what changes of its debts, and the sums of events and records.
const OWED: &[(u32, Debt, (u64, u64))] = &[
    (0, Debt::Owes(10, 3), (10, 3)),
    (1, Debt::Owes(4, 2), (14, 5)),
    (0, Debt::Event, (13, 5)),
    (1, Debt::Record, (13, 4)),
    (1, Debt::Owes(7, 1), (16, 4)),
    (0, Debt::Owes(u64::MAX, 0), (u64::MAX, 1)),
    (0, Debt::Event, (u64::MAX, 1)),
    (1, Debt::Owes(0, 0), (u64::MAX - 1, 0)),
];

#[test]
fn debts_add_up(rt: HostRuntime) -> Result<(), Fail> {
    let mut book = fresh(rt.alloc(), 2)?;
    for (lane, debt, sums) in OWED {
        settle(&mut book, &rt, *lane, *debt);
        assert_eq!(rt; book.owed_events(), sums.0, "lane {lane}, {debt:?}");
        assert_eq!(rt; book.owed_records(), sums.1, "lane {lane}, {debt:?}");
    }
    Ok(())
}
