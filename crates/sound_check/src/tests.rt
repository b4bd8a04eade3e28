//! One small image for each rule: what `check` answers.
ghost use Rattle.std.specs.Prelude.{◌<◌, ◌≤◌, ◌^◌, length};

use crate::{CheckFault, check};
use std::alloc::Global;
use std::process::Abort;
use std::test::Fail;
use test_regions::Row;

/// Values of words, by their addresses.
type Words<'a> = &'a [(u32, u64)];

/// Four buckets of one cell at 32, 48, 64 and 80, the heap at 96, 352 words in all. One transaction runs, with an update.
const ONE_UPDATE: [(u32, u64); 14] = [
    (0, 0x5257_4e44_0000_0001),
    (1, 1),
    (2, 1),
    (3, 4),
    (4, 16),
    (5, 1),
    (8, 32),
    (9, 32),
    (40, 1),
    (41, 1),
    (42, 1),
    (43, 103),
    (45, 7),
    (96, 1),
];

/// Eight buckets of one cell from 32 on, in two partitions, the heap at 160, 416 words in all. One transaction runs in the second.
const TWO_PARTS: [(u32, u64); 15] = [
    (0, 0x5257_4e44_0000_0002),
    (1, 2),
    (2, 1),
    (3, 8),
    (4, 16),
    (5, 1),
    (6, 2),
    (13, 1),
    (21, 96),
    (22, 96),
    (104, 1),
    (105, 1),
    (106, 1),
    (107, 167),
    (109, 7),
];

// What is answered for these words: the number of the rule and its address, or twice 0.
fn verdict_of(alloc: Global, words: &Row) -> Result<(u32, u32), Fail> {
    match check(alloc, words) {
        Ok(_) => Ok((0, 0)),
        Err(CheckFault::Unsound(found)) => Ok((found.rule.number(), found.address)),
        Err(CheckFault::NoMemory) => Err("memory".into()),
    }
}

// What is answered for this many words, with some of them changed.
fn verdict(alloc: Global, size: u32, words: Words, changes: Words) -> Result<(u32, u32), Fail> {
    verdict_of(alloc, &Row::changed(alloc, words, changes, size)?)
}

/// Changes of an image's words, and what is answered then.
type Cases = &'static [(Words<'static>, (u32, u32))];

// Of one update.
fn first(rt: &impl Abort, alloc: Global, cases: Cases) -> Result<(), Fail> {
    for (changes, wanted) in cases {
        let found = verdict(alloc, 352, &ONE_UPDATE, changes)?;
        assert_eq!(rt; found, *wanted, "{changes:?}");
    }
    Ok(())
}

// Of two partitions.
fn second(rt: &impl Abort, alloc: Global, cases: Cases) -> Result<(), Fail> {
    for (changes, wanted) in cases {
        let found = verdict(alloc, 416, &TWO_PARTS, changes)?;
        assert_eq!(rt; found, *wanted, "{changes:?}");
    }
    Ok(())
}

/// A second running transaction of the first image, in a second bucket.
const SECOND_UPDATE: [(u32, u64); 8] = [
    (9, 48),
    (32, 48),
    (49, 32),
    (56, 1),
    (57, 2),
    (58, 1),
    (59, 104),
    (61, 8),
];

/// The same in the second partition of the other.
const THIRD_UPDATE: [(u32, u64); 8] = [
    (22, 112),
    (96, 112),
    (113, 96),
    (120, 2),
    (121, 2),
    (122, 1),
    (123, 168),
    (125, 8),
];

const SOUND: Cases = &[
    (&[], (0, 0)),
    // A bucket that is being put in: the walk is cut behind LAST_TAIL.
    (&[(10, 48), (11, 32), (49, 32)], (0, 0)),
    // A bucket that is being taken out has left the chain.
    (&[(12, 48), (49, 32), (32, 48)], (0, 0)),
    // So is the only one, which HEAD and TAIL name still.
    (&[(12, 32), (40, 0)], (0, 0)),
];

const SOUND_OF_TWO: Cases = &[
    (&[], (0, 0)),
    // A checkpoint record in each partition.
    (
        &[
            (8, 32),
            (9, 32),
            (40, 2),
            (42, 5),
            (105, 0),
            (106, 5),
            (107, 0),
            (109, 0),
        ],
        (0, 0),
    ),
];

#[test]
fn sound_images_are_accepted(rt: HostRuntime) -> Result<(), Fail> {
    first(&rt, rt.alloc(), SOUND)?;
    second(&rt, rt.alloc(), SOUND_OF_TWO)
}

const HEADERS: Cases = &[
    (&[(0, 5), (8, 33)], (1, 0)),
    (&[(1, 3), (8, 33)], (2, 1)),
    (&[(2, 4), (8, 33)], (3, 2)),
    (&[(4, 15), (5, 0)], (4, 4)),
    // A size above its limit, and none.
    (&[(3, 1025)], (4, 3)),
    (&[(4, 65537)], (4, 4)),
    (&[(5, 0)], (4, 5)),
];

const HEADERS_OF_TWO: Cases = &[
    (&[(6, 3)], (4, 6)),
    (&[(6, 0)], (4, 6)),
    (&[(13, 4)], (4, 13)),
    (&[(13, 0)], (4, 13)),
    // A wrong kind behind a right one.
    (&[(5, 2), (14, 4)], (4, 14)),
];

#[test]
fn headers_are_tried_first(rt: HostRuntime) -> Result<(), Fail> {
    first(&rt, rt.alloc(), HEADERS)?;
    second(&rt, rt.alloc(), HEADERS_OF_TWO)
}

#[test]
fn a_region_has_its_size(rt: HostRuntime) -> Result<(), Fail> {
    for (size, wanted) in [(31, (1, 0)), (353, (4, 0))] {
        let found = verdict(rt.alloc(), size, &ONE_UPDATE, &[])?;
        assert_eq!(rt; found, wanted, "{size}");
    }
    Ok(())
}

const LINKS: Cases = &[
    (&[(8, 33)], (5, 8)),
    (&[(8, u64::MAX)], (5, 8)),
    (&[(11, 96)], (5, 11)),
    (&[(32, 96)], (5, 32)),
    (&[(33, 31)], (5, 33)),
    (&[(10, 64), (64, 1)], (5, 64)),
];

const LINKS_OF_TWO: Cases = &[(&[(21, 32)], (5, 21)), (&[(97, 80)], (5, 97))];

#[test]
fn links_are_tried_before_they_are_followed(rt: HostRuntime) -> Result<(), Fail> {
    first(&rt, rt.alloc(), LINKS)?;
    second(&rt, rt.alloc(), LINKS_OF_TWO)
}

const LISTS: Cases = &[
    (&[(10, 48), (12, 64)], (6, 12)),
    // A cycle.
    (&[(32, 48), (48, 32)], (6, 8)),
    // TO_APPEND was visited.
    (&[(10, 32), (11, 32)], (6, 10)),
    (&[(10, 48), (11, 32), (49, 64)], (6, 10)),
    // The bucket that is taken out has no neighbours.
    (&[(12, 48)], (6, 12)),
    (&[(12, 48), (49, 32), (32, 48), (56, 9)], (6, 12)),
    (&[(33, 48)], (6, 33)),
];

const LISTS_OF_TWO: Cases = &[(&[(22, 0)], (6, 22))];

#[test]
fn lists_are_tried_point_by_point(rt: HostRuntime) -> Result<(), Fail> {
    first(&rt, rt.alloc(), LISTS)?;
    second(&rt, rt.alloc(), LISTS_OF_TWO)
}

const RECORDS: Cases = &[
    (&[(42, 0)], (7, 40)),
    (&[(42, 9)], (7, 40)),
    // A word behind the heap, and one below it.
    (&[(43, 352)], (7, 40)),
    (&[(43, 95)], (7, 40)),
    // The owner of a root.
    (&[(43, 96)], (7, 40)),
    // Two open gates have the number 1.
    (&SECOND_UPDATE, (8, 56)),
    (&[(46, 3)], (8, 40)),
];

const RECORDS_OF_TWO: Cases = &[
    (&[(105, 0)], (7, 104)),
    // A transaction with records in two partitions.
    (&[(8, 32), (9, 32), (40, 2), (41, 1), (42, 3)], (8, 40)),
];

#[test]
fn records_are_tried_by_number(rt: HostRuntime) -> Result<(), Fail> {
    first(&rt, rt.alloc(), RECORDS)?;
    second(&rt, rt.alloc(), RECORDS_OF_TWO)
}

const ROOM: Cases = &[
    // Recovery would draw three numbers, and under no-force one more.
    (&[(40, (1 << 63) - 3)], (0, 0)),
    (&[(40, (1 << 63) - 2)], (9, 9)),
];

const ROOM_OF_TWO: Cases = &[
    // Two running transactions want six cells, and there are two.
    (&THIRD_UPDATE, (9, 22)),
    (&[(104, (1 << 63) - 4)], (0, 0)),
    (&[(104, (1 << 63) - 3)], (9, 9)),
];

#[test]
fn room_and_numbers_are_tried_last(rt: HostRuntime) -> Result<(), Fail> {
    first(&rt, rt.alloc(), ROOM)?;
    second(&rt, rt.alloc(), ROOM_OF_TWO)
}

/// A record, by its number and its transaction: for a change the address, the old and the new value, and what is to be undone next;
/// for a deletion the address; for an end the outcome.
#[derive(Clone, Copy, Debug)]
enum Line {
    Update(u64, u64, u64, u64, u64, u64),
    Undo(u64, u64, u64, u64, u64, u64),
    Rollback(u64, u64),
    End(u64, u64, u64),
    Checkpoint(u64),
    Deletion(u64, u64, u64),
}

// The words of its cell.
fn cell_of(line: Line) -> [u64; 8] {
    match line {
        Line::Update(number, transaction, a, old, new, next) => {
            [number, transaction, 1, a, old, new, next, 0]
        }
        Line::Undo(number, transaction, a, old, new, next) => {
            [number, transaction, 2, a, old, new, next, 0]
        }
        Line::Rollback(number, transaction) => [number, transaction, 3, 0, 0, 0, 0, 0],
        Line::End(number, transaction, outcome) => [number, transaction, 4, 0, 0, 0, 0, outcome],
        Line::Checkpoint(number) => [number, 0, 5, 0, 0, 0, 0, 0],
        Line::Deletion(number, transaction, a) => [number, transaction, 6, a, 0, 0, 0, 0],
    }
}

// The header and the list words where so many of eight buckets are in the list, from the first on.
fn header_word(a: u32, policy: u64, count: u64) -> u64
    requires { count ≤ 8 }
{
    match a {
        0 => 0x5257_4e44_0000_0001,
        1 => policy,
        2 | 5 => 1,
        3 => 8,
        4 => 16,
        8 if count > 0 => 32,
        9 if count > 0 => 16 + 16 * count,
        _ => 0,
    }
}

// A word of the bucket with this number, which has the record of this number.
fn bucket_word(i: usize, offset: usize, lines: &[Line]) -> u64
    requires { i < 8 }
{
    if i >= lines.len() {
        return 0;
    }
    match offset {
        0 if i + 1 < lines.len() => 48 + 16 * i as u64,
        1 if i > 0 => 16 + 16 * i as u64,
        8..=15 => cell_of(lines[i])[offset - 8],
        _ => 0,
    }
}

// What is answered for eight buckets of one cell, with these records: the heap stands at 160.
fn logged(alloc: Global, policy: u64, lines: &[Line]) -> Result<(u32, u32), Fail>
    requires { length lines.now ≤ 8 }
{
    let mut all = Vec::new(alloc);
    for a in 0..32 {
        all.push(header_word(a, policy, lines.len() as u64))?;
    }
    for i in 0..8 {
        for offset in 0..16 {
            all.push(bucket_word(i, offset, lines))?;
        }
    }
    for _ in 0..256 {
        all.push(0)?;
    }
    if all.len() >= 4_294_967_296 {
        return Err("large".into());
    }
    verdict_of(alloc, &Row::new(all))
}

/// A policy, records, and what is answered for them.
type Logs = &'static [(u64, &'static [Line], (u32, u32))];

fn all_logged(rt: &impl Abort, alloc: Global, cases: Logs) -> Result<(), Fail> {
    for (policy, lines, wanted) in cases {
        if lines.len() > 8 {
            return Err("long".into());
        }
        let found = logged(alloc, *policy, lines)?;
        assert_eq!(rt; found, *wanted, "{lines:?}");
    }
    Ok(())
}

const ONE: Line = Line::Update(1, 1, 161, 0, 5, 0);

const UPDATES: Logs = &[
    (1, &[ONE, Line::Update(2, 1, 161, 5, 7, 1)], (0, 0)),
    // Another number to be undone next, and another old value than the last new one.
    (1, &[ONE, Line::Update(2, 1, 161, 5, 7, 0)], (8, 56)),
    (1, &[ONE, Line::Update(2, 1, 161, 4, 7, 1)], (8, 56)),
    // Behind a rollback record, and behind the end.
    (
        1,
        &[ONE, Line::Rollback(2, 1), Line::Update(3, 1, 162, 0, 6, 1)],
        (8, 72),
    ),
    (
        1,
        &[ONE, Line::End(2, 1, 1), Line::Update(3, 1, 162, 0, 6, 1)],
        (8, 72),
    ),
    // Of an ended transaction no undo point is asked, but its outcome is one of two.
    (
        1,
        &[Line::Update(1, 1, 161, 0, 5, 9), Line::End(2, 1, 1)],
        (0, 0),
    ),
    (1, &[ONE, Line::End(2, 1, 3)], (7, 56)),
];

#[test]
fn updates_are_tried_by_those_before(rt: HostRuntime) -> Result<(), Fail> {
    all_logged(&rt, rt.alloc(), UPDATES)
}

const TWO: Line = Line::Update(2, 1, 162, 0, 6, 1);

const BACK: Line = Line::Rollback(3, 1);

const LAST: Line = Line::Undo(4, 1, 162, 6, 0, 1);

const COMPENSATIONS: Logs = &[
    (1, &[ONE, TWO, BACK, LAST], (0, 0)),
    (
        1,
        &[ONE, TWO, BACK, LAST, Line::Undo(5, 1, 161, 5, 0, 0)],
        (0, 0),
    ),
    // The first update before the second one, the second one once more, and one more than there are.
    (
        1,
        &[ONE, TWO, BACK, Line::Undo(4, 1, 161, 5, 0, 0)],
        (8, 88),
    ),
    (
        1,
        &[ONE, TWO, BACK, LAST, Line::Undo(5, 1, 162, 6, 0, 1)],
        (8, 104),
    ),
    (
        1,
        &[
            ONE,
            BACK,
            Line::Undo(4, 1, 161, 5, 0, 0),
            Line::Undo(5, 1, 161, 5, 0, 0),
        ],
        (8, 88),
    ),
];

#[test]
fn compensations_name_the_undo_point(rt: HostRuntime) -> Result<(), Fail> {
    all_logged(&rt, rt.alloc(), COMPENSATIONS)
}

const TAKEN_BACK: Logs = &[
    (1, &[ONE, Line::Undo(2, 1, 161, 5, 0, 0)], (0, 0)),
    // One wrong field of a compensation.
    (1, &[ONE, Line::Undo(2, 1, 161, 0, 0, 0)], (8, 56)),
    (1, &[ONE, Line::Undo(2, 1, 161, 5, 4, 0)], (8, 56)),
    (1, &[ONE, Line::Undo(2, 1, 162, 5, 0, 0)], (8, 56)),
    (1, &[ONE, Line::Undo(2, 1, 161, 5, 0, 1)], (8, 56)),
    (1, &[ONE, Line::Undo(2, 1, 416, 5, 0, 0)], (7, 56)),
    // A second rollback record, and a deletion behind the first.
    (
        1,
        &[ONE, Line::Rollback(2, 1), Line::Rollback(3, 1)],
        (8, 72),
    ),
    (
        1,
        &[ONE, Line::Rollback(2, 1), Line::Deletion(3, 1, 176)],
        (8, 72),
    ),
];

#[test]
fn a_compensation_has_its_updates_fields(rt: HostRuntime) -> Result<(), Fail> {
    all_logged(&rt, rt.alloc(), TAKEN_BACK)
}

const OTHER: Line = Line::Update(3, 2, 161, 5, 6, 0);

const GONE: Line = Line::Deletion(1, 1, 176);

const NEW: Line = Line::Update(3, 2, 176, 0, 1, 0);

const BARRED: Logs = &[
    (1, &[ONE, OTHER], (8, 56)),
    (1, &[ONE, Line::End(2, 1, 1), OTHER], (0, 0)),
    // What a committed transaction gives back stays barred.
    (1, &[GONE, Line::End(2, 1, 1), NEW], (8, 72)),
    (1, &[GONE, Line::End(2, 1, 2), NEW], (0, 0)),
    // A running deletion bars its word from others, and so does an update the deletion.
    (1, &[GONE, Line::Update(2, 2, 176, 1, 2, 0)], (8, 56)),
    (
        1,
        &[Line::Update(1, 1, 176, 0, 1, 0), Line::Deletion(2, 2, 176)],
        (8, 56),
    ),
];

#[test]
fn words_of_others_are_barred(rt: HostRuntime) -> Result<(), Fail> {
    all_logged(&rt, rt.alloc(), BARRED)
}

const SECOND: Line = Line::Update(2, 1, 162, 0, 5, 1);

const THIRD: Line = Line::Update(3, 1, 163, 0, 5, 2);

const NEEDS: Logs = &[
    // Three updates need five cells, and there are five; four need six, and there are four.
    (1, &[ONE, SECOND, THIRD], (0, 0)),
    (
        1,
        &[ONE, SECOND, THIRD, Line::Update(4, 1, 164, 0, 5, 3)],
        (9, 9),
    ),
];

#[test]
fn needs_are_counted_once(rt: HostRuntime) -> Result<(), Fail> {
    all_logged(&rt, rt.alloc(), NEEDS)
}

const NEW_OF_TWO: Line = Line::Update(5, 2, 162, 0, 5, 0);

const NEW_OF_THREE: Line = Line::Update(7, 3, 163, 0, 5, 0);

/// The checkpoint records stand behind all ends.
const SKIPPED: &[Line] = &[
    ONE,
    Line::End(2, 1, 1),
    NEW_OF_TWO,
    Line::End(6, 2, 1),
    NEW_OF_THREE,
    Line::End(8, 3, 1),
    Line::Checkpoint(9),
    Line::Checkpoint(10),
];

/// They stand before the newest end.
const EARLY: &[Line] = &[
    ONE,
    Line::End(2, 1, 1),
    Line::Checkpoint(3),
    Line::Checkpoint(4),
    NEW_OF_TWO,
    Line::End(6, 2, 1),
    NEW_OF_THREE,
    Line::End(8, 3, 1),
];

#[test]
fn skipped_transactions_need_no_checkpoint(rt: HostRuntime) -> Result<(), Fail> {
    all_logged(
        &rt,
        rt.alloc(),
        &[(2, SKIPPED, (0, 0)), (2, EARLY, (9, 9)), (1, EARLY, (0, 0))],
    )
}
