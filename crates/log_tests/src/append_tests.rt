//! Logs that grow by appends made on a device, record by record, until there is no room.
ghost use Rattle.std.specs.Prelude.{◌≤◌, ◌<◌, ◌*◌, ◌^◌, ◌==◌, ◌||◌, length, IsTrue};
ghost use Rattle.persist_model.specs.Shape.{IsBucketCount};

use crate::list_tests::make;
use crate::log_checks::{Log, log_at_rest};
use bucket_log::{Place, append_event, place, room, scan};
use lane_traits::Device;
use persist_model::format::{MAX_WORDS, NO_OUTCOME, UPDATE};
use persist_model::{Event, Look};
use region_layout::{Cell, Kind, Layout, Policy, format};
use std::alloc::Global;
use std::process::Abort;
use std::test::Fail;
use test_regions::Row;
use word_region::PlainCells;

// The first list word of a partition in the region.
fn list_words(p: u32) -> u32
    ensures { result ≤ 26 }
{
    match p {
        0 => 8,
        1 => 21,
        _ => 26,
    }
}

pub(crate) fn word<W: Look>(words: &W, a: u32) -> u64 {
    if a < words.size() { words.word(a) } else { 0 }
}

fn row_of(words: Vec<u64>) -> Result<Row, Fail> {
    if words.len() >= 4294967296 {
        return Err("large".into());
    }
    Ok(Row::new(words))
}

// The words as partition p sees them: its list words stand at 8 to 12.
pub(crate) fn view<W: Look>(alloc: Global, words: &W, p: u32) -> Result<Row, Fail> {
    let mut seen = Vec::new(alloc);
    for a in 0..words.size() {
        let from = if 8 <= a && a <= 12 {
            list_words(p) + (a - 8)
        } else {
            a
        };
        seen.push(word(words, from))?;
    }
    row_of(seen)
}

// The words with these values at these addresses.
fn changed<W: Look>(alloc: Global, words: &W, changes: &[(u32, u64)]) -> Result<Row, Fail> {
    let mut seen = Vec::new(alloc);
    for a in 0..words.size() {
        let mut value = word(words, a);
        for (b, other) in changes {
            if *b == a {
                value = *other;
            }
        }
        seen.push(value)?;
    }
    row_of(seen)
}

// The region's event for one of partition p's view.
fn out(p: u32, event: Event) -> Event {
    match event {
        Event::PStore(a, value) => {
            if 8 <= a && a <= 12 {
                Event::PStore(list_words(p) + (a - 8), value)
            } else {
                event
            }
        }
        _ => event,
    }
}

// A fresh region with one cells map.
pub(crate) fn fresh(
    rt: &impl Abort,
    alloc: Global,
    cells: u32,
    buckets: u32,
    partitions: u32,
) -> Result<PlainCells, Fail>
    requires cells { IsTrue ((cells == 1) || (cells == 16)) }
    requires buckets { IsBucketCount buckets }
    requires partitions { (1 ≤ partitions) × (partitions ≤ 3) }
    requires split { 4 * partitions ≤ buckets }
{
    let layout = Layout {
        policy: Policy::Force,
        cells,
        buckets,
        blocks: 16,
        structures: 1,
        format: 2,
        partitions,
    };
    let words = format(alloc, layout, &[Kind::Cells])?;
    assert!(rt; words.len() <= MAX_WORDS as usize);
    let mut region = PlainCells::new(alloc, 100000);
    assert!(rt; region.load(words.as_slice()).is_ok());
    Ok(region)
}

// An update record with this number.
fn update(number: u64) -> Cell {
    Cell {
        lsn: number,
        transaction: 1,
        kind: UPDATE,
        word: 100 + number % 16,
        before: 0,
        after: number,
        undo_next: 0,
        outcome: NO_OUTCOME,
    }
}

// Makes the append of a record at the place, and says how many events it had.
pub(crate) fn make_append(
    rt: &impl Abort,
    region: &mut PlainCells,
    log: Log,
    p: u32,
    at: Place,
    cell: &Cell,
) -> u32 {
    assert!(rt; at.bucket < MAX_WORDS && at.cell < log.layout.cells);
    let mut made = 0;
    for i in 0..100 {
        if let Some(event) = append_event(log.layout, at, cell, i) {
            make(rt, region, 0, out(p, event));
            made = i + 1;
        }
    }
    made
}

/// A step of a log: the chain before the append, the room, and what is expected of the place.
#[derive(Clone, Copy)]
struct Step<'a> {
    p: u32,
    chain: &'a [u32],
    room: u64,
    at: u32,
    fresh: bool,
}

// Appends a record where it is expected.
fn append(
    rt: &impl Abort,
    alloc: Global,
    region: &mut PlainCells,
    step: &Step,
    number: u64,
) -> Result<(), Fail> {
    let words = view(alloc, region, step.p)?;
    let log = log_at_rest(&words, step.p, step.chain).ok_or("no log")?;
    assert_eq!(rt; room(&words, log.layout, log.part), step.room, "{number}");
    let at = place(&words, log.layout, log.part).ok_or("no place")?;
    assert!(rt; at.cell < 16 && at.bucket < MAX_WORDS);
    assert_eq!(rt; at.bucket + 8 + 8 * at.cell, step.at, "{number}");
    assert_eq!(rt; at.fresh, step.fresh, "{number}");
    let events = make_append(rt, region, log, step.p, at, &update(number));
    let expected = if at.fresh { 21 + log.layout.cells } else { 10 };
    assert_eq!(rt; events, expected, "{number}");
    Ok(())
}

// What stands in the log: the addresses and the numbers, in order.
pub(crate) fn check_scan<W: Look>(
    rt: &impl Abort,
    alloc: Global,
    words: &W,
    p: u32,
    chain: &[u32],
    expected: &[(u32, u64)],
) -> Result<(), Fail> {
    let log = log_at_rest(words, p, chain).ok_or("no log")?;
    let found = scan(alloc, words, log.layout)?;
    assert_eq!(rt; found.len(), expected.len());
    for (placed, wanted) in found.as_slice().iter().zip(expected.iter()) {
        assert_eq!(rt; (placed.at, placed.cell.lsn), *wanted);
    }
    Ok(())
}

#[test]
fn four_records_fill_four_buckets_of_one_cell(rt: HostRuntime) -> Result<(), Fail> {
    let alloc = rt.alloc();
    let mut region = fresh(&rt, alloc, 1, 4, 1)?;
    let numbers = [0, 1, 2, 3];
    for (count, number) in numbers.iter().enumerate() {
        let step = Step {
            p: 0,
            chain: &numbers[..count],
            room: 4 - u64::from(*number),
            at: 40 + 16 * *number,
            fresh: true,
        };
        append(&rt, alloc, &mut region, &step, u64::from(*number) + 1)?;
    }
    let words = view(alloc, &region, 0)?;
    let log = log_at_rest(&words, 0, &numbers).ok_or("no log")?;
    assert_eq!(rt; room(&words, log.layout, log.part), 0);
    assert_eq!(rt; place(&words, log.layout, log.part), None);
    check_scan(
        &rt,
        alloc,
        &region,
        0,
        &numbers,
        &[(40, 1), (56, 2), (72, 3), (88, 4)],
    )
}

#[test]
fn forty_records_stand_in_three_buckets_of_sixteen(rt: HostRuntime) -> Result<(), Fail> {
    let alloc = rt.alloc();
    let mut region = fresh(&rt, alloc, 16, 4, 1)?;
    let chain = [0, 1, 2];
    let mut expected = Vec::new(alloc);
    for i in 0u32..40 {
        let bucket = i / 16;
        let fresh = i % 16 == 0;
        let step = Step {
            p: 0,
            chain: if fresh {
                &chain[..bucket as usize]
            } else {
                &chain[..bucket as usize + 1]
            },
            room: 64 - u64::from(i),
            at: 40 + 136 * bucket + 8 * (i % 16),
            fresh,
        };
        append(&rt, alloc, &mut region, &step, u64::from(i) + 1)?;
        expected.push((step.at, u64::from(i) + 1))?;
    }
    check_scan(&rt, alloc, &region, 0, &chain, &expected)
}

#[test]
fn two_parts_take_records_in_turn(rt: HostRuntime) -> Result<(), Fail> {
    let alloc = rt.alloc();
    let mut region = fresh(&rt, alloc, 1, 9, 2)?;
    let numbers = [0, 1, 2, 3, 4, 5, 6, 7];
    for i in 0u32..8 {
        let p = i % 2;
        let count = i / 2;
        let step = Step {
            p,
            chain: &numbers[4 * p as usize..4 * p as usize + count as usize],
            room: u64::from(4 + p - count),
            at: 40 + 16 * (4 * p + count),
            fresh: true,
        };
        append(&rt, alloc, &mut region, &step, u64::from(i) + 1)?;
    }
    let first = view(alloc, &region, 0)?;
    let log = log_at_rest(&first, 0, &numbers[..4]).ok_or("no log")?;
    assert_eq!(rt; place(&first, log.layout, log.part), None);
    check_scan(
        &rt,
        alloc,
        &first,
        0,
        &numbers[..4],
        &[(40, 1), (56, 3), (72, 5), (88, 7)],
    )?;
    let second = view(alloc, &region, 1)?;
    let log = log_at_rest(&second, 1, &numbers[4..]).ok_or("no log")?;
    assert_eq!(rt; room(&second, log.layout, log.part), 1);
    check_scan(
        &rt,
        alloc,
        &second,
        1,
        &numbers[4..],
        &[(104, 2), (120, 4), (136, 6), (152, 8)],
    )
}

#[test]
fn a_scan_reads_any_open_cells_in_order(rt: HostRuntime) -> Result<(), Fail> {
    let alloc = rt.alloc();
    let region = fresh(&rt, alloc, 16, 4, 1)?;
    // the chain is 32, 304; its cells stand from 40 and from 312 on, those of a bucket outside it from 176 on
    let words = changed(
        alloc,
        &region,
        &[
            (8, 32),
            (9, 304),
            (11, 32),
            (32, 304),
            (305, 32),
            (40, 9),
            (56, 7),
            (64, 5),
            (312, 7),
            (328, 5),
            (336, 6),
            (176, 1),
            (432, 2),
        ],
    )?;
    let log = log_at_rest(&words, 0, &[0, 2]).ok_or("no log")?;
    assert_eq!(rt; room(&words, log.layout, log.part), 12 + 32);
    let next = place(&words, log.layout, log.part).ok_or("no place")?;
    assert_eq!(rt;
        (next.bucket, next.cell, next.fresh, next.tail),
        (304, 1, false, 304)
    );
    check_scan(
        &rt,
        alloc,
        &words,
        0,
        &[0, 2],
        &[
            (432, 2),
            (64, 5),
            (328, 5),
            (336, 6),
            (56, 7),
            (312, 7),
            (40, 9),
        ],
    )
}
