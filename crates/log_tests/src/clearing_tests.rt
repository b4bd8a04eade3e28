//! Closings through a stop at each event, and the buckets that are taken out behind a whole one.
ghost use Rattle.std.specs.Prelude.{◌≡◌, ◌==◌, ◌||◌, IsTrue};

use crate::append_tests::{check_scan, fresh, make_append};
use crate::list_tests::make;
use crate::log_checks::log_at_rest;
use atomic_list::{Remove, remove_event};
use bucket_log::place;
use lane_traits::Device;
use log_clearing::{ClearList, clear_event, removal};
use persist_model::format::{CHECKPOINT, COMMITTED, END, MAX_WORDS, NO_OUTCOME, UPDATE};
use persist_model::{Event, List, Look, NoMemory, Pick};
use region_layout::Cell;
use std::alloc::Global;
use std::process::Abort;
use std::test::Fail;
use word_region::PlainCells;

/// A record: its transaction and its kind. Its number is its place in the log, from 1.
#[derive(Clone, Copy)]
pub(crate) struct Entry {
    pub transaction: u64,
    pub kind: u64,
}

pub(crate) fn update(transaction: u64) -> Entry {
    Entry {
        transaction,
        kind: UPDATE,
    }
}

pub(crate) fn end(transaction: u64) -> Entry {
    Entry {
        transaction,
        kind: END,
    }
}

fn checkpoint() -> Entry {
    Entry {
        transaction: 0,
        kind: CHECKPOINT,
    }
}

pub(crate) fn cell_of(entry: Entry, number: u64) -> Cell {
    Cell {
        lsn: number,
        transaction: entry.transaction,
        kind: entry.kind,
        word: 100,
        before: 0,
        after: number,
        undo_next: 0,
        outcome: if entry.kind == END {
            COMMITTED
        } else {
            NO_OUTCOME
        },
    }
}

/// A region of four buckets whose log has these records.
pub(crate) fn with_records(
    rt: &impl Abort,
    alloc: Global,
    cells: u32,
    entries: &[Entry],
) -> Result<PlainCells, Fail>
    requires { IsTrue ((cells == 1) || (cells == 16)) }
{
    let mut region = fresh(rt, alloc, cells, 4, 1)?;
    let numbers = [0, 1, 2, 3];
    for (i, entry) in entries.iter().enumerate() {
        let used = (i + cells as usize - 1) / cells as usize;
        assert!(rt; used <= 4);
        let log = log_at_rest(&region, 0, &numbers[..used]).ok_or("no log")?;
        let at = place(&region, log.layout, log.part).ok_or("no place")?;
        make_append(rt, &mut region, log, 0, at, &cell_of(*entry, i as u64 + 1));
    }
    Ok(region)
}

/// All words of a region.
pub(crate) fn words_of(alloc: Global, region: &PlainCells) -> Result<Vec<u64>, Fail> {
    let mut words = Vec::new(alloc);
    for a in 0..region.size() {
        words.push(region.word(a))?;
    }
    Ok(words)
}

/// These gates.
pub(crate) fn gates(alloc: Global, addresses: &[u32]) -> Result<List<u32>, NoMemory> {
    let mut list = List::new(alloc);
    list.extend_from_slice(addresses)?;
    Ok(list)
}

/// What is open of these records, which stand at these addresses, where so many are closed.
pub(crate) fn open(
    alloc: Global,
    records: &[u32],
    closed: &[u32],
) -> Result<Vec<(u32, u64)>, Fail> {
    let mut left = Vec::new(alloc);
    for (i, at) in records.iter().enumerate() {
        if !closed.contains(at) {
            left.push((*at, i as u64 + 1))?;
        }
    }
    Ok(left)
}

// The address and the value of a store, and none for another event.
fn stored(event: Option<Event>) -> Option<(u32, u64)> {
    match event {
        Some(Event::PStore(a, value)) => Some((a, value)),
        _ => None,
    }
}

/// A closing: a log, the groups, its events, where none stands for a fence, and what is closed behind a stop after each
/// number of events, for the oldest candidates, the newest, and the two mixes.
#[derive(Clone, Copy)]
struct Case<'a> {
    cells: u32,
    chain: &'a [u32],
    entries: &'a [Entry],
    records: &'a [u32],
    gates: &'a [u32],
    ends: &'a [u32],
    checkpoints: &'a [u32],
    events: &'a [Option<u32>],
    closed: &'a [[&'a [u32]; 4]],
    removals: &'a [(Remove, &'a [u32])],
}

fn clear_list(alloc: Global, case: &Case) -> Result<ClearList, NoMemory> {
    Ok(ClearList {
        gates: gates(alloc, case.gates)?,
        ends: gates(alloc, case.ends)?,
        checkpoints: gates(alloc, case.checkpoints)?,
    })
}

// The events of the closing, one by one.
fn check_events(rt: &impl Abort, list: &ClearList, events: &[Option<u32>]) {
    for (i, event) in events.iter().enumerate() {
        let made = clear_event(list, i as u64);
        match event {
            Some(a) => {
                assert_eq!(rt; stored(made), Some((*a, 0)), "event {i}");
            }
            None => {
                assert!(rt; matches!(&made, Some(Event::Fence)), "event {i}");
            }
        }
    }
    let count = events.len() as u64;
    for i in [count, count.saturating_add(1), u64::MAX] {
        assert!(rt; clear_event(list, i).is_none(), "{i}");
    }
}

// The closing's first events on these words, and a stop.
fn stopped(
    rt: &impl Abort,
    alloc: Global,
    words: &[u64],
    list: &ClearList,
    events: usize,
    pick: Pick,
) -> PlainCells {
    let mut region = PlainCells::new(alloc, 100000);
    assert!(rt; words.len() <= MAX_WORDS as usize);
    assert!(rt; region.load(words).is_ok());
    for i in 0..events {
        if let Some(event) = clear_event(list, i as u64) {
            make(rt, &mut region, 16, event);
        }
    }
    region.restart(pick);
    region
}

// What is open behind a stop after each number of events.
fn check_stops(
    rt: &impl Abort,
    alloc: Global,
    case: &Case,
    words: &[u64],
    list: &ClearList,
) -> Result<(), Fail> {
    let picks = [Pick::Old, Pick::New, Pick::Mix(0), Pick::Mix(1)];
    for (events, closed) in case.closed.iter().enumerate() {
        for (pick, closed) in picks.iter().zip(closed.iter()) {
            let region = stopped(rt, alloc, words, list, events, *pick);
            let left = open(alloc, case.records, closed)?;
            check_scan(rt, alloc, &region, 0, case.chain, &left)?;
        }
    }
    Ok(())
}

// The buckets that are taken out behind the whole closing, each with the chain that it leaves.
fn check_removals(rt: &impl Abort, region: &mut PlainCells, case: &Case) -> Result<(), Fail> {
    let mut chain = case.chain;
    for (expected, left) in case.removals {
        let log = log_at_rest(region, 0, chain).ok_or("no log")?;
        let next = removal(region, log.layout);
        assert_eq!(rt; next, Some(*expected));
        assert!(rt; expected.next < MAX_WORDS);
        for i in 0..8 {
            if let Some(event) = remove_event(*expected, i) {
                make(rt, region, 16, event);
            }
        }
        chain = *left;
    }
    let log = log_at_rest(region, 0, chain).ok_or("no log")?;
    assert_eq!(rt; removal(region, log.layout), None);
    Ok(())
}

fn check(rt: &impl Abort, alloc: Global, case: &Case) -> Result<(), Fail> {
    assert!(rt; case.cells == 1 || case.cells == 16);
    let region = with_records(rt, alloc, case.cells, case.entries)?;
    let words = words_of(alloc, &region)?;
    let list = clear_list(alloc, case)?;
    check_scan(
        rt,
        alloc,
        &region,
        0,
        case.chain,
        &open(alloc, case.records, &[])?,
    )?;
    check_events(rt, &list, case.events);
    check_stops(rt, alloc, case, &words, &list)?;
    let mut region = stopped(rt, alloc, &words, &list, case.events.len(), Pick::Old);
    check_removals(rt, &mut region, case)
}

const NONE: &[u32] = &[];

const FIRST: &[u32] = &[40];

const FIRST_TWO: &[u32] = &[40, 56];

const FIRST_THREE: &[u32] = &[40, 56, 72];

const THIRD: &[u32] = &[72];

const LAST_TWO: &[u32] = &[72, 88];

const TWO_UPDATES: &[u32] = &[56, 64];

const ONE_UPDATE: &[u32] = &[56];

const OTHER: &[u32] = &[64];

const ALL: &[u32] = &[56, 64, 96];

#[test]
fn a_committed_transaction_is_closed_in_buckets_of_one_cell(rt: HostRuntime) -> Result<(), Fail> {
    // 40 and 56 are odd with a 32nd of them added, 72 and 88 even: the mixes leave the one or the other
    check(
        &rt,
        rt.alloc(),
        &Case {
            cells: 1,
            chain: &[0, 1, 2, 3],
            entries: &[update(1), update(1), end(1), update(2)],
            records: &[40, 56, 72, 88],
            gates: &[40, 56],
            ends: &[72],
            checkpoints: &[],
            events: &[Some(40), Some(56), None, Some(72), None],
            closed: &[
                [NONE; 4],
                [NONE, FIRST, FIRST, NONE],
                [NONE, FIRST_TWO, FIRST_TWO, NONE],
                [FIRST_TWO; 4],
                [FIRST_TWO, FIRST_THREE, FIRST_TWO, FIRST_THREE],
                [FIRST_THREE; 4],
            ],
            removals: &[
                (
                    Remove {
                        node: 32,
                        prev: 0,
                        next: 48,
                    },
                    &[1, 2, 3],
                ),
                (
                    Remove {
                        node: 48,
                        prev: 0,
                        next: 64,
                    },
                    &[2, 3],
                ),
                (
                    Remove {
                        node: 64,
                        prev: 0,
                        next: 80,
                    },
                    &[3],
                ),
            ],
        },
    )
}

#[test]
fn ends_are_closed_before_checkpoint_records(rt: HostRuntime) -> Result<(), Fail> {
    check(
        &rt,
        rt.alloc(),
        &Case {
            cells: 1,
            chain: &[0, 1, 2, 3],
            entries: &[update(2), update(2), end(1), checkpoint()],
            records: &[40, 56, 72, 88],
            gates: &[],
            ends: &[72],
            checkpoints: &[88],
            events: &[Some(72), None, Some(88), None],
            closed: &[
                [NONE; 4],
                [NONE, THIRD, NONE, THIRD],
                [THIRD; 4],
                [THIRD, LAST_TWO, THIRD, LAST_TWO],
                [LAST_TWO; 4],
            ],
            removals: &[(
                Remove {
                    node: 64,
                    prev: 48,
                    next: 80,
                },
                &[0, 1, 3],
            )],
        },
    )
}

#[test]
fn an_empty_closing_has_no_events(rt: HostRuntime) -> Result<(), Fail> {
    check(
        &rt,
        rt.alloc(),
        &Case {
            cells: 1,
            chain: &[0, 1],
            entries: &[update(1), end(2)],
            records: &[40, 56],
            gates: &[],
            ends: &[],
            checkpoints: &[],
            events: &[],
            closed: &[[NONE; 4]],
            removals: &[],
        },
    )
}

#[test]
fn a_committed_transaction_is_closed_among_cells_of_another(rt: HostRuntime) -> Result<(), Fail> {
    // with a 32nd added 56 and 96 are odd, and 64 is even
    check(
        &rt,
        rt.alloc(),
        &Case {
            cells: 16,
            chain: &[0],
            entries: &[
                update(2),
                update(2),
                update(1),
                update(1),
                update(2),
                update(2),
                update(2),
                end(1),
            ],
            records: &[40, 48, 56, 64, 72, 80, 88, 96],
            gates: &[56, 64],
            ends: &[96],
            checkpoints: &[],
            events: &[Some(56), Some(64), None, Some(96), None],
            closed: &[
                [NONE; 4],
                [NONE, ONE_UPDATE, ONE_UPDATE, NONE],
                [NONE, TWO_UPDATES, ONE_UPDATE, OTHER],
                [TWO_UPDATES; 4],
                [TWO_UPDATES, ALL, ALL, TWO_UPDATES],
                [ALL; 4],
            ],
            removals: &[],
        },
    )
}

#[test]
fn a_bucket_of_sixteen_closed_cells_is_taken_out(rt: HostRuntime) -> Result<(), Fail> {
    let first = [
        40, 48, 56, 64, 72, 80, 88, 96, 104, 112, 120, 128, 136, 144, 152, 160,
    ];
    let records = [
        40, 48, 56, 64, 72, 80, 88, 96, 104, 112, 120, 128, 136, 144, 152, 160, 176, 184,
    ];
    let mut entries = [update(1); 18];
    entries[16] = update(2);
    entries[17] = end(1);
    let mut events = [None; 19];
    for (event, gate) in events.iter_mut().zip(first.iter()) {
        *event = Some(*gate);
    }
    events[17] = Some(184);
    check(
        &rt,
        rt.alloc(),
        &Case {
            cells: 16,
            chain: &[0, 1],
            entries: &entries,
            records: &records,
            gates: &first,
            ends: &[184],
            checkpoints: &[],
            events: &events,
            closed: &[[NONE; 4]],
            removals: &[(
                Remove {
                    node: 32,
                    prev: 0,
                    next: 168,
                },
                &[1],
            )],
        },
    )
}
