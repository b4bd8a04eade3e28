//! Parts of recovery, made to their end and stopped.
ghost use Rattle.std.specs.Prelude.{◌≡◌, ◌≤◌, ◌<◌, ◌+◌, ◌^◌, ℕ, length, sum_by, All, IsTrue};
ghost use Rattle.lane_traits.specs.Device.{IsWithin, stores_of};
ghost use Rattle.log_clearing.specs.Plans.{closing_plan};

use crate::append_tests::{check_scan, word};
use crate::clearing_tests::{cell_of, end, gates, open, update, with_records};
use crate::log_checks::log_at_rest;
use crate::making::is_inside;
use bucket_log::{append_event, place};
use lane_traits::{Device, Done};
use log_clearing::ClearList;
use persist_model::format::MAX_WORDS;
use persist_model::{Event, List, Look, NoMemory, Pick};
use recovery_run::{Plan, run};
use std::alloc::Global;
use std::process::Abort;
use std::test::Fail;
use word_region::{Cut, PlainCells};

// Events in a list.
#[derive(Drop)]
struct Events {
    events: List<Event>,
}

impl Plan for Events {
    ghost events = { λ plan. plan.events };

    fn event(&self, i: u64) -> Option<Event> {
        self.events.get(i as usize).copied()
    }
}

fn are_inside(events: &[Event], size: u32) -> bool
    ensures { IsTrue result → All (IsWithin size) events.now }
{
    for event in events {
        if !is_inside(*event, size) {
            return false;
        }
    }
    true
}

fn are_below(gates: &[u32], size: u32) -> bool
    ensures { IsTrue result → All (λ a. a < size) gates.now }
{
    for gate in gates {
        if *gate >= size {
            return false;
        }
    }
    true
}

// Makes room for the stores of so many events, and tells how many words there are.
fn ready<D: Device>(rt: &impl Abort, device: &mut D, events: u64) -> u32
    ensures size { result ≡ (D.cells device.new).size }
    ensures spare { events ≤ D.spare device.new }
{
    assert!(rt; device.reserve(events).is_ok());
    device.size()
}

fn run_events<D: Device>(rt: &impl Abort, device: &mut D, plan: &Events) -> Done {
    let size = ready(rt, device, plan.events.len() as u64);
    if !are_inside(plan.events.as_slice(), size) {
        panic!(rt; "outside the region");
    }
    run(device, plan)
}

fn close<D: Device>(rt: &impl Abort, device: &mut D, list: &ClearList) -> Done {
    assert!(rt; list.gates.len() < 1000);
    assert!(rt; list.ends.len() < 1000);
    assert!(rt; list.checkpoints.len() < 1000);
    let size = ready(rt, device, 3000);
    if !are_below(list.gates.as_slice(), size) {
        panic!(rt; "outside the region");
    }
    if !are_below(list.ends.as_slice(), size) {
        panic!(rt; "outside the region");
    }
    if !are_below(list.checkpoints.as_slice(), size) {
        panic!(rt; "outside the region");
    }
    run(device, list)
}

fn add(list: &mut List<Event>, event: Event) -> Result<(), NoMemory> {
    list.push(event).map_err(|_| NoMemory)
}

// The append of the second record, behind one that stands at 40.
fn second_append(rt: &impl Abort, alloc: Global, region: &PlainCells) -> Result<Events, Fail> {
    let log = log_at_rest(region, 0, &[0]).ok_or("no log")?;
    let at = place(region, log.layout, log.part).ok_or("no place")?;
    assert!(rt; at.bucket < MAX_WORDS && at.cell < log.layout.cells);
    let cell = cell_of(end(1), 2);
    let mut events = List::new(alloc);
    for i in 0..100 {
        if let Some(event) = append_event(log.layout, at, &cell, i) {
            add(&mut events, event)?;
        }
    }
    Ok(Events { events })
}

// The same append, and behind it a store.
fn append_and_store(
    rt: &impl Abort,
    alloc: Global,
    region: &PlainCells,
    word: u32,
    value: u64,
) -> Result<Events, Fail> {
    let mut plan = second_append(rt, alloc, region)?;
    add(&mut plan.events, Event::PStore(word, value))?;
    Ok(plan)
}

/// A stop behind so many events: whether the part was made, the buckets of the chain, and what is closed then of the records at
/// 40 and 56, for the oldest and the newest candidates.
type Stop = (u64, Done, &'static [u32], [&'static [u32]; 2]);

const RECORDS: [u32; 2] = [40, 56];

const NONE: &[u32] = &[];

const FIRST: &[u32] = &[40];

const SECOND: &[u32] = &[56];

const ONE_BUCKET: &[u32] = &[0];

const TWO_BUCKETS: &[u32] = &[0, 1];

// What is left in the log for the oldest and the newest candidates.
fn check_left(
    rt: &impl Abort,
    alloc: Global,
    mut region: PlainCells,
    pick: Pick,
    chain: &[u32],
    closed: &[u32],
) -> Result<(), Fail> {
    region.restart(pick);
    let left = open(alloc, &RECORDS, closed)?;
    check_scan(rt, alloc, &region, 0, chain, &left)
}

// A fresh bucket of one cell: a gate, 11 events of the list, and 10 of the cell, of which the ninth is its gate.
const APPEND_STOPS: &[Stop] = &[
    (0, Done::Stopped, ONE_BUCKET, [SECOND, SECOND]),
    (1, Done::Stopped, ONE_BUCKET, [SECOND, SECOND]),
    (12, Done::Stopped, TWO_BUCKETS, [SECOND, SECOND]),
    (20, Done::Stopped, TWO_BUCKETS, [SECOND, SECOND]),
    (21, Done::Stopped, TWO_BUCKETS, [SECOND, NONE]),
    (22, Done::Made, TWO_BUCKETS, [NONE, NONE]),
    (30, Done::Made, TWO_BUCKETS, [NONE, NONE]),
];

#[test]
fn an_append_is_run_to_its_end_or_stopped(rt: HostRuntime) -> Result<(), Fail> {
    let alloc = rt.alloc();
    for (events, done, chain, closed) in APPEND_STOPS {
        for (pick, closed) in [Pick::Old, Pick::New].iter().zip(closed.iter()) {
            let region = with_records(&rt, alloc, 1, &[update(1)])?;
            let plan = second_append(&rt, alloc, &region)?;
            let mut cut = Cut::new(region, *events);
            assert_eq!(rt; run_events(&rt, &mut cut, &plan), *done, "{events}");
            assert_eq!(rt; cut.used_up(), *events <= 22);
            check_left(&rt, alloc, cut.into_inner(), *pick, chain, closed)?;
        }
    }
    let mut region = with_records(&rt, alloc, 1, &[update(1)])?;
    let plan = second_append(&rt, alloc, &region)?;
    assert_eq!(rt; run_events(&rt, &mut region, &plan), Done::Made);
    check_left(&rt, alloc, region, Pick::Old, TWO_BUCKETS, NONE)
}

const CLOSING_STOPS: &[Stop] = &[
    (0, Done::Stopped, TWO_BUCKETS, [NONE, NONE]),
    (1, Done::Stopped, TWO_BUCKETS, [NONE, FIRST]),
    (2, Done::Stopped, TWO_BUCKETS, [FIRST, FIRST]),
    (3, Done::Stopped, TWO_BUCKETS, [FIRST, &RECORDS]),
    (4, Done::Made, TWO_BUCKETS, [&RECORDS, &RECORDS]),
];

#[test]
fn records_are_closed_to_the_end_or_stopped(rt: HostRuntime) -> Result<(), Fail> {
    let alloc = rt.alloc();
    let list = ClearList {
        gates: gates(alloc, FIRST)?,
        ends: gates(alloc, SECOND)?,
        checkpoints: List::new(alloc),
    };
    for (events, done, chain, closed) in CLOSING_STOPS {
        for (pick, closed) in [Pick::Old, Pick::New].iter().zip(closed.iter()) {
            let region = with_records(&rt, alloc, 1, &[update(1), end(1)])?;
            let mut cut = Cut::new(region, *events);
            assert_eq!(rt; close(&rt, &mut cut, &list), *done, "{events}");
            check_left(&rt, alloc, cut.into_inner(), *pick, chain, closed)?;
        }
    }
    let mut region = with_records(&rt, alloc, 1, &[update(1), end(1)])?;
    assert_eq!(rt; close(&rt, &mut region, &list), Done::Made);
    check_left(&rt, alloc, region, Pick::Old, TWO_BUCKETS, &RECORDS)
}

#[test]
fn a_word_is_stored_behind_its_record(rt: HostRuntime) -> Result<(), Fail> {
    let alloc = rt.alloc();
    // the word at 97 is a block's: its store isn't fenced, so that the oldest candidate is the one before
    let cases = [
        (20, Pick::New, Done::Stopped, SECOND, 0),
        (22, Pick::New, Done::Stopped, NONE, 0),
        (23, Pick::New, Done::Made, NONE, 7),
        (23, Pick::Old, Done::Made, NONE, 0),
    ];
    for (events, pick, done, closed, value) in &cases {
        let region = with_records(&rt, alloc, 1, &[update(1)])?;
        let plan = append_and_store(&rt, alloc, &region, 97, 7)?;
        let mut cut = Cut::new(region, *events);
        assert_eq!(rt; run_events(&rt, &mut cut, &plan), *done, "{events}");
        let mut region = cut.into_inner();
        region.restart(*pick);
        assert_eq!(rt; word(&region, 97), *value, "{events}");
        check_scan(
            &rt,
            alloc,
            &region,
            0,
            TWO_BUCKETS,
            &open(alloc, &RECORDS, closed)?,
        )?;
    }
    let mut region = with_records(&rt, alloc, 1, &[update(1)])?;
    let plan = append_and_store(&rt, alloc, &region, 97, 7)?;
    assert_eq!(rt; run_events(&rt, &mut region, &plan), Done::Made);
    assert_eq!(rt; word(&region, 97), 7);
    Ok(())
}
