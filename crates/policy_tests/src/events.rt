//! The events of plans on a small region of one cell a bucket, with the places of their records worked out by hand.
//! An append has the same events under both policies.
ghost use Rattle.std.specs.Prelude.{◌≡◌, ◌<◌, ◌^◌};
ghost use Rattle.persist_model.specs.declared.format.TheConstants.{MAX_WORDS};

use atomic_list::{Remove, remove_event};
use bucket_log::{Place, append_event};
use log_clearing::{ClearList, clear_event};
use persist_model::{Event, List};
use plan_records::Part;
use region_layout::{Cell, Layout, Policy, numbered};
use std::alloc::Global;
use std::test::Fail;

fn layout() -> Layout
    ensures { result.cells ≡ 1 }
{
    Layout {
        policy: Policy::Force,
        cells: 1,
        buckets: 16,
        blocks: 16,
        structures: 1,
        format: 2,
        partitions: 1,
    }
}

// The events so far, and how many records were appended: each goes to a bucket of its own.
#[derive(Drop)]
pub(crate) struct Events {
    pub made: Vec<Event>,
    pub records: u32,
    pub ghost few_records: { records < 2 ^ 16 },
}

// Appends a record in the next bucket.
pub(crate) fn push_append(events: &mut Events, cell: Cell) -> Result<(), Fail> {
    if events.records >= 1000 {
        return Err("many".into());
    }
    let number = events.records;
    let tail = if number == 0 { 0 } else { 16 + 16 * number };
    let place = Place {
        bucket: 32 + 16 * number,
        cell: 0,
        fresh: true,
        tail,
    };
    let record = numbered(cell, u64::from(number) + 1);
    for i in 0..100 {
        if let Some(event) = append_event(layout(), place, &record, i) {
            events.made.push(event)?;
        }
    }
    events.records = number + 1;
    Ok(())
}

pub(crate) fn push_part(events: &mut Events, part: &Part) -> Result<(), Fail> {
    match part {
        Part::Append(cell) => push_append(events, *cell)?,
        Part::Word(event) => events.made.push(*event)?,
        Part::Fence => events.made.push(Event::Fence)?,
        Part::Clear => {}
    }
    Ok(())
}

pub(crate) fn push_closing(events: &mut Events, list: &ClearList) -> Result<(), Fail> {
    for i in 0..100 {
        if let Some(event) = clear_event(list, i) {
            events.made.push(event)?;
        }
    }
    Ok(())
}

pub(crate) fn push_removal(events: &mut Events, removal: Remove) -> Result<(), Fail>
    requires { removal.next < MAX_WORDS }
{
    for i in 0..7 {
        if let Some(event) = remove_event(removal, i) {
            events.made.push(event)?;
        }
    }
    Ok(())
}

pub(crate) fn no_events(alloc: Global) -> Events {
    Events {
        made: Vec::new(alloc),
        records: 0,
    }
}

// Whether event n, counted from 1, is this one: a store by its address and value, another without.
pub(crate) fn is_store(events: &Events, n: usize, address: u32, stored: u64) -> bool {
    if n == 0 {
        return false;
    }
    match events.made.get(n - 1) {
        Some(Event::PStore(a, v)) => *a == address && *v == stored,
        _ => false,
    }
}

pub(crate) fn is_fence(events: &Events, n: usize) -> bool {
    if n == 0 {
        return false;
    }
    matches!(events.made.get(n - 1), Some(Event::Fence))
}

pub(crate) fn list(alloc: Global, items: &[u32]) -> Result<List<u32>, Fail> {
    Ok(List::from_vec(items.to_vec(alloc)?))
}

// Whether event n is a store that nothing asks to be kept.
pub(crate) fn is_open_store(events: &Events, n: usize, address: u32, stored: u64) -> bool {
    if n == 0 {
        return false;
    }
    match events.made.get(n - 1) {
        Some(Event::Store(a, v)) => *a == address && *v == stored,
        _ => false,
    }
}

pub(crate) fn is_write_back(events: &Events, n: usize, address: u32) -> bool {
    if n == 0 {
        return false;
    }
    match events.made.get(n - 1) {
        Some(Event::WriteBack(a)) => *a == address,
        _ => false,
    }
}
