ghost use Rattle.std.specs.Prelude.{◌≡◌, ◌≤◌, List, IfOk, length};
ghost use Rattle.region_layout.specs.Layout.{layout_shape};
ghost use Rattle.test_regions.specs.Pairs.{words_in};
ghost use Rattle.batch_log.specs.FreeBuckets.{buckets_for, AreWithin};
ghost use Rattle.batch_log.specs.TestRegion.{sixteens, two_chained};

use crate::{Group, Slots, group_event, slots};
use persist_model::{Event, List, Look};
use region_layout::{Cell, Layout, Policy};
use std::alloc::Global;
use std::process::Abort;
use std::test::Fail;
use test_regions::Row;

fn layout_of_tests() -> Layout
    ensures { layout_shape result ≡ sixteens }
{
    Layout {
        policy: Policy::Force,
        cells: 16,
        buckets: 4,
        blocks: 16,
        structures: 1,
        format: 2,
        partitions: 1,
    }
}

fn row_of_tests(alloc: Global) -> Result<Row, Fail>
    ensures { IfOk result (λ row. ⟦<Row as Look>⟧.words row ≡ words_in two_chained 832) }
{
    let pairs = [
        (0, 5933297088048660482),
        (1, 1),
        (2, 16),
        (3, 4),
        (4, 16),
        (5, 1),
        (6, 1),
        (13, 1),
        (8, 304),
        (9, 32),
        (304, 32),
        (33, 304),
    ];
    Ok(Row::of(alloc, &pairs, 832)?)
}

// So many updates of one transaction, numbered from 1.
fn group_of(alloc: Global, count: u64) -> Result<Group, Fail>
    ensures { IfOk result (λ group. length group.records ≡ count) }
{
    let mut records = Vec::new(alloc);
    for i in 0..count {
        let cell = Cell {
            lsn: i + 1,
            transaction: 7,
            kind: 1,
            word: 600,
            before: i,
            after: 5,
            undo_next: 0,
            outcome: 0,
        };
        records.push(cell)?;
    }
    Ok(Group {
        records: List::from_vec(records),
    })
}

// The slots for so many records of the tests' region.
fn slots_for(
    rt: &impl Abort,
    alloc: Global,
    row: &Row,
    layout: Layout,
    count: u64,
) -> Result<Slots, Fail>
    requires layout { layout_shape layout ≡ sixteens }
    requires row { ⟦<Row as Look>⟧.words row.now ≡ words_in two_chained 832 }
    requires count { count ≤ 64 }
    ensures enough { IfOk result (λ chosen. length chosen.buckets ≡ buckets_for layout.cells count) }
    ensures within { IfOk result (λ chosen. AreWithin chosen.buckets) }
{
    let mut chosen = Slots::new(alloc, 4)?;
    let part = layout.part(0);
    if !slots(row, layout, part, count, &mut chosen) {
        panic!(rt; "too few buckets are free");
    }
    Ok(chosen)
}

// Event i stores this value durably.
fn expect_store(
    rt: &impl Abort,
    layout: Layout,
    chosen: &Slots,
    group: &Group,
    i: u64,
    address: u32,
    value: u64,
)
    requires within { AreWithin chosen.now.buckets }
    requires enough { length chosen.now.buckets ≡ buckets_for layout.cells (length group.now.records) }
{
    match group_event(layout, chosen, group, i) {
        Some(Event::PStore(a, v)) => {
            assert_eq!(rt; a, address);
            assert_eq!(rt; v, value);
        }
        _ => panic!(rt; "event {i} is no durable store"),
    }
}

fn expect_fence(rt: &impl Abort, layout: Layout, chosen: &Slots, group: &Group, i: u64)
    requires within { AreWithin chosen.now.buckets }
    requires enough { length chosen.now.buckets ≡ buckets_for layout.cells (length group.now.records) }
{
    assert!(rt; matches!(group_event(layout, chosen, group, i), Some(Event::Fence)));
}

fn expect_none(rt: &impl Abort, layout: Layout, chosen: &Slots, group: &Group, i: u64)
    requires within { AreWithin chosen.now.buckets }
    requires enough { length chosen.now.buckets ≡ buckets_for layout.cells (length group.now.records) }
{
    assert!(rt; matches!(group_event(layout, chosen, group, i), None));
}

#[test]
fn one_record_takes_34_events(rt: HostRuntime) -> Result<(), Fail> {
    let alloc = rt.alloc();
    let layout = layout_of_tests();
    let row = row_of_tests(alloc)?;
    let chosen = slots_for(&rt, alloc, &row, layout, 1)?;
    let group = group_of(alloc, 1)?;
    let stores = [
        (0, 176, 1),
        (1, 177, 7),
        (8, 184, 0),
        (22, 296, 0),
        (23, 168, 0),
        (24, 169, 32),
        (25, 11, 32),
        (27, 10, 168),
        (29, 32, 168),
        (30, 9, 168),
        (32, 10, 0),
    ];
    for (i, address, value) in stores {
        expect_store(&rt, layout, &chosen, &group, i, address, value);
    }
    expect_fence(&rt, layout, &chosen, &group, 26);
    expect_fence(&rt, layout, &chosen, &group, 28);
    expect_fence(&rt, layout, &chosen, &group, 33);
    expect_none(&rt, layout, &chosen, &group, 34);
    Ok(())
}

#[test]
fn twenty_records_take_two_buckets(rt: HostRuntime) -> Result<(), Fail> {
    let alloc = rt.alloc();
    let layout = layout_of_tests();
    let row = row_of_tests(alloc)?;
    let chosen = slots_for(&rt, alloc, &row, layout, 20)?;
    assert_eq!(rt; chosen.buckets(), [168, 440].as_slice());
    assert_eq!(rt; chosen.tail(), 32);
    let group = group_of(alloc, 20)?;
    let stores = [
        (127, 303, 0),
        (128, 168, 0),
        (132, 10, 168),
        (139, 448, 17),
        (171, 480, 0),
        (183, 440, 0),
        (184, 441, 168),
        (189, 168, 440),
    ];
    for (i, address, value) in stores {
        expect_store(&rt, layout, &chosen, &group, i, address, value);
    }
    expect_fence(&rt, layout, &chosen, &group, 193);
    expect_none(&rt, layout, &chosen, &group, 194);
    expect_none(&rt, layout, &chosen, &group, 400);
    Ok(())
}

#[test]
fn three_buckets_are_not_free(rt: HostRuntime) -> Result<(), Fail> {
    let alloc = rt.alloc();
    let layout = layout_of_tests();
    let row = row_of_tests(alloc)?;
    let mut chosen = Slots::new(alloc, 4)?;
    let part = layout.part(0);
    let found = slots(&row, layout, part, 33, &mut chosen);
    assert!(rt; !found);
    assert_eq!(rt; chosen.buckets(), [].as_slice());
    Ok(())
}
