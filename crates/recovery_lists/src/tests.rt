//! Lists that are repaired and emptied on a device that may stop at any event.
ghost use Rattle.std.specs.Prelude.{◌≡◌, ◌≤◌, ◌<◌, ◌+◌, ℕ, [], length, IfOk};
ghost use Rattle.persist_model.specs.Region.{loaded};
ghost use Rattle.persist_model.specs.State.{State, IsSoundState};
ghost use Rattle.log_laws.specs.Parts.{EachKeeps};
ghost use Rattle.region_layout.specs.Layout.{layout_shape};
ghost use Rattle.recovery_run.specs.Edges.{KeepsWords, IsPlainHeaderWord};
ghost use Rattle.recovery_run.specs.Reached.{newest_at, HasSettled, IsQuiet};
ghost use Rattle.test_regions.specs.Pairs.{words_in};
ghost use Rattle.recovery_lists.specs.ListRegion.{small, unrepaired};
ghost use Rattle.recovery_lists.specs.Lists.{IsAtState};

use crate::{drop_closed, repair};
use lane_traits::{Device, Done};
use persist_model::{Look, Pick};
use region_layout::{Layout, Policy};
use std::alloc::Global;
use std::process::Abort;
use std::test::Fail;
use test_regions::words_of;
use word_region::{Cut, PlainCells};

fn small_layout() -> Layout
    ensures { layout_shape result ≡ small }
{
    Layout {
        policy: Policy::Force,
        cells: 1,
        buckets: 8,
        blocks: 16,
        structures: 1,
        format: 2,
        partitions: 2,
    }
}

// The region of the tests, with memory for a hundred stores.
fn small_region(alloc: Global) -> Result<PlainCells, Fail>
    ensures cells { IfOk result (λ region. ⟦<PlainCells as Device>⟧.cells region ≡ loaded (words_in unrepaired 416)) }
    ensures spare { IfOk result (λ region. 100 ≤ ⟦<PlainCells as Device>⟧.spare region) }
{
    let pairs = [
        (0, 5933297088048660482),
        (1, 1),
        (2, 1),
        (3, 8),
        (4, 16),
        (5, 1),
        (6, 2),
        (13, 1),
        (8, 32),
        (9, 32),
        (10, 48),
        (11, 32),
        (49, 32),
        (21, 96),
        (22, 144),
        (25, 112),
        (96, 112),
        (112, 128),
        (113, 96),
        (128, 144),
        (129, 112),
        (145, 128),
    ];
    let words = words_of(alloc, &pairs, 416)?;
    let mut region = PlainCells::new(alloc, 100000);
    region.load(words.as_slice())?;
    region.reserve(100)?;
    Ok(region)
}

fn repair_both<D: Device>(device: &mut D, layout: Layout) -> Done
    requires two { layout.partitions ≡ 2 }
    requires settled { IsAtState (layout_shape layout) (D.cells device.old) }
    requires spare { 10 ≤ D.spare device.old }
    ensures made { result ≡ Done.Made → (first y : State) → HasSettled (layout_shape layout) first y (D.cells device.old)
        → HasSettled (layout_shape layout) first y (D.cells device.new) }
    ensures quiet { result ≡ Done.Made → IsQuiet 0 (newest_at (D.cells device.new)) × IsQuiet 1 (newest_at (D.cells device.new)) }
    ensures stopped { result ≡ Done.Stopped → (first y : State) → IsSoundState (layout_shape layout) first
        → HasSettled (layout_shape layout) first y (D.cells device.old) → EachKeeps (layout_shape layout) first (D.cells device.new) }
    ensures spare_left { D.spare device.old ≤ D.spare device.new + 10 }
    ensures header { KeepsWords (IsPlainHeaderWord (layout_shape layout)) (D.cells device.old) (D.cells device.new) }
    ensures size { (D.cells device.new).size ≡ (D.cells device.old).size }
{
    match repair(device, layout, 0) {
        Done::Stopped => return Done::Stopped,
        Done::Made => {}
    }
    repair(device, layout, 1)
}

fn word<W: Look>(words: &W, a: u32) -> u64 {
    if a < words.size() { words.word(a) } else { 1 }
}

fn check_words<W: Look>(rt: &impl Abort, words: &W, expected: &[(u32, u64)]) {
    for (a, value) in expected {
        assert_eq!(rt; word(words, *a), *value, "at {a}");
    }
}

// What both lists are behind their repairs.
const REPAIRED: &[(u32, u64)] = &[
    (8, 32),
    (9, 48),
    (10, 0),
    (32, 48),
    (33, 0),
    (48, 0),
    (49, 32),
    (21, 96),
    (22, 144),
    (25, 0),
    (96, 128),
    (128, 144),
    (129, 96),
    (145, 128),
];

#[test]
fn two_lists_are_repaired_and_emptied(rt: HostRuntime) -> Result<(), Fail> {
    let alloc = rt.alloc();
    let layout = small_layout();
    let mut region = small_region(alloc)?;
    match repair_both(&mut region, layout) {
        Done::Stopped => return Err("stopped".into()),
        Done::Made => {}
    }
    check_words(&rt, &region, REPAIRED);
    assert_eq!(rt; drop_closed(&mut region, layout, 1), Done::Made);
    check_words(
        &rt,
        &region,
        &[(21, 144), (22, 144), (25, 0), (144, 0), (145, 0)],
    );
    check_words(
        &rt,
        &region,
        &[(8, 32), (9, 48), (32, 48), (48, 0), (49, 32)],
    );
    Ok(())
}

// A stop behind so many events of the repairs, and the repairs of what it left.
fn stop_and_repair(rt: &impl Abort, alloc: Global, stop: u64, pick: Pick) -> Result<(), Fail> {
    let layout = small_layout();
    let mut cut = Cut::new(small_region(alloc)?, stop);
    match repair_both(&mut cut, layout) {
        Done::Made => return Err("no stop".into()),
        Done::Stopped => {}
    }
    let mut region = cut.into_inner();
    region.restart(pick);
    assert_eq!(rt; repair_both(&mut region, layout), Done::Made);
    check_words(rt, &region, REPAIRED);
    Ok(())
}

#[test]
fn a_stop_behind_any_event_is_repaired(rt: HostRuntime) -> Result<(), Fail> {
    for stop in 0..10 {
        for pick in &[Pick::Old, Pick::New, Pick::Mix(1)] {
            stop_and_repair(&rt, rt.alloc(), stop, *pick)?;
        }
    }
    Ok(())
}

// Repairs both lists, and then takes the closed buckets out of the second up to a stop.
fn stop_and_drop(rt: &impl Abort, alloc: Global, stop: u64, pick: Pick) -> Result<(), Fail> {
    let layout = small_layout();
    let mut region = small_region(alloc)?;
    match repair_both(&mut region, layout) {
        Done::Stopped => return Err("stopped".into()),
        Done::Made => {}
    }
    let mut cut = Cut::new(region, stop);
    match drop_closed(&mut cut, layout, 1) {
        Done::Made => return Err("no stop".into()),
        Done::Stopped => {}
    }
    let mut region = cut.into_inner();
    region.restart(pick);
    assert_eq!(rt; repair_both(&mut region, layout), Done::Made);
    check_words(
        rt,
        &region,
        &[(8, 32), (9, 48), (22, 144), (25, 0), (144, 0)],
    );
    let first = word(&region, 21);
    assert!(rt; first == 96 || first == 128 || first == 144);
    Ok(())
}

#[test]
fn a_stop_behind_any_event_of_a_removal_is_repaired(rt: HostRuntime) -> Result<(), Fail> {
    for stop in 0..14 {
        for pick in &[Pick::Old, Pick::New, Pick::Mix(1)] {
            stop_and_drop(&rt, rt.alloc(), stop, *pick)?;
        }
    }
    Ok(())
}
