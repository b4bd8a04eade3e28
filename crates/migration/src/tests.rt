//! Migrations to the end, and stopped at each event.
ghost use Rattle.std.specs.Prelude.{◌≤◌, length, IfOk};
ghost use Rattle.persist_model.specs.Region.{AreSettled};

use crate::migrate;
use lane_traits::Device;
use persist_model::format::{FIRST_MAGIC, MAX_WORDS, SECOND_MAGIC};
use persist_model::{ImageRule, Look, Pick};
use recovery_passes::RecoverFault;
use region_layout::{ImageFault, Kind};
use std::alloc::Global;
use std::process::Abort;
use std::test::Fail;
use test_regions::{word_of, words_of};
use word_region::{Cut, PlainCells};

/// The words of a region of four buckets of one cell and 16 blocks.
const SIZE: u32 = 352;

/// A region, the kinds of its structures, what its migration makes of it, and by how many events.
#[derive(Clone, Copy)]
struct Case<'a> {
    before: &'a [(u32, u64)],
    kinds: &'a [Kind],
    after: &'a [(u32, u64)],
    events: u64,
}

/// A fresh region of one map of cells.
const FRESH: Case<'static> = Case {
    before: &[
        (0, FIRST_MAGIC),
        (1, 1),
        (2, 1),
        (3, 4),
        (4, 16),
        (5, 1),
        (96, 1),
    ],
    kinds: &[Kind::Cells],
    after: &[
        (0, SECOND_MAGIC),
        (1, 1),
        (2, 1),
        (3, 4),
        (4, 16),
        (5, 1),
        (6, 1),
        (13, 1),
        (96, 1),
    ],
    events: 24,
};

/// Three structures, and words in the header that format 1 doesn't read. Transaction 1 runs: it changed word 100 from 5 to 7.
const RUNNING: Case<'static> = Case {
    before: &[
        (0, FIRST_MAGIC),
        (1, 1),
        (2, 1),
        (3, 4),
        (4, 16),
        (5, 3),
        (6, 9),
        (7, 9),
        (8, 32),
        (9, 32),
        (15, 9),
        (16, 9),
        (31, 9),
        (40, 1),
        (41, 1),
        (42, 1),
        (43, 100),
        (44, 5),
        (45, 7),
        (96, 1),
        (100, 7),
        (112, 2),
        (128, 3),
    ],
    kinds: &[Kind::Cells, Kind::Tree, Kind::Hash],
    after: &[
        (0, SECOND_MAGIC),
        (1, 1),
        (5, 3),
        (6, 1),
        (7, 0),
        (13, 1),
        (14, 2),
        (15, 3),
        (16, 0),
        (31, 0),
        (40, 0),
        (96, 1),
        (100, 5),
        (112, 2),
        (128, 3),
    ],
    // 3 * 22 + 2 of the undo, 4 + 2 of the closing, 3 * 7 of the removals, and 24
    events: 119,
};

/// A device with these words that never stops of itself.
fn loaded(rt: &impl Abort, alloc: Global, pairs: &[(u32, u64)]) -> Result<PlainCells, Fail>
    ensures { IfOk result (λ region. AreSettled (⟦<PlainCells as Device>⟧.cells region)) }
{
    let words = words_of(alloc, pairs, SIZE)?;
    let mut region = PlainCells::new(alloc, u64::MAX);
    assert!(rt; words.len() <= MAX_WORDS as usize);
    match region.load(&words) {
        Ok(()) => Ok(region),
        Err(refused) => panic!(rt; "{refused:?}"),
    }
}

/// Migrates the device to the end.
fn migrated<D: Device>(rt: &impl Abort, alloc: Global, device: &mut D, kinds: &[Kind]) -> u64
    requires settled { AreSettled (D.cells device.old) }
    requires few { length kinds.now ≤ 8 }
    ensures { AreSettled (D.cells device.new) }
{
    match migrate(alloc, device, kinds) {
        Ok(events) => events,
        Err(fault) => panic!(rt; "{fault:?}"),
    }
}

fn word<W: Look>(words: &W, a: u32) -> u64 {
    if a < words.size() { words.word(a) } else { 0 }
}

/// Whether these words are there.
fn check_words<W: Look>(rt: &impl Abort, words: &W, expected: &[(u32, u64)]) {
    for (a, value) in expected {
        assert_eq!(rt; word(words, *a), *value, "word {a}");
    }
}

/// Whether these words are there, and 0 elsewhere.
fn check_all<W: Look>(rt: &impl Abort, words: &W, expected: &[(u32, u64)]) {
    for a in 0..SIZE {
        assert_eq!(rt; word(words, a), word_of(expected, a), "word {a}");
    }
}

/// Migrates the device through a cut behind so many events, and restarts it with the pick.
fn cut_short(
    rt: &impl Abort,
    alloc: Global,
    region: PlainCells,
    kinds: &[Kind],
    stop: u64,
    pick: Pick,
) -> PlainCells
    requires settled { AreSettled (⟦<PlainCells as Device>⟧.cells region) }
    requires few { length kinds.now ≤ 8 }
    ensures { AreSettled (⟦<PlainCells as Device>⟧.cells result) }
{
    let mut cut = Cut::new(region, stop);
    match migrate(alloc, &mut cut, kinds) {
        Err(RecoverFault::Stopped) => {}
        other => panic!(rt; "{other:?} at {stop}"),
    }
    let mut region = cut.into_inner();
    region.restart(pick);
    region
}

/// Migrates the case's region, and again.
fn check(rt: &impl Abort, alloc: Global, case: &Case) -> Result<(), Fail>
    requires { length case.now.kinds.now ≤ 8 }
{
    let mut region = loaded(rt, alloc, case.before)?;
    let events = migrated(rt, alloc, &mut region, case.kinds);
    assert_eq!(rt; events, case.events);
    assert_eq!(rt; region.events(), case.events);
    check_words(rt, &region, case.after);
    let again = migrated(rt, alloc, &mut region, case.kinds);
    assert_eq!(rt; again, 0);
    check_words(rt, &region, case.after);
    Ok(())
}

/// Stops behind so many events, and migrates what is left.
fn check_stop(
    rt: &impl Abort,
    alloc: Global,
    case: &Case,
    stop: u64,
    pick: Pick,
) -> Result<PlainCells, Fail>
    requires { length case.now.kinds.now ≤ 8 }
{
    let whole = loaded(rt, alloc, case.before)?;
    let mut region = cut_short(rt, alloc, whole, case.kinds, stop, pick);
    assert_eq!(rt; region.events(), stop);
    migrated(rt, alloc, &mut region, case.kinds);
    check_words(rt, &region, case.after);
    Ok(region)
}

#[test]
fn a_fresh_region_is_migrated(rt: HostRuntime) -> Result<(), Fail> {
    check(&rt, rt.alloc(), &FRESH)
}

#[test]
fn a_region_is_recovered_and_migrated(rt: HostRuntime) -> Result<(), Fail> {
    check(&rt, rt.alloc(), &RUNNING)
}

#[test]
fn whatever_a_stop_leaves_of_a_fresh_region_is_migrated_to_the_same(
    rt: HostRuntime,
) -> Result<(), Fail> {
    for pick in [Pick::Old, Pick::New, Pick::Mix(1), Pick::Mix(2)] {
        for stop in 0..FRESH.events {
            let region = check_stop(&rt, rt.alloc(), &FRESH, stop, pick)?;
            check_all(&rt, &region, FRESH.after);
        }
    }
    Ok(())
}

#[test]
fn a_recovery_and_migration_is_stopped_anywhere(rt: HostRuntime) -> Result<(), Fail> {
    for pick in [Pick::Old, Pick::New, Pick::Mix(1), Pick::Mix(2)] {
        for stop in 0..RUNNING.events {
            check_stop(&rt, rt.alloc(), &RUNNING, stop, pick)?;
        }
    }
    Ok(())
}

// Behind 23 events the magic is stored and not fenced.
#[test]
fn the_magic_is_stored_last(rt: HostRuntime) -> Result<(), Fail> {
    let alloc = rt.alloc();
    let whole = loaded(&rt, alloc, FRESH.before)?;
    let old = cut_short(&rt, alloc, whole, FRESH.kinds, 23, Pick::Old);
    check_words(&rt, &old, &[(0, FIRST_MAGIC), (6, 1), (13, 1)]);
    let whole = loaded(&rt, alloc, FRESH.before)?;
    let new = cut_short(&rt, alloc, whole, FRESH.kinds, 23, Pick::New);
    check_all(&rt, &new, FRESH.after);
    Ok(())
}

#[test]
fn kinds_that_do_not_fit_are_refused(rt: HostRuntime) -> Result<(), Fail> {
    let alloc = rt.alloc();
    let mut first = loaded(&rt, alloc, FRESH.before)?;
    assert_eq!(rt;
        migrate(alloc, &mut first, &[Kind::Cells, Kind::Cells]),
        Err(RecoverFault::Unsound(ImageFault {
            rule: ImageRule::Sizes,
            address: 5
        }))
    );
    let mut second = loaded(&rt, alloc, FRESH.after)?;
    assert_eq!(rt;
        migrate(alloc, &mut second, &[Kind::Tree]),
        Err(RecoverFault::Unsound(ImageFault {
            rule: ImageRule::Sizes,
            address: 13
        }))
    );
    Ok(())
}
