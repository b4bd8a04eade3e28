//! Recoveries that are stopped at each of their events.
ghost use Rattle.std.specs.Prelude.{◌≡◌};
ghost use Rattle.persist_model.specs.Region.{AreSettled};

use crate::images::{Image, layout, words_of};
use crate::runs::{Case, check, check_again, check_words, loaded, recovered};
use lane_traits::Device;
use persist_model::Pick;
use recovery_passes::{RecoverFault, recover};
use region_layout::Policy;
use std::alloc::Global;
use std::process::Abort;
use std::test::Fail;
use word_region::{Cut, PlainCells};

// Recovers the device through a cut behind so many events, and restarts it with the pick. It also says whether the
// recovery was stopped.
fn cut_short(
    rt: &impl Abort,
    alloc: Global,
    region: PlainCells,
    stop: u64,
    pick: Pick,
) -> (PlainCells, bool)
    requires { AreSettled (⟦<PlainCells as Device>⟧.cells region) }
    ensures { AreSettled (⟦<PlainCells as Device>⟧.cells result.0) }
{
    let mut cut = Cut::new(region, stop);
    let is_stopped = match recover(alloc, &mut cut) {
        Ok(_) => false,
        Err(RecoverFault::Stopped) => true,
        Err(fault) => panic!(rt; "{fault:?} at {stop}"),
    };
    let mut region = cut.into_inner();
    region.restart(pick);
    (region, is_stopped)
}

// Recovers the device to the end, and once more.
fn finish(rt: &impl Abort, alloc: Global, region: &mut PlainCells, case: &Case)
    requires { AreSettled (⟦<PlainCells as Device>⟧.cells region.old) }
{
    recovered(rt, alloc, region);
    check_words(rt, region, case.after);
    check_again(rt, alloc, region);
}

// A stop behind so many events.
fn check_stop(rt: &impl Abort, alloc: Global, case: &Case, words: &[u64], stop: u64, pick: Pick) {
    let region = loaded(rt, alloc, words);
    let (mut region, is_stopped) = cut_short(rt, alloc, region, stop, pick);
    assert!(rt; is_stopped, "at {stop}");
    assert_eq!(rt; region.events(), stop);
    finish(rt, alloc, &mut region, case);
}

// Stops in a row, each one event later than the one before.
fn check_row(rt: &impl Abort, alloc: Global, case: &Case, words: &[u64], pick: Pick) {
    let mut region = loaded(rt, alloc, words);
    for stop in 0..case.events {
        let (left, _) = cut_short(rt, alloc, region, stop, pick);
        region = left;
    }
    finish(rt, alloc, &mut region, case);
}

// The whole recovery, each stop, and stops in a row.
fn check_stops(rt: &impl Abort, alloc: Global, case: &Case) -> Result<(), Fail>
    requires { case.now.image.layout.structures ≡ 1 }
{
    check(rt, alloc, case)?;
    let words = words_of(alloc, &case.image)?;
    for pick in [Pick::Old, Pick::New, Pick::Mix(1), Pick::Mix(2)] {
        for stop in 0..case.events {
            check_stop(rt, alloc, case, &words, stop, pick);
        }
        check_row(rt, alloc, case, &words, pick);
    }
    Ok(())
}

// Transaction 1 runs. It took its second update back, whose word still has the value that was taken back. Transaction 2
// has ended and deletes block 2.
#[test]
fn a_recovery_in_one_bucket_is_stopped_anywhere(rt: HostRuntime) -> Result<(), Fail> {
    check_stops(
        &rt,
        rt.alloc(),
        &Case {
            image: Image {
                layout: layout(Policy::Force, 16, 4, 1),
                chain: &[32],
                records: &[
                    (40, [1, 1, 1, 577, 5, 7, 0, 0]),
                    (48, [2, 1, 1, 578, 0, 9, 1, 0]),
                    (56, [3, 1, 2, 578, 9, 0, 1, 0]),
                    (64, [4, 2, 1, 593, 0, 4, 0, 0]),
                    (72, [5, 2, 6, 608, 1, 0, 0, 0]),
                    (80, [6, 2, 4, 0, 0, 0, 0, 1]),
                ],
                words: &[(577, 7), (578, 9), (592, 1), (593, 4), (608, 1)],
            },
            after: &[(577, 5), (578, 0), (592, 1), (593, 4), (608, 0)],
            winners: &[2],
            losers: &[1],
            // 2 of the deletion, 10 + 1 + 10 + 1 + 1 + 10 of the undo, 8 + 3 of the closing
            events: 46,
        },
    )
}

// The same in nine buckets of one cell, which has room for the three records of the undo and no more.
#[test]
fn a_recovery_in_nine_buckets_is_stopped_anywhere(rt: HostRuntime) -> Result<(), Fail> {
    check_stops(
        &rt,
        rt.alloc(),
        &Case {
            image: Image {
                layout: layout(Policy::Force, 1, 9, 1),
                chain: &[32, 48, 64, 80, 96, 112],
                records: &[
                    (40, [1, 1, 1, 177, 5, 7, 0, 0]),
                    (56, [2, 1, 1, 178, 0, 9, 1, 0]),
                    (72, [3, 1, 2, 178, 9, 0, 1, 0]),
                    (88, [4, 2, 1, 193, 0, 4, 0, 0]),
                    (104, [5, 2, 6, 208, 1, 0, 0, 0]),
                    (120, [6, 2, 4, 0, 0, 0, 0, 1]),
                ],
                words: &[(177, 7), (178, 9), (192, 1), (193, 4), (208, 1)],
            },
            after: &[(177, 5), (178, 0), (192, 1), (193, 4), (208, 0)],
            winners: &[2],
            losers: &[1],
            // 2 of the deletion, 22 + 1 + 22 + 1 + 1 + 22 of the undo, 8 + 3 of the closing, 8 * 7 of the removals
            events: 138,
        },
    )
}

// Commits leave their words to a checkpoint. Transaction 1 ended before the last one, transaction 2 behind it, and
// transaction 3 runs.
#[test]
fn a_recovery_with_a_checkpoint_is_stopped_anywhere(rt: HostRuntime) -> Result<(), Fail> {
    check_stops(
        &rt,
        rt.alloc(),
        &Case {
            image: Image {
                layout: layout(Policy::NoForce, 16, 4, 1),
                chain: &[32],
                records: &[
                    (40, [1, 1, 1, 577, 0, 5, 0, 0]),
                    (48, [2, 1, 4, 0, 0, 0, 0, 1]),
                    (56, [3, 0, 5, 0, 0, 0, 0, 0]),
                    (64, [4, 2, 1, 577, 5, 8, 0, 0]),
                    (72, [5, 3, 1, 578, 3, 6, 0, 0]),
                    (80, [6, 2, 6, 608, 1, 0, 0, 0]),
                    (88, [7, 3, 1, 578, 6, 9, 5, 0]),
                    (96, [8, 2, 4, 0, 0, 0, 0, 1]),
                ],
                words: &[(577, 5), (578, 9), (592, 1), (608, 1)],
            },
            after: &[(577, 8), (578, 3), (592, 1), (608, 0)],
            winners: &[1, 2],
            losers: &[3],
            // 2 + 1 of the redo, 10 + 11 + 11 + 1 + 10 of the undo, 10 of the checkpoint record, 9 + 4 + 3 of the closing
            events: 72,
        },
    )
}
