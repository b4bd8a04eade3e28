//! Migrations of image texts, whole and cut short.
use crate::status::Status;
use crate::tests::{Case, check, migrate, misused, recover, told};
use std::alloc::AllocError;
use std::process::Abort;
use std::test::Fail;

/// A fresh region of format 1.
const FIRST_FORMAT: &[u8] =
    b"image 352\nmap cells\n0 52574e4400000001\n1 0000000000000001\n2 0000000000000001\n3 0000000000000004\n4 0000000000000010\n5 0000000000000001\n96 0000000000000001\nend\n";

/// It in format 2.
const SECOND_FORMAT: &[u8] =
    b"image 352\nmap cells\n0 52574e4400000002\n1 0000000000000001\n2 0000000000000001\n3 0000000000000004\n4 0000000000000010\n5 0000000000000001\n6 0000000000000001\n13 0000000000000001\n96 0000000000000001\nend\n";

/// What stands before the magic is there.
const HALFWAY: &[u8] =
    b"image 352\nmap cells\n0 52574e4400000001\n1 0000000000000001\n2 0000000000000001\n3 0000000000000004\n4 0000000000000010\n5 0000000000000001\n6 0000000000000001\n13 0000000000000001\n96 0000000000000001\nend\n";

/// A stop before each event of its migration, and behind the last.
const STOPS: &[&str] = &[
    "0", "1", "2", "3", "4", "5", "6", "7", "8", "9", "10", "11", "12", "13", "14", "15", "16",
    "17", "18", "19", "20", "21", "22", "23", "24",
];

const PICKS: &[&str] = &["old", "new", "mix0", "mix5"];

/// The words `migrate STOP PICK`, of the first image.
fn cut_short(
    rt: &(impl Abort + AllocGlobal),
    stop: &str,
    pick: &str,
    text: &[u8],
) -> Result<(), AllocError> {
    check(
        rt,
        Case {
            words: &["migrate", stop, pick],
            ..migrate(FIRST_FORMAT, Status::Done, text)
        },
    )
}

#[test]
fn a_region_is_migrated_once(rt: HostRuntime) -> Result<(), Fail> {
    check(&rt, migrate(FIRST_FORMAT, Status::Done, SECOND_FORMAT))?;
    check(&rt, migrate(SECOND_FORMAT, Status::Done, SECOND_FORMAT))?;
    Ok(())
}

#[test]
fn the_magic_comes_last(rt: HostRuntime) -> Result<(), Fail> {
    cut_short(&rt, "23", "new", SECOND_FORMAT)?;
    cut_short(&rt, "23", "old", HALFWAY)?;
    check(&rt, migrate(HALFWAY, Status::Done, SECOND_FORMAT))?;
    Ok(())
}

#[test]
fn stops_at_both_ends(rt: HostRuntime) -> Result<(), Fail> {
    cut_short(&rt, "0", "new", FIRST_FORMAT)?;
    cut_short(&rt, "21", "old", FIRST_FORMAT)?;
    cut_short(&rt, "22", "old", HALFWAY)?;
    cut_short(&rt, "24", "old", SECOND_FORMAT)?;
    cut_short(&rt, "18446744073709551615", "mix4294967295", SECOND_FORMAT)?;
    cut_short(&rt, "00000000000000000024", "mix0000000000", SECOND_FORMAT)?;
    Ok(())
}

/// What is left at a stop is migrated to the same text.
fn stopped_and_migrated(
    rt: &(impl Abort + AllocGlobal),
    stop: &str,
    pick: &str,
) -> Result<(), AllocError> {
    let left = told(rt, &["migrate", stop, pick], FIRST_FORMAT)?;
    check(rt, migrate(left.as_slice(), Status::Done, SECOND_FORMAT))
}

#[test]
fn each_stop_is_migrated_again(rt: HostRuntime) -> Result<(), Fail> {
    for stop in STOPS {
        for pick in PICKS {
            stopped_and_migrated(&rt, *stop, *pick)?;
        }
    }
    Ok(())
}

#[test]
fn a_device_stops_a_migration(rt: HostRuntime) -> Result<(), Fail> {
    for budget in [0, 21, 23] {
        check(
            &rt,
            Case {
                budget,
                ..migrate(FIRST_FORMAT, Status::Stopped, b"stopped\n")
            },
        )?;
    }
    check(
        &rt,
        Case {
            budget: 24,
            ..migrate(FIRST_FORMAT, Status::Done, SECOND_FORMAT)
        },
    )?;
    check(
        &rt,
        Case {
            budget: 0,
            ..migrate(SECOND_FORMAT, Status::Done, SECOND_FORMAT)
        },
    )?;
    Ok(())
}

// A stop that was asked for comes first where the device would stop there too.
#[test]
fn a_device_stops_before_the_stop(rt: HostRuntime) -> Result<(), Fail> {
    for (budget, status, text) in [
        (22, Status::Stopped, b"stopped\n".as_slice()),
        (23, Status::Done, HALFWAY),
    ] {
        check(
            &rt,
            Case {
                words: &["migrate", "23", "old"],
                budget,
                ..migrate(FIRST_FORMAT, status, text)
            },
        )?;
    }
    Ok(())
}

#[test]
fn kinds_and_partitions_that_do_not_fit(rt: HostRuntime) -> Result<(), Fail> {
    let kind =
        b"image 352\nmap cells\n0 52574e4400000002\n1 0000000000000001\n2 0000000000000001\n3 0000000000000004\n4 0000000000000010\n5 0000000000000001\n6 0000000000000001\n13 0000000000000002\n96 0000000000000001\nend\n";
    check(&rt, recover(kind, Status::Unsound, b"unsound 4 13\n"))?;
    check(&rt, migrate(kind, Status::Unsound, b"unsound 4 13\n"))?;
    let partitions =
        b"image 352\nmap cells\n0 52574e4400000002\n1 0000000000000001\n2 0000000000000001\n3 0000000000000004\n4 0000000000000010\n5 0000000000000001\n6 0000000000000004\n13 0000000000000001\n96 0000000000000001\nend\n";
    check(&rt, recover(partitions, Status::Unsound, b"unsound 4 6\n"))?;
    check(&rt, migrate(partitions, Status::Unsound, b"unsound 4 6\n"))?;
    Ok(())
}

#[test]
fn images_that_are_refused(rt: HostRuntime) -> Result<(), Fail> {
    check(&rt, migrate(b"", Status::Script, b"script 1 image\n"))?;
    check(
        &rt,
        migrate(
            b"image 4\nmap cells\nend\n",
            Status::Unsound,
            b"unsound 1 0\n",
        ),
    )?;
    check(
        &rt,
        Case {
            words: &["migrate", "5", "new"],
            ..migrate(b"image 4\nmap cells\n", Status::Script, b"script 3 image\n")
        },
    )?;
    let two =
        b"image 352\nmap cells\nmap tree\n0 52574e4400000001\n1 0000000000000001\n2 0000000000000001\n3 0000000000000004\n4 0000000000000010\n5 0000000000000001\n96 0000000000000001\nend\n";
    check(
        &rt,
        Case {
            words: &["migrate", "5", "new"],
            ..migrate(two, Status::Unsound, b"unsound 4 5\n")
        },
    )?;
    Ok(())
}

#[test]
fn reads_and_writes_of_a_migration_may_fail(rt: HostRuntime) -> Result<(), Fail> {
    check(
        &rt,
        Case {
            failing_reads: &[0],
            ..migrate(FIRST_FORMAT, Status::ReadFault, b"")
        },
    )?;
    check(
        &rt,
        Case {
            words: &["migrate", "1", "old"],
            failing_writes: &[0],
            ..migrate(FIRST_FORMAT, Status::WriteFault, b"")
        },
    )?;
    Ok(())
}

#[test]
fn the_words_of_a_stop(rt: HostRuntime) -> Result<(), Fail> {
    misused(&rt, &["migrate", "old"])?;
    misused(&rt, &["migrate", "23", "newest"])?;
    misused(&rt, &["migrate", "", "new"])?;
    misused(&rt, &["migrate", "+1", "new"])?;
    misused(&rt, &["migrate", "18446744073709551616", "new"])?;
    misused(&rt, &["migrate", "000000000000000000024", "new"])?;
    misused(&rt, &["migrate", "1", "mix"])?;
    misused(&rt, &["migrate", "1", "mix 1"])?;
    misused(&rt, &["migrate", "1", "mix4294967296"])?;
    misused(&rt, &["migrate", "1", "mix00000000001"])?;
    misused(&rt, &["migrate", "1", "new", "0"])?;
    misused(&rt, &["recover", "1", "new"])?;
    Ok(())
}

// Of 22 events for the undo's record, 22 for the rollback's and the rest of a recovery, then 24.
#[test]
fn a_running_transaction_is_rolled_back_first(rt: HostRuntime) -> Result<(), Fail> {
    let running =
        b"image 352\nmap cells\n0 52574e4400000001\n1 0000000000000001\n2 0000000000000001\n3 0000000000000004\n4 0000000000000010\n5 0000000000000001\n8 0000000000000020\n9 0000000000000020\n40 0000000000000001\n41 0000000000000001\n42 0000000000000001\n43 0000000000000067\n45 0000000000000007\n96 0000000000000001\n103 0000000000000007\nend\n";
    for budget in [0, 94, 95, 118] {
        check(
            &rt,
            Case {
                budget,
                ..migrate(running, Status::Stopped, b"stopped\n")
            },
        )?;
    }
    let text = told(&rt, &["migrate"], running)?;
    check(
        &rt,
        recover(text.as_slice(), Status::Done, b"events 0\nmap 0\nend\n"),
    )?;
    check(
        &rt,
        Case {
            budget: 119,
            ..migrate(running, Status::Done, text.as_slice())
        },
    )?;
    let half = told(&rt, &["migrate", "100", "mix3"], running)?;
    check(&rt, migrate(half.as_slice(), Status::Done, text.as_slice()))?;
    Ok(())
}
