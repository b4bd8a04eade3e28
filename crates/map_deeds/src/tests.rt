use super::*;
use lane_traits::Pair;
use lane_types::Entry;
use persist_model::{List, NoMemory};
use region_layout::Kind;
use rewind_script::{Command, Fate, How, Named, PairList, write_report, write_stopped};
use std::alloc::Global;
use std::test::*;

const KINDS: [Kind; 3] = [Kind::Cells, Kind::Tree, Kind::Hash];

fn list_of<T: Copy + Drop>(alloc: Global, items: &[T]) -> Result<List<T>, NoMemory> {
    let mut list = List::new(alloc);
    for item in items {
        if list.push(*item).is_err() {
            return Err(NoMemory);
        }
    }
    Ok(list)
}

/// A get of this key that read this, behind a put.
fn entry(
    alloc: Global,
    lane: u32,
    number: u64,
    key: u64,
    got: Option<u64>,
) -> Result<Entry<MapDeed>, NoMemory> {
    let steps = [
        Done {
            command: Command::Put {
                map: 0,
                key: 1,
                value: 10,
            },
            got: None,
        },
        Done {
            command: Command::Get { map: 0, key },
            got,
        },
    ];
    Ok(Entry {
        lane,
        number,
        transaction: number,
        deed: MapDeed {
            set: 1,
            kinds: list_of(alloc, &KINDS)?,
            steps: list_of(alloc, &steps)?,
        },
        writes: List::new(alloc),
    })
}

fn two_entries(alloc: Global) -> Result<List<Entry<MapDeed>>, NoMemory> {
    let mut entries = List::new(alloc);
    let first = entry(alloc, 0, 0, 1, Some(10))?;
    if entries.push(first).is_err() {
        return Err(NoMemory);
    }
    let second = entry(alloc, 3, 2, 5, None)?;
    if entries.push(second).is_err() {
        return Err(NoMemory);
    }
    Ok(entries)
}

fn one_map(alloc: Global) -> Result<List<PairList>, NoMemory> {
    let mut maps = List::new(alloc);
    let pairs = list_of(alloc, &[Pair { key: 1, value: 10 }])?;
    if maps.push(PairList { pairs }).is_err() {
        return Err(NoMemory);
    }
    Ok(maps)
}

#[test]
fn a_run_is_printed(rt: HostRuntime) -> Result<(), Fail> {
    let alloc = rt.alloc();
    let history = two_entries(alloc)?;
    let kept = list_of(alloc, &[Named { lane: 1, number: 4 }])?;
    let lost = Fate {
        lane: 2,
        number: 0,
        how: How::Lost,
    };
    let fates = list_of(alloc, &[lost])?;
    let maps = one_map(alloc)?;
    let report = report_of_run(alloc, history.as_slice(), kept, fates, maps)?;
    let text = write_report(alloc, &report)?;
    assert_eq!(rt;
        text.as_slice(),
        b"commit 0 0\ngot 1 10\ncommit 3 2\ngot 5 none\nkept 1 4\nlost 2 0\nmap 0\n1 10\nend\n".as_slice()
    );
    Ok(())
}

#[test]
fn a_stop_is_printed(rt: HostRuntime) -> Result<(), Fail> {
    let alloc = rt.alloc();
    let history = two_entries(alloc)?;
    let flight = two_entries(alloc)?;
    let report = report_of_stop(alloc, history.as_slice(), flight.as_slice())?;
    let text = write_stopped(alloc, &report)?;
    assert_eq!(rt;
        text.as_slice(),
        b"commit 0 0\ngot 1 10\ncommit 3 2\ngot 5 none\nflight 0 0\nflight 3 2\nstopped\n".as_slice()
    );
    Ok(())
}

#[test]
fn nothing_but_a_stop(rt: HostRuntime) -> Result<(), Fail> {
    let report = report_of_stop(rt.alloc(), &[], &[])?;
    let text = write_stopped(rt.alloc(), &report)?;
    assert_eq!(rt; text.as_slice(), b"stopped\n".as_slice());
    Ok(())
}

#[test]
fn weights(rt: HostRuntime) {
    let commands = [
        Command::Put {
            map: 1,
            key: 3,
            value: 7,
        },
        Command::Savepoint,
        Command::Del { map: 2, key: 3 },
        Command::Rollback(0),
        Command::Get { map: 0, key: 3 },
    ];
    assert_eq!(rt; cells_of_commands(false, &KINDS, &commands), 445);
    assert_eq!(rt; cells_of_commands(true, &KINDS, &commands), 477);
    assert_eq!(rt; most_events_of(16, 445), 20_919);
    assert_eq!(rt; most_events_of(16, u64::MAX), u64::MAX);
}
