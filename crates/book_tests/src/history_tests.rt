use crate::asks::ask_commit;
use crate::ended::{finish, flies, is_entry};
use crate::start::fresh;
use crate::stores::{join, store_end};
use crate::turns::{Turn, make};
use std::test::Fail;

#[test]
fn a_commit_flies_from_its_end_until_it_joins(rt: HostRuntime) -> Result<(), Fail> {
    let alloc = rt.alloc();
    let mut book = fresh(alloc, 2)?;
    make(&mut book, &rt, alloc, 1, Turn::Begin(1))?;
    make(&mut book, &rt, alloc, 1, Turn::Write(97, 7))?;
    ask_commit(&mut book, &rt, alloc, 1)?;
    assert!(rt; !flies(&book, &rt, 1));
    store_end(&mut book, &rt, 1);
    assert!(rt; flies(&book, &rt, 1));
    assert!(rt; book.history().is_empty());
    join(&mut book, &rt, 1);
    assert!(rt; !flies(&book, &rt, 1));
    assert_eq!(rt; book.history().len(), 1);
    Ok(())
}

/// The calls of three lanes, two commits of lane 1 among them.
const STORY: &[(u32, Turn)] = &[
    (1, Turn::Begin(1)),
    (1, Turn::Write(97, 7)),
    (1, Turn::Take(0, 2)),
    (1, Turn::Give(0)),
    (1, Turn::Commit),
    (1, Turn::Begin(1)),
    (1, Turn::Write(98, 5)),
    (1, Turn::Commit),
    (2, Turn::Begin(1)),
    (2, Turn::Write(97, 8)),
    (0, Turn::Begin(2)),
    (0, Turn::Write(113, 9)),
];

#[test]
fn a_finished_book_has_its_history_and_flights(rt: HostRuntime) -> Result<(), Fail> {
    let alloc = rt.alloc();
    let mut book = fresh(alloc, 3)?;
    for (lane, turn) in STORY {
        make(&mut book, &rt, alloc, *lane, *turn)?;
    }
    ask_commit(&mut book, &rt, alloc, 0)?;
    store_end(&mut book, &rt, 0);
    // the end of this one isn't stored
    ask_commit(&mut book, &rt, alloc, 2)?;
    let commits = finish(&rt, alloc, book)?;
    let history = commits.history.as_slice();
    let flight = commits.flight.as_slice();
    assert!(rt; history.len() == 2);
    assert!(rt; flight.len() == 1);
    // the writes, the taken block's owner word and that of the given one
    assert!(rt; is_entry(&history[0], 1, 0, 1, &[(97, 7), (128, 1), (96, 0)]));
    assert!(rt; is_entry(&history[1], 1, 1, 2, &[(98, 5)]));
    assert!(rt; is_entry(&flight[0], 0, 0, 4, &[(113, 9)]));
    Ok(())
}
