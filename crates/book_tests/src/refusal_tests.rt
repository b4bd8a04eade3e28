ghost use Rattle.lane_book.specs.Books.{IsBook};

use crate::asks::ask_read;
use crate::deed::Nothing;
use crate::refused::{Ask, fill, refuses};
use crate::start::fresh;
use crate::turns::begins;
use lane_book::Book;
use lane_types::{Phase, Refusal};
use persist_model::NoMemory;
use std::alloc::Global;
use std::process::Abort;
use std::test::Fail;

const OUT: Option<Refusal> = Some(Refusal::WrongPhase { phase: Phase::Out });

const IN: Option<Refusal> = Some(Refusal::WrongPhase { phase: Phase::In });

const CALLING: Option<Refusal> = Some(Refusal::WrongPhase {
    phase: Phase::Calling,
});

const NOBODY: Option<Refusal> = Some(Refusal::NotHeld { owner: 0 });

const OTHERS: Option<Refusal> = Some(Refusal::NotHeld { owner: 2 });

const SHORT_OF_9: Option<Refusal> = Some(Refusal::LogFull { room: 8, need: 9 });

const SHORT_OF_8: Option<Refusal> = Some(Refusal::LogFull { room: 7, need: 8 });

const SHORT_OF_12: Option<Refusal> = Some(Refusal::LogFull { room: 11, need: 12 });

/// An ask, the log's room, its refusal, and the tally's cells behind it.
type Row = (Ask, u64, Option<Refusal>, u64);

/// Before a transaction.
const ASKED_OUT: &[Row] = &[
    (Ask::Read(97), 0, OUT, 0),
    (Ask::Write(113), 0, OUT, 0),
    (Ask::Take(0), 0, OUT, 0),
    (Ask::Give(0), 0, OUT, 0),
    (Ask::Commit, 0, OUT, 0),
    (Ask::Abort, 0, OUT, 0),
    (Ask::Savepoint, 0, OUT, 0),
    (Ask::RollbackTo(0), 0, OUT, 0),
    (Ask::Begin(1), 0, None, 0),
    (Ask::Checkpoint, 0, None, 0),
];

/// In a transaction on structure 0, whose begin counts 2 cells. An ask of records needs the 5 cells for checkpoints, its own, and
/// 2 for the transaction's rollback record and end. A batch that isn't the lane's names the owner of its first strange word.
const ASKED_IN: &[Row] = &[
    (Ask::Begin(1), 0, IN, 2),
    (Ask::Checkpoint, 0, IN, 2),
    (Ask::Read(113), 0, OTHERS, 2),
    (Ask::Read(129), 0, NOBODY, 2),
    (Ask::Read(97), 0, None, 2),
    (Ask::Write(113), 8, OTHERS, 2),
    (Ask::Write(129), 8, NOBODY, 2),
    (Ask::Write(97), 9, None, 2),
    (Ask::Write(97), 8, SHORT_OF_9, 4),
    (Ask::Take(1), 8, OTHERS, 4),
    (Ask::Take(0), 9, None, 4),
    (Ask::Take(0), 8, SHORT_OF_9, 6),
    (Ask::Give(1), 7, OTHERS, 6),
    (Ask::Give(2), 7, NOBODY, 6),
    (Ask::Give(0), 8, None, 6),
    (Ask::Give(0), 7, SHORT_OF_8, 7),
    (Ask::Commit, 0, None, 7),
    (Ask::Abort, 0, None, 7),
    (Ask::Savepoint, 0, None, 7),
    (Ask::RollbackTo(0), 0, None, 7),
    (Ask::Batch(97, 113), 11, OTHERS, 7),
    (Ask::Batch(129, 113), 11, NOBODY, 7),
    (Ask::Batch(97, 98), 12, None, 7),
    (Ask::Batch(97, 98), 11, SHORT_OF_12, 27),
];

/// Where no block is free. A full log is told before a full heap.
const ASKED_FULL: &[Row] = &[
    (Ask::Take(1), 8, OTHERS, 27),
    (Ask::Take(0), 8, SHORT_OF_9, 29),
    (Ask::Take(0), 9, Some(Refusal::HeapFull), 31),
    (Ask::Write(97), 9, None, 31),
];

/// While a call is in progress.
const ASKED_CALLING: &[Row] = &[
    (Ask::Begin(1), 9, CALLING, 31),
    (Ask::Read(97), 9, CALLING, 31),
    (Ask::Take(1), 8, CALLING, 31),
    (Ask::Commit, 9, CALLING, 31),
    (Ask::Abort, 9, CALLING, 31),
    (Ask::Checkpoint, 9, CALLING, 31),
];

// Each ask is answered by its row. The phase stays, and the tally counts the ask where log or heap was full.
fn check_asks(
    book: &mut Book<Nothing>,
    rt: &impl Abort,
    alloc: Global,
    rows: &[Row],
) -> Result<(), NoMemory>
    requires { IsBook book.old }
    ensures { IsBook book.new }
{
    for (ask, room, refusal, cells) in rows {
        assert!(rt; book.lanes.len() == 2);
        let phase = book.face(0).phase;
        let answer = refuses(book, rt, alloc, 0, *ask, *room)?;
        assert_eq!(rt; answer, *refusal, "{ask:?}");
        assert!(rt; book.lanes.len() == 2);
        assert_eq!(rt; book.face(0).phase, phase, "{ask:?}");
        assert_eq!(rt; book.face(0).tally.cells, *cells, "{ask:?}");
    }
    Ok(())
}

#[test]
fn each_refusal_has_its_cause(rt: HostRuntime) -> Result<(), Fail> {
    let alloc = rt.alloc();
    let mut book = fresh(alloc, 2)?;
    check_asks(&mut book, &rt, alloc, ASKED_OUT)?;
    begins(&mut book, &rt, 0, 1)?;
    check_asks(&mut book, &rt, alloc, ASKED_IN)?;
    fill(&mut book, &rt);
    assert!(rt; book.lanes.len() == 2);
    assert!(rt; !book.face(0).tally.heap);
    check_asks(&mut book, &rt, alloc, ASKED_FULL)?;
    ask_read(&mut book, &rt, 0, 97)?;
    check_asks(&mut book, &rt, alloc, ASKED_CALLING)?;
    assert!(rt; book.lanes.len() == 2);
    let tally = book.face(0).tally;
    assert!(rt; tally.full);
    assert!(rt; tally.heap);
    assert!(rt; !tally.stopped);
    // one step and one take, which found no block
    assert_eq!(rt; tally.steps, 1);
    assert_eq!(rt; tally.takes, 1);
    Ok(())
}
