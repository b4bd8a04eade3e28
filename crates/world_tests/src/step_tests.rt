//! Calls of lanes step by step, with the events that they make.
use crate::script::{Ask, Script, Turn};
use lane_traits::Device;
use lane_types::{Refusal, Reply, Stepped, What};
use std::alloc::Global;
use std::process::Abort;
use std::test::Fail;
use test_regions::words_of;

/// Four buckets of one cell, and the heap at 96, whose first two blocks are roots. 352 words in all.
const SMALL: &[(u32, u64)] = &[
    (0, 0x5257_4e44_0000_0001),
    (1, 1),
    (2, 1),
    (3, 4),
    (4, 16),
    (5, 2),
    (96, 1),
    (112, 2),
];

/// Two partitions of twelve buckets of one cell, and the heap at 416. 672 words in all.
const SPLIT: &[(u32, u64)] = &[
    (0, 0x5257_4e44_0000_0002),
    (1, 1),
    (2, 1),
    (3, 24),
    (4, 16),
    (5, 2),
    (6, 2),
    (13, 1),
    (14, 1),
    (416, 1),
    (432, 2),
];

/// The small one, where structure 0 has each block but root 1.
const FULL: &[(u32, u64)] = &[
    (0, 0x5257_4e44_0000_0001),
    (1, 1),
    (2, 1),
    (3, 4),
    (4, 16),
    (5, 2),
    (96, 1),
    (112, 2),
    (128, 1),
    (144, 1),
    (160, 1),
    (176, 1),
    (192, 1),
    (208, 1),
    (224, 1),
    (240, 1),
    (256, 1),
    (272, 1),
    (288, 1),
    (304, 1),
    (320, 1),
    (336, 1),
];

/// A region: its words, how many there are, and the address of its heap.
type Region = (&'static [(u32, u64)], u32, u32);

const WHOLE_LOG: Region = (SMALL, 352, 96);

const FULL_HEAP: Region = (FULL, 352, 96);

const SPLIT_LOG: Region = (SPLIT, 672, 416);

/// Takes the turns, and compares how many events were made and how many commits are in the history.
fn plays(
    rt: &impl Abort,
    alloc: Global,
    region: Region,
    lanes: u32,
    turns: &[(u32, Turn)],
    left: (u64, usize),
) -> Result<(), Fail> {
    let words = words_of(alloc, region.0, region.1)?;
    let mut script = Script::start(rt, alloc, words.as_slice(), region.2, lanes);
    script.play(rt, turns);
    let remains = script.finish();
    assert_eq!(rt; remains.device.events(), left.0);
    assert_eq!(rt; remains.history.len(), left.1);
    Ok(())
}

/// The append of the update makes 22 events, the word 1; a fence 1, the append of the end 22, the closing of each record 2, and the removal of a
/// bucket 7. So the write makes the 23 that it may make at the most, and the commit 34 of at most 55. The commit is in flight between the last two
/// events of its end's append.
const A_COMMIT: &[(u32, Turn)] = &[
    (0, Turn::Makes(Ask::Begin(1), Reply::Begun(1))),
    (0, Turn::Asks(Ask::Write(103, 7))),
    (0, Turn::Moves(22)),
    (0, Turn::Word(103, 0)),
    (0, Turn::Steps(Stepped::Answered(Reply::Written))),
    (0, Turn::Word(103, 7)),
    (0, Turn::Makes(Ask::Read(103), Reply::Word(7))),
    (0, Turn::Asks(Ask::Commit(1))),
    (0, Turn::Moves(21)),
    (0, Turn::Commits(0, false)),
    (0, Turn::Moves(1)),
    (0, Turn::Commits(0, true)),
    (0, Turn::Moves(1)),
    (0, Turn::Commits(1, false)),
    (0, Turn::Moves(10)),
    (0, Turn::Steps(Stepped::Answered(Reply::Committed))),
    (0, Turn::Steps(Stepped::Idle)),
];

#[test]
fn a_write_is_committed(rt: HostRuntime) -> Result<(), Fail> {
    plays(&rt, rt.alloc(), WHOLE_LOG, 1, A_COMMIT, (57, 1))
}

/// Lane 1 waits for the structure. The log has room for 3 records beside what is reserved, where a second write needs 5. The write makes 23 events,
/// the appends of the rollback record and of the compensation 22 each, the word and a fence 2, the append of the end 22, the closing of three records
/// 4, that of the end 2, and the removal of three buckets 21: 95 of the 102 that it may make at the most. A commit without records makes none.
const AN_ABORT: &[(u32, Turn)] = &[
    (0, Turn::Makes(Ask::Begin(1), Reply::Begun(1))),
    (0, Turn::Makes(Ask::Write(103, 7), Reply::Written)),
    (1, Turn::Asks(Ask::Begin(1))),
    (
        1,
        Turn::Steps(Stepped::Waiting {
            what: What::Structure(0),
            holder: 0,
        }),
    ),
    (
        0,
        Turn::Refused(Ask::Write(104, 7), Refusal::LogFull { room: 3, need: 5 }),
    ),
    (0, Turn::Asks(Ask::Abort)),
    (0, Turn::Moves(44)),
    (0, Turn::Word(103, 7)),
    (0, Turn::Moves(1)),
    (0, Turn::Word(103, 0)),
    (0, Turn::Moves(49)),
    (0, Turn::Steps(Stepped::Answered(Reply::Aborted))),
    (1, Turn::Steps(Stepped::Answered(Reply::Begun(2)))),
    (1, Turn::Makes(Ask::Commit(1), Reply::Committed)),
];

#[test]
fn an_abort_takes_its_word_back(rt: HostRuntime) -> Result<(), Fail> {
    plays(&rt, rt.alloc(), WHOLE_LOG, 2, AN_ABORT, (118, 1))
}

/// Both lanes are in the midst of appends, each to its partition, and then in the midst of commits.
const TWO_APPENDS: &[(u32, Turn)] = &[
    (0, Turn::Makes(Ask::Begin(1), Reply::Begun(1))),
    (1, Turn::Makes(Ask::Begin(2), Reply::Begun(2))),
    (0, Turn::Asks(Ask::Write(417, 7))),
    (1, Turn::Asks(Ask::Write(433, 8))),
    (0, Turn::Moves(5)),
    (1, Turn::Moves(9)),
    (0, Turn::Moves(10)),
    (1, Turn::Ends(Reply::Written)),
    (0, Turn::Word(417, 0)),
    (0, Turn::Word(433, 8)),
    (0, Turn::Ends(Reply::Written)),
    (0, Turn::Word(417, 7)),
    (1, Turn::Asks(Ask::Commit(2))),
    (1, Turn::Moves(20)),
    (0, Turn::Asks(Ask::Commit(1))),
    (0, Turn::Moves(20)),
    (1, Turn::Ends(Reply::Committed)),
    (0, Turn::Ends(Reply::Committed)),
];

#[test]
fn two_lanes_append_at_once(rt: HostRuntime) -> Result<(), Fail> {
    plays(&rt, rt.alloc(), SPLIT_LOG, 2, TWO_APPENDS, (114, 2))
}

/// Lane 2 appends to the partition of lane 0, and waits until its record is whole.
const A_LATCH: &[(u32, Turn)] = &[
    (0, Turn::Makes(Ask::Begin(1), Reply::Begun(1))),
    (2, Turn::Makes(Ask::Begin(2), Reply::Begun(2))),
    (0, Turn::Asks(Ask::Write(417, 7))),
    (2, Turn::Asks(Ask::Write(433, 8))),
    (0, Turn::Moves(5)),
    (
        2,
        Turn::Steps(Stepped::Waiting {
            what: What::Latch(0),
            holder: 0,
        }),
    ),
    (0, Turn::Ends(Reply::Written)),
    (2, Turn::Ends(Reply::Written)),
    (0, Turn::Word(417, 7)),
    (0, Turn::Word(433, 8)),
];

#[test]
fn a_lane_waits_for_a_latch(rt: HostRuntime) -> Result<(), Fail> {
    plays(&rt, rt.alloc(), SPLIT_LOG, 3, A_LATCH, (46, 0))
}

/// A take makes the events of a write, of which the owner word of the least free block is the last, and its commit those of a commit.
const A_TAKE: &[(u32, Turn)] = &[
    (0, Turn::Makes(Ask::Begin(1), Reply::Begun(1))),
    (
        0,
        Turn::Refused(Ask::Take(1), Refusal::NotHeld { owner: 2 }),
    ),
    (0, Turn::Asks(Ask::Take(0))),
    (0, Turn::Moves(22)),
    (0, Turn::Word(128, 0)),
    (0, Turn::Steps(Stepped::Answered(Reply::Block(2)))),
    (0, Turn::Word(128, 1)),
    (0, Turn::Makes(Ask::Read(129), Reply::Word(0))),
    (0, Turn::Makes(Ask::Commit(1), Reply::Committed)),
];

#[test]
fn a_take_is_committed(rt: HostRuntime) -> Result<(), Fail> {
    plays(&rt, rt.alloc(), WHOLE_LOG, 1, A_TAKE, (57, 1))
}

/// A block is its taker's from the ask on: another lane gets the next one. Three updates make 23 events each, a commit of one record 34, and one of two
/// records 42: a gate more is closed, and a bucket more is taken out.
const TWO_TAKES: &[(u32, Turn)] = &[
    (0, Turn::Makes(Ask::Begin(1), Reply::Begun(1))),
    (1, Turn::Makes(Ask::Begin(2), Reply::Begun(2))),
    (0, Turn::Asks(Ask::Take(0))),
    (1, Turn::Asks(Ask::Take(1))),
    (0, Turn::Moves(5)),
    (1, Turn::Ends(Reply::Block(3))),
    (0, Turn::Ends(Reply::Block(2))),
    (0, Turn::Word(448, 1)),
    (0, Turn::Word(464, 2)),
    (1, Turn::Makes(Ask::Write(465, 7), Reply::Written)),
    (1, Turn::Makes(Ask::Commit(2), Reply::Committed)),
    (0, Turn::Makes(Ask::Commit(1), Reply::Committed)),
];

#[test]
fn two_lanes_take_blocks(rt: HostRuntime) -> Result<(), Fail> {
    plays(&rt, rt.alloc(), SPLIT_LOG, 2, TWO_TAKES, (145, 2))
}

/// The events of a write and of an abort of it. The block is free again, and another lane takes it.
const A_TAKE_BACK: &[(u32, Turn)] = &[
    (0, Turn::Makes(Ask::Begin(1), Reply::Begun(1))),
    (1, Turn::Makes(Ask::Begin(2), Reply::Begun(2))),
    (0, Turn::Makes(Ask::Take(0), Reply::Block(2))),
    (0, Turn::Makes(Ask::Abort, Reply::Aborted)),
    (0, Turn::Word(448, 0)),
    (1, Turn::Makes(Ask::Take(1), Reply::Block(2))),
    (0, Turn::Word(448, 2)),
];

#[test]
fn an_abort_gives_its_block_back(rt: HostRuntime) -> Result<(), Fail> {
    plays(&rt, rt.alloc(), SPLIT_LOG, 2, A_TAKE_BACK, (141, 0))
}

/// No block is free.
const NO_BLOCK: &[(u32, Turn)] = &[
    (0, Turn::Makes(Ask::Begin(1), Reply::Begun(1))),
    (0, Turn::Refused(Ask::Take(0), Refusal::HeapFull)),
    (0, Turn::Makes(Ask::Commit(1), Reply::Committed)),
];

#[test]
fn a_full_heap_is_told(rt: HostRuntime) -> Result<(), Fail> {
    plays(&rt, rt.alloc(), FULL_HEAP, 1, NO_BLOCK, (0, 1))
}

/// The events of a write and of an abort of it, as above.
#[test]
fn a_world_is_used_by_its_trait(rt: HostRuntime) -> Result<(), Fail> {
    let words = words_of(rt.alloc(), WHOLE_LOG.0, WHOLE_LOG.1)?;
    let script = Script::start(&rt, rt.alloc(), words.as_slice(), WHOLE_LOG.2, 2);
    let remains = script.write_and_abort(&rt, 1, 1, 103, 7);
    assert_eq!(rt; remains.device.events(), 118);
    assert_eq!(rt; remains.history.len(), 0);
    Ok(())
}
