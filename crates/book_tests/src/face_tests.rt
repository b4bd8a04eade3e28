use crate::start::fresh;
use crate::turns::Turn::{
    Abort, Back, Batch, Begin, Checkpoint, Commit, Give, Read, ReadOnly, Savepoint, Take, Write,
};
use crate::turns::{Turn, make};
use lane_types::Phase::{In, Out};
use lane_types::Reply::{
    Aborted, Begun, Block, Checkpointed, Committed, Given, RolledBack, Saved, Word, Written,
};
use lane_types::{Face, Phase, Reply, Stepped, Tally};
use std::test::Fail;

/// The structures that the lane holds, the transactions that it has begun, its commits, and its savepoints.
type Counts = (u8, u64, u64, u64);

/// The steps, cells, checkpoints and takes of its tally.
type Sums = (u64, u64, u64, u64);

/// A call, its answer, and the face behind it.
const ROWS: &[(Turn, Reply, Phase, Counts, Sums)] = &[
    (Begin(1), Begun(1), In, (1, 1, 0, 0), (1, 2, 0, 0)),
    (Read(97, 5), Word(5), In, (1, 1, 0, 0), (2, 2, 0, 0)),
    (Write(97, 7), Written, In, (1, 1, 0, 0), (4, 4, 0, 0)),
    (Savepoint, Saved(0), In, (1, 1, 0, 1), (5, 4, 0, 0)),
    (Take(0, 2), Block(2), In, (1, 1, 0, 1), (7, 6, 0, 1)),
    (Give(0), Given, In, (1, 1, 0, 1), (9, 7, 0, 1)),
    (Savepoint, Saved(1), In, (1, 1, 0, 2), (10, 7, 0, 1)),
    (Write(98, 8), Written, In, (1, 1, 0, 2), (12, 9, 0, 1)),
    (Back(1, 1), RolledBack, In, (1, 1, 0, 2), (15, 9, 0, 1)),
    (Back(0, 1), RolledBack, In, (1, 1, 0, 1), (18, 9, 0, 1)),
    (Commit, Committed, Out, (0, 1, 1, 0), (21, 9, 0, 1)),
    (Checkpoint, Checkpointed, Out, (0, 1, 1, 0), (22, 9, 1, 1)),
    (Begin(3), Begun(2), In, (3, 2, 1, 0), (23, 11, 1, 1)),
    (Write(97, 9), Written, In, (3, 2, 1, 0), (25, 13, 1, 1)),
    (Abort(1), Aborted, Out, (0, 2, 1, 0), (30, 13, 1, 1)),
    (Begin(2), Begun(3), In, (2, 3, 1, 0), (31, 15, 1, 1)),
    (ReadOnly, Committed, Out, (0, 3, 2, 0), (32, 15, 1, 1)),
    (Begin(1), Begun(4), In, (1, 4, 2, 0), (33, 17, 1, 1)),
    (Batch(97), Written, In, (1, 4, 2, 0), (36, 37, 1, 1)),
    (Abort(2), Aborted, Out, (0, 4, 2, 0), (43, 37, 1, 1)),
];

// The face of lane 0 with this last answer.
fn face(reply: Reply, phase: Phase, counts: Counts, sums: Sums) -> Face {
    Face {
        lane: 0,
        phase,
        held: counts.0,
        begun: counts.1,
        commits: counts.2,
        answer: Some(reply),
        tally: Tally {
            steps: sums.0,
            last: Some(Stepped::Answered(reply)),
            cells: sums.1,
            checkpoints: sums.2,
            takes: sums.3,
            full: false,
            heap: false,
            stopped: false,
        },
        live: counts.3,
    }
}

#[test]
fn each_call_changes_the_face_by_its_row(rt: HostRuntime) -> Result<(), Fail> {
    let alloc = rt.alloc();
    let mut book = fresh(alloc, 2)?;
    for (turn, reply, phase, counts, sums) in ROWS {
        let answer = make(&mut book, &rt, alloc, 0, *turn)?;
        assert_eq!(rt; answer, Stepped::Answered(*reply), "{turn:?}");
        assert!(rt; book.lanes.len() == 2);
        assert_eq!(rt;
            book.face(0),
            face(*reply, *phase, *counts, *sums),
            "{turn:?}"
        );
        // the other lane's stays
        assert_eq!(rt; book.face(1).tally.last, None);
    }
    Ok(())
}
