//! What ended transactions wrote and a stop may have lost, where commits leave their words to a checkpoint.
use crate::images::{Image, Record, Word, layout};
use crate::runs::{Case, check};
use region_layout::Policy;
use std::test::Fail;

// What stands in a log of one bucket, and what is expected.
#[derive(Clone, Copy)]
struct Row<'a> {
    records: &'a [Record],
    words: &'a [Word],
    after: &'a [Word],
    winners: &'a [u64],
    losers: &'a [u64],
    events: u64,
}

#[test]
fn what_ended_is_stored_again(rt: HostRuntime) -> Result<(), Fail> {
    let rows = [
        // two transactions wrote the same word: the later value is stored last
        Row {
            records: &[
                (40, [1, 1, 1, 577, 0, 5, 0, 0]),
                (48, [2, 1, 4, 0, 0, 0, 0, 1]),
                (56, [3, 2, 1, 577, 5, 8, 0, 0]),
                (64, [4, 2, 4, 0, 0, 0, 0, 1]),
            ],
            words: &[],
            after: &[(577, 8)],
            winners: &[1, 2],
            losers: &[],
            // 2 + 1 of the redo, 10 of the checkpoint record, 3 + 3 + 2 of the closing
            events: 21,
        },
        // the first ended before a checkpoint: its word stays as it is
        Row {
            records: &[
                (40, [1, 1, 1, 577, 0, 5, 0, 0]),
                (48, [2, 1, 4, 0, 0, 0, 0, 1]),
                (56, [3, 0, 5, 0, 0, 0, 0, 0]),
                (64, [4, 2, 1, 578, 0, 9, 0, 0]),
                (72, [5, 2, 4, 0, 0, 0, 0, 1]),
            ],
            words: &[(577, 6)],
            after: &[(577, 6), (578, 9)],
            winners: &[1, 2],
            losers: &[],
            // 1 + 1 of the redo, 10 of the checkpoint record, 3 + 3 + 3 of the closing
            events: 21,
        },
        // a closing was stopped behind its first gate: nothing is stored again, and no record is appended
        Row {
            records: &[
                (40, [0, 1, 1, 577, 0, 5, 0, 0]),
                (48, [2, 1, 4, 0, 0, 0, 0, 1]),
                (56, [3, 2, 1, 578, 0, 9, 0, 0]),
                (64, [4, 2, 4, 0, 0, 0, 0, 1]),
                (72, [5, 0, 5, 0, 0, 0, 0, 0]),
            ],
            words: &[(577, 5), (578, 3)],
            after: &[(577, 5), (578, 3)],
            winners: &[1, 2],
            losers: &[],
            // 2 + 3 + 2 of the closing
            events: 7,
        },
        // one transaction ended, and another runs, which wrote its word twice
        Row {
            records: &[
                (40, [1, 1, 1, 577, 0, 5, 0, 0]),
                (48, [2, 1, 4, 0, 0, 0, 0, 1]),
                (56, [3, 2, 1, 578, 3, 6, 0, 0]),
                (64, [4, 2, 1, 578, 6, 9, 3, 0]),
            ],
            words: &[(578, 9)],
            after: &[(577, 5), (578, 3)],
            winners: &[1],
            losers: &[2],
            // 1 + 1 of the redo, 10 + 11 + 11 + 1 + 10 of the undo, 10 of the checkpoint record, 7 + 3 + 2 of the closing
            events: 67,
        },
        // a rollback that had ended is stored again too: its compensation comes last
        Row {
            records: &[
                (40, [1, 1, 1, 577, 3, 5, 0, 0]),
                (48, [2, 1, 3, 0, 0, 0, 0, 0]),
                (56, [3, 1, 2, 577, 5, 3, 0, 0]),
                (64, [4, 1, 4, 0, 0, 0, 0, 2]),
            ],
            words: &[(577, 5)],
            after: &[(577, 3)],
            winners: &[],
            losers: &[],
            // 2 + 1 of the redo, 10 of the checkpoint record, 4 + 2 + 2 of the closing
            events: 21,
        },
    ];
    for row in &rows {
        check(
            &rt,
            rt.alloc(),
            &Case {
                image: Image {
                    layout: layout(Policy::NoForce, 16, 4, 1),
                    chain: &[32],
                    records: row.records,
                    words: row.words,
                },
                after: row.after,
                winners: row.winners,
                losers: row.losers,
                events: row.events,
            },
        )?;
    }
    Ok(())
}
