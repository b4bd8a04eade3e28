//! Recoveries of lists: in two partitions, and where a stop was in the midst of a change.
use crate::images::{Image, layout};
use crate::runs::{Case, check};
use region_layout::Policy;
use std::test::Fail;

// The buckets of the first partition stand from 32 on, those of the second from 96, and a transaction runs in each.
#[test]
fn the_running_transactions_of_two_partitions_are_undone(rt: HostRuntime) -> Result<(), Fail> {
    check(
        &rt,
        rt.alloc(),
        &Case {
            image: Image {
                layout: layout(Policy::Force, 1, 8, 2),
                chain: &[32],
                records: &[
                    (40, [1, 1, 1, 161, 5, 7, 0, 0]),
                    (104, [2, 2, 1, 162, 6, 8, 0, 0]),
                ],
                words: &[(21, 96), (22, 96), (161, 7), (162, 8)],
            },
            after: &[
                (8, 80),
                (9, 80),
                (10, 0),
                (11, 64),
                (12, 0),
                (21, 144),
                (22, 144),
                (23, 0),
                (24, 128),
                (25, 0),
                (161, 5),
                (162, 6),
            ],
            winners: &[],
            losers: &[1, 2],
            // 2 * (3 * 22 + 2) of the undo, 7 + 3 of the closing, 6 * 7 of the removals
            events: 188,
        },
    )
}

// The bucket at 48 is named as the one to be put behind that at 32, and nothing else was stored.
#[test]
fn a_bucket_is_put_behind(rt: HostRuntime) -> Result<(), Fail> {
    check(
        &rt,
        rt.alloc(),
        &Case {
            image: Image {
                layout: layout(Policy::Force, 1, 4, 1),
                chain: &[32],
                records: &[],
                words: &[(10, 48), (11, 32), (49, 32)],
            },
            // the list has both, and then the first of them is taken out
            after: &[
                (8, 48),
                (9, 48),
                (10, 0),
                (11, 32),
                (12, 0),
                (48, 0),
                (49, 0),
            ],
            winners: &[],
            losers: &[],
            // 5 of the repair, 7 of the removal
            events: 12,
        },
    )
}

// The bucket at 48 is named as the one to be taken out from between those at 32 and 64.
#[test]
fn a_bucket_is_taken_out(rt: HostRuntime) -> Result<(), Fail> {
    check(
        &rt,
        rt.alloc(),
        &Case {
            image: Image {
                layout: layout(Policy::Force, 1, 4, 1),
                chain: &[32, 48, 64],
                records: &[],
                words: &[(12, 48)],
            },
            // then the first of the two that are left is taken out too
            after: &[
                (8, 64),
                (9, 64),
                (10, 0),
                (11, 0),
                (12, 0),
                (64, 0),
                (65, 0),
            ],
            winners: &[],
            losers: &[],
            // 5 of the repair, 7 of the removal
            events: 12,
        },
    )
}
