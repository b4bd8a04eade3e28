//! Small images at rest, and what keeps others from it.
use crate::{RestFault, check_rest};
use std::alloc::Global;
use std::test::Fail;
use test_regions::Row;

/// Values of words, by their addresses.
type Words<'a> = &'a [(u32, u64)];

/// Stands for `NotRecovered` among the numbers of rules.
const NOT_RECOVERED: u32 = 10;

/// Four buckets of one cell at 32, 48, 64 and 80, the heap at 96, 352 words in all. No bucket is in the chain.
const EMPTY: Words<'static> = &[
    (0, 0x5257_4e44_0000_0001),
    (1, 1),
    (2, 1),
    (3, 4),
    (4, 16),
    (5, 1),
    (96, 1),
];

/// Changes of these words, and what is told then: the number of the rule and its address, or twice 0.
const CASES: [(Words<'static>, (u32, u32)); 7] = [
    (&[], (0, 0)),
    // A bucket is in the chain, and its gate is closed.
    (&[(8, 32), (9, 32)], (0, 0)),
    // Two are.
    (&[(8, 32), (9, 48), (32, 48), (49, 32)], (NOT_RECOVERED, 48)),
    // A third is being put behind the first.
    (
        &[(8, 32), (9, 32), (10, 64), (11, 32), (65, 32)],
        (NOT_RECOVERED, 10),
    ),
    // One gate is open.
    (
        &[
            (8, 32),
            (9, 32),
            (40, 1),
            (41, 1),
            (42, 1),
            (43, 103),
            (45, 7),
        ],
        (NOT_RECOVERED, 40),
    ),
    // Two are, of a committed transaction whose end stands before its update.
    (
        &[
            (8, 48),
            (9, 32),
            (33, 48),
            (48, 32),
            (40, 2),
            (41, 1),
            (42, 4),
            (47, 1),
            (56, 1),
            (57, 1),
            (58, 1),
            (59, 103),
            (61, 7),
            (103, 7),
        ],
        (NOT_RECOVERED, 40),
    ),
    // There is no region.
    (&[(0, 0)], (1, 0)),
];

// What is told of the words with these changes.
fn verdict(alloc: Global, changes: Words) -> Result<(u32, u32), Fail> {
    let row = Row::changed(alloc, EMPTY, changes, 352)?;
    match check_rest(alloc, &row) {
        Ok(_) => Ok((0, 0)),
        Err(RestFault::Unsound(found)) => Ok((found.rule.number(), found.address)),
        Err(RestFault::NotRecovered(address)) => Ok((NOT_RECOVERED, address)),
        Err(RestFault::NoMemory) => Err("memory".into()),
    }
}

#[test]
fn small_images_are_told(rt: HostRuntime) -> Result<(), Fail> {
    let alloc = rt.alloc();
    for (changes, wanted) in &CASES {
        let found = verdict(alloc, changes)?;
        assert_eq!(rt; found, *wanted, "{changes:?}");
    }
    Ok(())
}
