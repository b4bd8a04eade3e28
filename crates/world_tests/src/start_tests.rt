//! A world begins on a fresh region, and not on one that isn't sound or isn't recovered.

use crate::deed::Named;
use crate::regions::loaded;
use lane_traits::Device;
use offset_alloc::Standing;
use persist_model::List;
use region_layout::{Kind, Layout, Policy, format};
use rest_check::RestFault;
use std::alloc::Global;
use std::process::Abort;
use std::test::Fail;
use test_regions::changed_words;
use txn_core::{Begun, start};
use word_region::PlainCells;

/// Values of words, by their addresses.
type Words<'a> = &'a [(u32, u64)];

/// Stands for `NotRecovered` among the numbers of rules.
const NOT_RECOVERED: u32 = 10;

/// Four buckets of one cell at 32, 48, 64 and 80, the heap at 96, 352 words in all. No bucket is in the chain.
const EMPTY: Words<'static> = &[
    (0, 0x5257_4e44_0000_0001),
    (1, 1),
    (2, 1),
    (3, 4),
    (4, 16),
    (5, 1),
    (96, 1),
];

/// Changes of these words, and what is told then: the number of the rule and its address, or twice 0.
const CASES: [(Words<'static>, (u32, u32)); 5] = [
    (&[], (0, 0)),
    // A third bucket is being put behind the first.
    (
        &[(8, 32), (9, 32), (10, 64), (11, 32), (65, 32)],
        (NOT_RECOVERED, 10),
    ),
    // One gate is open.
    (
        &[
            (8, 32),
            (9, 32),
            (40, 1),
            (41, 1),
            (42, 1),
            (43, 103),
            (45, 7),
        ],
        (NOT_RECOVERED, 40),
    ),
    // Two buckets are in the chain.
    (&[(8, 32), (9, 48), (32, 48), (49, 32)], (NOT_RECOVERED, 48)),
    // There is no region.
    (&[(0, 0)], (1, 0)),
];

// The number of a refusal, and its address.
fn told(rt: &impl Abort, fault: RestFault) -> (u32, u32) {
    match fault {
        RestFault::Unsound(found) => (found.rule.number(), found.address),
        RestFault::NotRecovered(address) => (NOT_RECOVERED, address),
        RestFault::NoMemory => panic!(rt; "memory"),
    }
}

// What is told of a start on these words. The device that comes back has made no event.
fn verdict(rt: &impl Abort, alloc: Global, words: &[u64]) -> (u32, u32) {
    match start::<PlainCells, Named>(alloc, loaded(rt, alloc, words), 2, List::new(alloc)) {
        Ok(begun) => {
            assert_eq!(rt; begun.device.events(), 0);
            (0, 0)
        }
        Err((fault, device)) => {
            assert_eq!(rt; device.events(), 0);
            told(rt, fault)
        }
    }
}

#[test]
fn starts_are_told(rt: HostRuntime) -> Result<(), Fail> {
    let alloc = rt.alloc();
    for (changes, wanted) in &CASES {
        let words = changed_words(alloc, EMPTY, changes, 352)?;
        let found = verdict(&rt, alloc, words.as_slice());
        assert_eq!(rt; found, *wanted, "{changes:?}");
    }
    Ok(())
}

// Three lanes begin on a heap of sixteen blocks of which the first two are roots.
fn check_begun(rt: &impl Abort, begun: &Begun<PlainCells, Named>) {
    assert_eq!(rt; begun.device.events(), 0);
    assert_eq!(rt; begun.layout.partitions, 3);
    assert_eq!(rt; begun.book.lanes.len(), 3);
    assert_eq!(rt; begun.log.next_lsn, 1);
    assert_eq!(rt; begun.log.slots.len(), 3);
    let blocks = &begun.book.blocks;
    if blocks.len() != 16 {
        panic!(rt; "{} blocks", blocks.len());
    }
    assert_eq!(rt; blocks.standing(0), Standing::Owned(0));
    assert_eq!(rt; blocks.standing(1), Standing::Owned(1));
    assert_eq!(rt; blocks.pick(), Some(2));
}

#[test]
fn a_world_begins_on_a_fresh_region(rt: HostRuntime) -> Result<(), Fail> {
    let alloc = rt.alloc();
    let layout = Layout {
        policy: Policy::Force,
        cells: 1,
        buckets: 12,
        blocks: 16,
        structures: 2,
        format: 2,
        partitions: 3,
    };
    let words = match format(alloc, layout, &[Kind::Cells, Kind::Tree]) {
        Ok(words) => words,
        Err(_) => return Err("memory".into()),
    };
    let region = loaded(&rt, alloc, words.as_slice());
    match start::<PlainCells, Named>(alloc, region, 3, List::new(alloc)) {
        Ok(begun) => check_begun(&rt, &begun),
        Err((fault, _)) => panic!(rt; "{fault:?}"),
    }
    Ok(())
}
