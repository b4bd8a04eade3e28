use crate::{Broken, sound};
use region_layout::{Layout, Policy};
use std::alloc::Global;
use std::test::Fail;
use test_regions::Row;

// A region with one tree: the root block stands at 96, the top node with key 5 at 112, and on its left the node with key 3 at
// 128.
const TREE: &[(u32, u64)] = &[
    (96, 1),
    (97, 112),
    (112, 1),
    (113, 5),
    (114, 50),
    (115, 128),
    (117, 2),
    (128, 1),
    (129, 3),
    (130, 30),
    (133, 1),
];

// What the check says of that region with some of its words changed.
fn verdict(alloc: Global, changes: &[(u32, u64)]) -> Result<Result<(), Broken>, Fail> {
    let layout = Layout {
        policy: Policy::Force,
        cells: 1,
        buckets: 4,
        blocks: 16,
        structures: 1,
        format: 1,
        partitions: 1,
    };
    let row = Row::changed(alloc, TREE, changes, 352)?;
    Ok(sound(&row, layout, 0))
}

#[test]
fn each_kind_of_broken_map(rt: HostRuntime) -> Result<(), Fail> {
    assert_eq!(rt; verdict(rt.alloc(), &[])?, Ok(()));
    assert_eq!(rt;
        verdict(rt.alloc(), &[(97, 0), (112, 0), (128, 0)])?,
        Ok(())
    );
    let broken: [(&str, &[(u32, u64)]); 17] = [
        ("the root is another's", &[(96, 2)]),
        ("a node is another's", &[(128, 2)]),
        ("a node is nobody's", &[(112, 0)]),
        ("a link into a block", &[(97, 113)]),
        ("a link to the root", &[(115, 96)]),
        ("a link before the heap", &[(97, 80)]),
        ("a link behind the heap", &[(97, 352)]),
        ("a link far away", &[(97, u64::MAX)]),
        ("a node on both sides", &[(116, 128)]),
        ("a cycle", &[(131, 112)]),
        ("a key that isn't smaller", &[(129, 5)]),
        ("a key on the wrong side", &[(115, 0), (116, 128)]),
        ("no value", &[(130, 0)]),
        ("a leaf of height 2", &[(133, 2), (117, 3)]),
        ("a height that isn't one more", &[(117, 1)]),
        ("a node that isn't reached", &[(97, 128)]),
        (
            "three in a row",
            &[
                (131, 144),
                (133, 2),
                (117, 3),
                (144, 1),
                (145, 1),
                (146, 10),
                (149, 1),
            ],
        ),
    ];
    for (what, changes) in broken {
        assert_eq!(rt;
            verdict(rt.alloc(), changes)?,
            Err(Broken::At(96)),
            "{what}"
        );
    }
    Ok(())
}
