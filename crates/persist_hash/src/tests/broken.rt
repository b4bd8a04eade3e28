use crate::{Broken, sound};
use region_layout::{Layout, Policy};
use std::alloc::Global;
use std::test::Fail;
use test_regions::Row;

// A region with one hash: the root block stands at 96, a directory block at 112, and in it chain 39 with key 1 at 128 and key
// 56 at 144.
const HASH: &[(u32, u64)] = &[
    (96, 1),
    (101, 112),
    (112, 1),
    (120, 128),
    (128, 1),
    (129, 1),
    (130, 10),
    (131, 144),
    (144, 1),
    (145, 56),
    (146, 20),
];

// What the check says of that region with some of its words changed.
fn verdict(alloc: Global, changes: &[(u32, u64)]) -> Result<Result<(), Broken>, Fail> {
    let layout = Layout {
        policy: Policy::Force,
        cells: 1,
        buckets: 4,
        blocks: 16,
        structures: 1,
        format: 1,
        partitions: 1,
    };
    let row = Row::changed(alloc, HASH, changes, 352)?;
    Ok(sound(alloc, &row, layout, 0))
}

#[test]
fn each_kind_of_broken_map(rt: HostRuntime) -> Result<(), Fail> {
    assert_eq!(rt; verdict(rt.alloc(), &[])?, Ok(()));
    assert_eq!(rt;
        verdict(rt.alloc(), &[(101, 0), (112, 0), (128, 0), (144, 0)])?,
        Ok(())
    );
    assert_eq!(rt;
        verdict(rt.alloc(), &[(120, 0), (128, 0), (144, 0)])?,
        Ok(())
    );
    let broken: [(&str, &[(u32, u64)]); 20] = [
        ("the root is another's", &[(96, 2)]),
        ("a directory block is another's", &[(112, 2)]),
        ("a directory block is nobody's", &[(112, 0)]),
        ("a node is another's", &[(128, 2)]),
        ("a link into a block", &[(120, 129)]),
        ("a link into a directory block", &[(101, 113)]),
        ("a link before the heap", &[(101, 80)]),
        ("a link behind the heap", &[(131, 352)]),
        ("a link far away", &[(101, u64::MAX)]),
        ("the root as directory block", &[(97, 96)]),
        ("one directory block twice", &[(97, 112)]),
        ("a node as directory block", &[(97, 144)]),
        ("a directory block as node", &[(147, 112)]),
        ("a node in two chains", &[(119, 144)]),
        ("a cycle", &[(147, 128)]),
        ("a key in another chain", &[(145, 2)]),
        ("a key twice", &[(145, 1)]),
        ("no value", &[(146, 0)]),
        ("a node that isn't reached", &[(131, 0)]),
        ("a block that isn't reached", &[(160, 1)]),
    ];
    for (what, changes) in broken {
        assert_eq!(rt;
            verdict(rt.alloc(), changes)?,
            Err(Broken::At(96)),
            "{what}"
        );
    }
    Ok(())
}
