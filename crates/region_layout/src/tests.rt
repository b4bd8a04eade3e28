//! Worked layouts and headers.
ghost use Rattle.std.specs.Prelude.{◌≡◌, ◌<◌, ◌≤◌, ◌^◌, length};

use crate::{Buckets, ImageFault, Kind, Layout, Policy, cell_word, format, read_cell, read_layout};
use persist_model::format::FIRST_MAGIC;
use persist_model::{ImageRule, Look};
use std::alloc::Global;
use std::test::Fail;
use test_regions::Row;

/// A layout with one cells map.
fn smallest(format: u32) -> Layout
    requires least { 1 ≤ format }
    requires most { format ≤ 2 }
    ensures { result.structures ≡ 1 }
{
    Layout {
        policy: Policy::Force,
        cells: 1,
        buckets: 4,
        blocks: 16,
        structures: 1,
        format,
        partitions: 1,
    }
}

/// The words of a fresh region, with one of them changed.
fn changed(alloc: Global, address: usize, value: u64) -> Result<Option<Row>, Fail> {
    let kinds = [Kind::Cells];
    let fresh = format(alloc, smallest(2), &kinds)?;
    let mut words = Vec::from_slice(alloc, fresh.as_slice())?;
    if address < words.len() && words.len() < 1000 {
        words[address] = value;
        return Ok(Some(Row::new(words)));
    }
    Ok(None)
}

#[test]
fn a_fresh_region_has_its_header_and_its_roots(rt: HostRuntime) -> Result<(), Fail> {
    let kinds = [Kind::Cells];
    let fresh = format(rt.alloc(), smallest(2), &kinds)?;
    let words = fresh.as_slice();
    assert_eq!(rt; words.len(), 352);
    let expected = [
        (0, 0x5257_4e44_0000_0002),
        (1, 1),
        (2, 1),
        (3, 4),
        (4, 16),
        (5, 1),
        (6, 1),
        (13, 1),
        (96, 1),
    ];
    let mut next = 0;
    for (address, word) in words.iter().enumerate() {
        if *word != 0 {
            assert_eq!(rt; expected.get(next).copied(), Some((address, *word)));
            assert!(rt; next < 9);
            next += 1;
        }
    }
    assert_eq!(rt; next, 9);
    Ok(())
}

#[test]
fn a_header_is_refused_by_its_first_wrong_word(rt: HostRuntime) -> Result<(), Fail> {
    let cases: [(usize, u64, ImageRule, u32); 12] = [
        (0, 5, ImageRule::Magic, 0),
        (1, 0, ImageRule::Policy, 1),
        (2, 2, ImageRule::Cells, 2),
        (3, 3, ImageRule::Sizes, 3),
        (3, 8, ImageRule::Sizes, 0),
        (4, 65_537, ImageRule::Sizes, 4),
        (5, 9, ImageRule::Sizes, 5),
        (5, 0, ImageRule::Sizes, 5),
        (6, 0, ImageRule::Sizes, 6),
        (6, 2, ImageRule::Sizes, 6),
        (13, 4, ImageRule::Sizes, 13),
        (4, 17, ImageRule::Sizes, 0),
    ];
    for (address, value, rule, named) in cases {
        let row = changed(rt.alloc(), address, value)?.ok_or("fits")?;
        assert_eq!(rt;
            read_layout(&row),
            Err(ImageFault {
                rule,
                address: named
            }),
            "at {address}"
        );
    }
    let row = changed(rt.alloc(), 0, FIRST_MAGIC)?.ok_or("fits")?;
    assert_eq!(rt; read_layout(&row), Ok(smallest(1)));
    Ok(())
}

#[test]
fn buckets_and_blocks_have_their_places(rt: HostRuntime) -> Result<(), Fail> {
    let layout = Layout {
        policy: Policy::NoForce,
        cells: 16,
        buckets: 14,
        blocks: 20,
        structures: 2,
        format: 2,
        partitions: 3,
    };
    assert_eq!(rt; layout.bucket(1), 168);
    assert_eq!(rt; layout.heap(), 1936);
    assert_eq!(rt; layout.block(3), 1984);
    assert_eq!(rt; layout.size(), 2256);
    assert_eq!(rt; layout.block_of(1999), 3);
    assert!(rt; layout.is_data(1999));
    assert!(rt; !layout.is_data(1984));
    assert!(rt; !layout.is_data(1935));
    assert_eq!(rt; layout.part(0), Buckets { first: 0, count: 4 });
    assert_eq!(rt; layout.part(2), Buckets { first: 8, count: 6 });
    let row = changed(rt.alloc(), 45, 7)?.ok_or("fits")?;
    assert!(rt; row.size() == 352);
    let cell = read_cell(&row, 40);
    assert_eq!(rt; cell.after, 7);
    assert_eq!(rt; cell_word(&cell, 5), 7);
    assert_eq!(rt; cell_word(&cell, 4), 0);
    Ok(())
}
