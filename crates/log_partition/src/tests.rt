ghost use Rattle.std.specs.Prelude.{◌≡◌, ◌<◌, ℕ, List, IfOk};
ghost use Rattle.persist_model.specs.Shape.{IsBucketOf};
ghost use Rattle.region_layout.specs.Layout.{layout_shape};
ghost use Rattle.test_regions.specs.Pairs.{words_in};
ghost use Rattle.log_partition.specs.TableRegion.{small, two_chains};
ghost use Rattle.log_partition.specs.Used.{KnowsChains};

use crate::{UsedBuckets, region_event};
use persist_model::{Event, Look};
use region_layout::{Layout, Policy};
use std::alloc::Global;
use std::process::Abort;
use std::test::Fail;
use test_regions::Row;

#[test]
fn list_words_are_those_of_the_partition(rt: HostRuntime) {
    assert!(rt; matches!(region_event(0, Event::PStore(12, 5)), Event::PStore(12, 5)));
    assert!(rt; matches!(region_event(1, Event::PStore(8, 5)), Event::PStore(21, 5)));
    assert!(rt; matches!(region_event(1, Event::Store(12, 0)), Event::Store(25, 0)));
    assert!(rt; matches!(region_event(2, Event::WriteBack(12)), Event::WriteBack(30)));
    assert!(rt; matches!(region_event(2, Event::PStore(13, 5)), Event::PStore(13, 5)));
    assert!(rt; matches!(region_event(2, Event::Fence), Event::Fence));
}

fn small_layout() -> Layout
    ensures { layout_shape result ≡ small }
{
    Layout {
        policy: Policy::Force,
        cells: 1,
        buckets: 8,
        blocks: 16,
        structures: 1,
        format: 2,
        partitions: 2,
    }
}

// The words of a region with a chain of two buckets and one of one.
fn small_row(alloc: Global) -> Result<Row, Fail>
    ensures { IfOk result (λ row. ⟦<Row as Look>⟧.words row ≡ words_in two_chains 416) }
{
    let pairs = [
        (0, 5933297088048660482),
        (1, 1),
        (2, 1),
        (3, 8),
        (4, 16),
        (5, 1),
        (6, 2),
        (13, 1),
        (8, 64),
        (9, 32),
        (64, 32),
        (33, 64),
        (21, 96),
        (22, 96),
    ];
    Ok(Row::of(alloc, &pairs, 416)?)
}

fn expect_least(
    rt: &impl Abort,
    table: &mut UsedBuckets,
    layout: Layout,
    p: u32,
    expected: Option<u32>,
)
    requires part { p < layout.partitions }
    requires knows { (chains : ℕ → List ℕ) × KnowsChains (layout_shape layout) table.old chains }
    ensures { (chains : ℕ → List ℕ) × KnowsChains (layout_shape layout) table.new chains }
{
    let least = table.least(layout, p);
    assert_eq!(rt; least, expected);
}

fn put_behind(table: &mut UsedBuckets, layout: Layout, p: u32, bucket: u32)
    requires part { p < layout.partitions }
    requires bucket { IsBucketOf (layout_shape layout) p bucket }
    requires knows { (chains : ℕ → List ℕ) × KnowsChains (layout_shape layout) table.old chains }
    ensures { (chains : ℕ → List ℕ) × KnowsChains (layout_shape layout) table.new chains }
{
    table.add(layout, p, bucket);
}

#[test]
fn the_least_bucket_outside_a_chain_is_known(rt: HostRuntime) -> Result<(), Fail> {
    let alloc = rt.alloc();
    let layout = small_layout();
    let row = small_row(alloc)?;
    let mut table = UsedBuckets::with_memory(alloc, layout)?;
    table.read(&row, layout);
    expect_least(&rt, &mut table, layout, 0, Some(48));
    expect_least(&rt, &mut table, layout, 1, Some(112));
    put_behind(&mut table, layout, 0, 48);
    expect_least(&rt, &mut table, layout, 0, Some(80));
    put_behind(&mut table, layout, 0, 80);
    expect_least(&rt, &mut table, layout, 0, None);
    expect_least(&rt, &mut table, layout, 1, Some(112));
    put_behind(&mut table, layout, 1, 144);
    put_behind(&mut table, layout, 1, 112);
    expect_least(&rt, &mut table, layout, 1, Some(128));
    Ok(())
}

#[test]
fn a_table_is_read_again(rt: HostRuntime) -> Result<(), Fail> {
    let alloc = rt.alloc();
    let layout = small_layout();
    let row = small_row(alloc)?;
    let mut table = UsedBuckets::with_memory(alloc, layout)?;
    table.read(&row, layout);
    put_behind(&mut table, layout, 0, 48);
    expect_least(&rt, &mut table, layout, 0, Some(80));
    table.read(&row, layout);
    expect_least(&rt, &mut table, layout, 0, Some(48));
    Ok(())
}
