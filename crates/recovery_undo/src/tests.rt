//! One transaction on small regions, which is undone to its end or up to a stop.
ghost use Rattle.std.specs.Prelude.{◌≡◌, ◌≤◌, ◌+◌, ◌++◌, ℕ, IfOk, [], ◌∷◌};
ghost use Rattle.persist_model.specs.Region.{loaded};
ghost use Rattle.persist_model.specs.State.{State};
ghost use Rattle.region_layout.specs.Layout.{layout_shape};
ghost use Rattle.bucket_log.specs.Scans.{record_of_placed};
ghost use Rattle.recovery_undo.specs.RecoveryAppends.{KnowsRegion};
ghost use Rattle.recovery_undo.specs.Checkpoint.{CanCheckpoint};
ghost use Rattle.test_regions.specs.Pairs.{words_in};
ghost use Rattle.recovery_undo.specs.UndoRegions.{small, narrow, running, running_narrow, running_records, record_with, HasRunningGates, IsTested};

use crate::{Held, append_checkpoint, undo};
use bucket_log::Placed;
use lane_traits::{Device, Done};
use log_partition::UsedBuckets;
use persist_model::Look;
use persist_model::format::{COMPENSATION, DELETION, UPDATE};
use recovery_run::{Gates, put_gate};
use region_layout::{Cell, Layout, Policy};
use std::alloc::Global;
use std::process::Abort;
use std::test::Fail;
use test_regions::changed_words;
use word_region::{Cut, PlainCells};

fn small_layout() -> Layout
    ensures { layout_shape result ≡ small }
{
    Layout {
        policy: Policy::NoForce,
        cells: 16,
        buckets: 4,
        blocks: 16,
        structures: 1,
        format: 1,
        partitions: 1,
    }
}

// Buckets of one cell.
fn narrow_layout() -> Layout
    ensures { layout_shape result ≡ narrow }
{
    Layout {
        policy: Policy::NoForce,
        cells: 1,
        buckets: 34,
        blocks: 16,
        structures: 1,
        format: 1,
        partitions: 1,
    }
}

// The records of the transaction, which both regions have.
const RECORDS: &[(u32, u64)] = &[
    (40, 1),
    (41, 1),
    (42, 1),
    (43, 577),
    (44, 5),
    (45, 7),
    (56, 2),
    (57, 1),
    (58, 1),
    (59, 578),
    (61, 9),
    (62, 1),
    (88, 3),
    (89, 1),
    (90, 2),
    (91, 578),
    (92, 9),
    (94, 1),
    (104, 4),
    (105, 1),
    (106, 6),
    (107, 592),
    (108, 1),
    (576, 1),
    (577, 7),
    (578, 9),
    (592, 1),
];

// A region of 832 words with this header, these links and the records, and with memory for the stores of an undo and of a
// checkpoint record.
fn region_of(alloc: Global, front: &[(u32, u64)]) -> Result<PlainCells, Fail>
    ensures cells { IfOk result (λ region. ⟦<PlainCells as Device>⟧.cells region ≡ loaded (words_in (front.now ++ running_records) 832)) }
    ensures spare { IfOk result (λ region. 153 ≤ ⟦<PlainCells as Device>⟧.spare region) }
{
    let words = changed_words(alloc, RECORDS, front, 832)?;
    let mut region = PlainCells::new(alloc, 100000);
    region.load(words.as_slice())?;
    region.reserve(153)?;
    Ok(region)
}

// All records in one bucket.
fn small_region(alloc: Global) -> Result<PlainCells, Fail>
    ensures cells { IfOk result (λ region. ⟦<PlainCells as Device>⟧.cells region ≡ loaded (words_in running 832)) }
    ensures spare { IfOk result (λ region. 153 ≤ ⟦<PlainCells as Device>⟧.spare region) }
{
    let front = [
        (0, 5933297088048660481),
        (1, 2),
        (2, 16),
        (3, 4),
        (4, 16),
        (5, 1),
        (8, 32),
        (9, 32),
    ];
    region_of(alloc, &front)
}

// Each record in a bucket of its own: the first, the second, the fourth and the fifth.
fn narrow_region(alloc: Global) -> Result<PlainCells, Fail>
    ensures cells { IfOk result (λ region. ⟦<PlainCells as Device>⟧.cells region ≡ loaded (words_in running_narrow 832)) }
    ensures spare { IfOk result (λ region. 153 ≤ ⟦<PlainCells as Device>⟧.spare region) }
{
    let front = [
        (0, 5933297088048660481),
        (1, 2),
        (2, 1),
        (3, 34),
        (4, 16),
        (5, 1),
        (8, 32),
        (9, 96),
        (32, 48),
        (48, 80),
        (49, 32),
        (80, 96),
        (81, 48),
        (97, 80),
    ];
    region_of(alloc, &front)
}

// A record of the transaction that isn't an end.
fn record(
    at: u32,
    lsn: u64,
    kind: u64,
    word: u64,
    before: u64,
    after: u64,
    undo_next: u64,
) -> Placed
    ensures { record_of_placed result ≡ record_with at lsn kind word before after undo_next }
{
    Placed {
        at,
        cell: Cell {
            lsn,
            transaction: 1,
            kind,
            word,
            before,
            after,
            undo_next,
            outcome: 0,
        },
    }
}

// The gates of the records.
fn small_gates(alloc: Global) -> Result<Gates, Fail>
    ensures { IfOk result (λ gates. HasRunningGates gates) }
{
    let mut gates = Gates::with_memory(alloc, 6, 1, 1)?;
    put_gate(&mut gates.gates, 40);
    put_gate(&mut gates.gates, 56);
    put_gate(&mut gates.gates, 88);
    put_gate(&mut gates.gates, 104);
    Ok(gates)
}

// The table of a region's chains.
fn table_of<D: Device>(alloc: Global, device: &D, layout: Layout) -> Result<UsedBuckets, Fail>
    requires { IsTested (layout_shape layout) (D.cells device.now) }
    ensures { IfOk result (λ table. KnowsRegion layout table (D.cells device.now)) }
{
    let mut table = UsedBuckets::with_memory(alloc, layout)?;
    table.read(device, layout);
    Ok(table)
}

// What is held of a region's log.
fn small_held<D: Device>(alloc: Global, device: &D, layout: Layout) -> Result<Held, Fail>
    requires { IsTested (layout_shape layout) (D.cells device.now) }
    ensures next { IfOk result (λ held. held.next ≡ 5) }
    ensures gates { IfOk result (λ held. HasRunningGates held.gates) }
    ensures table { IfOk result (λ held. KnowsRegion layout held.table (D.cells device.now)) }
{
    let gates = small_gates(alloc)?;
    let table = table_of(alloc, device, layout)?;
    Ok(Held {
        next: 5,
        gates,
        table,
    })
}

// Undoes the transaction.
fn undo_small<D: Device>(device: &mut D, layout: Layout, held: &mut Held) -> Done
    requires tested { IsTested (layout_shape layout) (D.cells device.old) }
    requires spare { 153 ≤ D.spare device.old }
    requires next { held.old.next ≡ 5 }
    requires gates { HasRunningGates held.old.gates }
    requires table { KnowsRegion layout held.old.table (D.cells device.old) }
    ensures made { result ≡ Done.Made → (first y : State) × CanCheckpoint layout held.new first y (D.cells device.new) }
    ensures spare_left { layout.cells + 21 ≤ D.spare device.new }
{
    let records = [
        record(40, 1, UPDATE, 577, 5, 7, 0),
        record(56, 2, UPDATE, 578, 0, 9, 1),
        record(88, 3, COMPENSATION, 578, 9, 0, 1),
        record(104, 4, DELETION, 592, 1, 0, 0),
    ];
    undo(device, layout, 1, &records, held)
}

fn word<W: Look>(words: &W, a: u32) -> u64 {
    if a < words.size() { words.word(a) } else { 10 }
}

// The eight words of a cell.
fn check_cell<W: Look>(rt: &impl Abort, words: &W, at: u32, expected: &[u64]) {
    let mut a = at;
    for value in expected {
        assert_eq!(rt; word(words, a), *value, "at {a}");
        a = a.saturating_add(1);
    }
}

// A rollback record, a compensation of the first update, and an end come, and behind them a checkpoint record. Both words
// are as they were before, and the block that was to be deleted keeps its owner.
#[test]
fn a_transaction_is_undone_and_a_checkpoint_follows(rt: HostRuntime) -> Result<(), Fail> {
    let alloc = rt.alloc();
    let layout = small_layout();
    let mut region = small_region(alloc)?;
    let mut held = small_held(alloc, &region, layout)?;
    match undo_small(&mut region, layout, &mut held) {
        Done::Stopped => return Err("stopped".into()),
        Done::Made => {}
    }
    // 10 + 1 + 10 + 1 + 1 + 10
    assert_eq!(rt; region.events(), 33);
    check_cell(&rt, &region, 104, &[4, 1, 6, 592, 1, 0, 0, 0]);
    check_cell(&rt, &region, 48, &[5, 1, 3, 0, 0, 0, 0, 0]);
    check_cell(&rt, &region, 64, &[6, 1, 2, 577, 7, 5, 0, 0]);
    check_cell(&rt, &region, 72, &[7, 1, 4, 0, 0, 0, 0, 2]);
    check_cell(&rt, &region, 576, &[1, 5, 0, 0]);
    check_cell(&rt, &region, 592, &[1, 0]);
    assert_eq!(rt; held.next, 8);
    match append_checkpoint(&mut region, layout, &mut held) {
        Done::Stopped => return Err("stopped".into()),
        Done::Made => {}
    }
    assert_eq!(rt; region.events(), 43);
    check_cell(&rt, &region, 80, &[8, 0, 5, 0, 0, 0, 0, 0]);
    check_cell(&rt, &region, 8, &[32, 32, 0]);
    assert_eq!(rt; held.next, 9);
    assert_eq!(rt;
        held.gates.gates.as_slice(),
        [40, 56, 88, 104, 48, 64].as_slice()
    );
    assert_eq!(rt; held.gates.ends.as_slice(), [72].as_slice());
    assert_eq!(rt; held.gates.checkpoints.as_slice(), [80].as_slice());
    Ok(())
}

// With one cell a bucket each record takes one bucket more: the third one of the part first, which isn't in the chain, and
// then the sixth and those behind it.
#[test]
fn an_undo_puts_buckets_behind_the_chain(rt: HostRuntime) -> Result<(), Fail> {
    let alloc = rt.alloc();
    let layout = narrow_layout();
    let mut region = narrow_region(alloc)?;
    let mut held = small_held(alloc, &region, layout)?;
    match undo_small(&mut region, layout, &mut held) {
        Done::Stopped => return Err("stopped".into()),
        Done::Made => {}
    }
    // 22 + 1 + 22 + 1 + 1 + 22
    assert_eq!(rt; region.events(), 69);
    check_cell(&rt, &region, 8, &[32, 128, 0]);
    check_cell(&rt, &region, 96, &[64, 80]);
    check_cell(&rt, &region, 64, &[112, 96]);
    check_cell(&rt, &region, 72, &[5, 1, 3, 0, 0, 0, 0, 0]);
    check_cell(&rt, &region, 112, &[128, 64]);
    check_cell(&rt, &region, 120, &[6, 1, 2, 577, 7, 5, 0, 0]);
    check_cell(&rt, &region, 128, &[0, 112]);
    check_cell(&rt, &region, 136, &[7, 1, 4, 0, 0, 0, 0, 2]);
    check_cell(&rt, &region, 576, &[1, 5, 0, 0]);
    match append_checkpoint(&mut region, layout, &mut held) {
        Done::Stopped => return Err("stopped".into()),
        Done::Made => {}
    }
    assert_eq!(rt; region.events(), 91);
    check_cell(&rt, &region, 128, &[144, 112]);
    check_cell(&rt, &region, 152, &[8, 0, 5, 0, 0, 0, 0, 0]);
    assert_eq!(rt;
        held.gates.gates.as_slice(),
        [40, 56, 88, 104, 72, 120].as_slice()
    );
    assert_eq!(rt; held.gates.ends.as_slice(), [136].as_slice());
    assert_eq!(rt; held.gates.checkpoints.as_slice(), [152].as_slice());
    Ok(())
}

// A stop behind so many events of the undo. The old word of the update that was compensated before is the eleventh.
fn stop_undo(rt: &impl Abort, alloc: Global, stop: u64) -> Result<(), Fail> {
    let layout = small_layout();
    let mut cut = Cut::new(small_region(alloc)?, stop);
    let mut held = small_held(alloc, &cut, layout)?;
    let done = undo_small(&mut cut, layout, &mut held);
    assert_eq!(rt; done, Done::Stopped);
    assert_eq!(rt; cut.events(), stop);
    assert_eq!(rt; word(&cut, 578), if stop < 11 { 9 } else { 0 });
    assert_eq!(rt; word(&cut, 577), if stop < 22 { 7 } else { 5 });
    Ok(())
}

#[test]
fn an_undo_is_stopped_behind_any_event(rt: HostRuntime) -> Result<(), Fail> {
    for stop in 0..33 {
        stop_undo(&rt, rt.alloc(), stop)?;
    }
    Ok(())
}
