//! Lanes over the keeper of a device's log.
ghost use Rattle.std.specs.Prelude.{◌≡◌, IfOk, IsTrue};
ghost use Rattle.log_keeper.specs.Fitting.{FitsLayout};
ghost use Rattle.log_keeper.specs.Parts.{rests};
ghost use Rattle.log_keeper.specs.Slots.{run_of_slot};
ghost use Rattle.keeper_tests.specs.Kept.{IsKeeperOf};

use bucket_log::{place, scan};
use lane_traits::Device;
use log_clearing::removal;
use log_keeper::{LogKeeper, Part, Progress, Slot};
use log_partition::PartView;
use log_tests::{log_at_rest, make_event};
use persist_model::format::MAX_WORDS;
use persist_model::{Look, NoMemory};
use region_layout::{Cell, Kind, Layout, Policy, format};
use std::alloc::Global;
use std::process::Abort;
use std::test::Fail;
use word_region::PlainCells;

/// A region, and the keeper of its log.
#[derive(Drop)]
pub struct Lanes {
    pub region: PlainCells,
    pub layout: Layout,
    pub keeper: LogKeeper,
}

// Whether the slot's part names words of a region of this layout.
fn fits(layout: Layout, slot: &Slot) -> bool
    ensures { IsTrue result → FitsLayout layout (run_of_slot slot.now).part }
{
    match slot.part {
        Part::Append(place, _) => place.bucket < MAX_WORDS && place.cell < layout.cells,
        Part::Drop(removed) => removed.next < MAX_WORDS,
        Part::Rest => true,
        Part::Close => true,
        Part::TakeBack => true,
    }
}

// Whether nothing is under way in the slot.
fn is_resting(slot: &Slot) -> bool
    ensures { IsTrue result → (run_of_slot slot.now).part ≡ rests }
{
    match slot.part {
        Part::Rest => true,
        Part::Append(_, _) => false,
        Part::Close => false,
        Part::TakeBack => false,
        Part::Drop(_) => false,
    }
}

impl Lanes {
    /// A fresh region with two partitions of four buckets with one cell each.
    pub fn fresh(rt: &impl Abort, alloc: Global) -> Result<Lanes, Fail>
        ensures { IfOk result (λ lanes. IsKeeperOf lanes.layout.partitions lanes.keeper) }
    {
        let layout = Layout {
            policy: Policy::Force,
            cells: 1,
            buckets: 8,
            blocks: 16,
            structures: 1,
            format: 2,
            partitions: 2,
        };
        let words = format(alloc, layout, &[Kind::Cells])?;
        assert!(rt; words.len() <= MAX_WORDS as usize);
        let mut region = PlainCells::new(alloc, 100000);
        region.load(words.as_slice())?;
        let keeper = LogKeeper::new(alloc, 2, &[], 1)?;
        Ok(Lanes {
            region,
            layout,
            keeper,
        })
    }

    /// Makes the next event of the partition's part by the holder of its latch, and says whether there was one.
    pub fn step(&mut self, rt: &impl Abort, p: u32) -> bool
        requires { IsKeeperOf self.old.layout.partitions self.old.keeper }
        ensures { IsKeeperOf self.new.layout.partitions self.new.keeper }
    {
        assert!(rt; p < self.layout.partitions);
        let slot = &self.keeper.slots[p as usize];
        if !fits(self.layout, slot) {
            panic!(rt; "outside the region");
        }
        if slot.made > 1000 {
            panic!(rt; "no end");
        }
        let lane = slot.holder;
        let Some(event) = self.keeper.next_event(self.layout, p) else {
            return false;
        };
        assert!(rt; lane <= 16);
        assert!(rt; make_event(&mut self.region, lane, event));
        self.keeper.made(self.layout, p);
        true
    }

    /// Makes so many events of the partition's part.
    pub fn make(&mut self, rt: &impl Abort, p: u32, events: u32)
        requires { IsKeeperOf self.old.layout.partitions self.old.keeper }
        ensures { IsKeeperOf self.new.layout.partitions self.new.keeper }
    {
        for i in 0..events {
            assert!(rt; self.step(rt, p), "event {i}");
        }
    }

    /// Makes the rest of the partition's part, and says how many events that were.
    pub fn finish(&mut self, rt: &impl Abort, p: u32) -> u32
        requires { IsKeeperOf self.old.layout.partitions self.old.keeper }
        ensures { IsKeeperOf self.new.layout.partitions self.new.keeper }
    {
        let mut made = 0;
        for i in 0..100 {
            if self.step(rt, p) {
                made = i + 1;
            }
        }
        made
    }

    /// The lane takes the partition's latch, if it is free.
    pub fn latch(&mut self, rt: &impl Abort, p: u32, lane: u32) -> bool
        requires { IsKeeperOf self.old.layout.partitions self.old.keeper }
        ensures { IsKeeperOf self.new.layout.partitions self.new.keeper }
    {
        assert!(rt; p < self.layout.partitions);
        self.keeper.take_latch(p, lane)
    }

    /// The lane takes all latches, or none where one is held.
    pub fn latch_all(&mut self, lane: u32) -> bool
        requires { IsKeeperOf self.old.layout.partitions self.old.keeper }
        ensures { IsKeeperOf self.new.layout.partitions self.new.keeper }
    {
        self.keeper.take_latches(lane)
    }

    /// Lets the partition's latch go.
    pub fn release(&mut self, rt: &impl Abort, p: u32)
        requires { IsKeeperOf self.old.layout.partitions self.old.keeper }
        ensures { IsKeeperOf self.new.layout.partitions self.new.keeper }
    {
        assert!(rt; p < self.layout.partitions);
        if !is_resting(&self.keeper.slots[p as usize]) {
            panic!(rt; "a part is under way");
        }
        self.keeper.release_latch(p);
    }

    /// The holder of the partition's latch begins to append a record at the next place.
    pub fn append(&mut self, rt: &impl Abort, p: u32, chain: &[u32], cell: Cell) -> Result<(), Fail>
        requires { IsKeeperOf self.old.layout.partitions self.old.keeper }
        ensures { IsKeeperOf self.new.layout.partitions self.new.keeper }
    {
        assert!(rt; p < self.layout.partitions && self.region.size() >= 32);
        let view = PartView::new(&self.region, self.layout, p);
        let log = log_at_rest(&view, p, chain).ok_or("no log")?;
        let at = place(&view, log.layout, log.part).ok_or("no place")?;
        assert!(rt; at.bucket < MAX_WORDS && at.cell < 16);
        assert!(rt; self.keeper.next_lsn < 1000);
        self.keeper.reserve(1)?;
        self.keeper.begin_append(p, at, cell);
        Ok(())
    }

    /// It begins to close these gates.
    pub fn close(
        &mut self,
        rt: &impl Abort,
        p: u32,
        gates: &[u32],
        ends: &[u32],
    ) -> Result<(), NoMemory>
        requires { IsKeeperOf self.old.layout.partitions self.old.keeper }
        ensures { IsKeeperOf self.new.layout.partitions self.new.keeper }
    {
        assert!(rt; p < self.layout.partitions);
        assert!(rt; gates.len() <= 16 && ends.len() <= 16);
        self.keeper.reserve_lists(p, 16)?;
        self.keeper.begin_group(p, gates, ends, &[]);
        Ok(())
    }

    /// It begins to take these deletions back.
    pub fn take_back(&mut self, rt: &impl Abort, p: u32, gates: &[u32]) -> Result<(), NoMemory>
        requires { IsKeeperOf self.old.layout.partitions self.old.keeper }
        ensures { IsKeeperOf self.new.layout.partitions self.new.keeper }
    {
        assert!(rt; p < self.layout.partitions);
        assert!(rt; gates.len() <= 16);
        self.keeper.reserve_lists(p, 16)?;
        self.keeper.begin_taking_back(p, gates);
        Ok(())
    }

    /// It begins to take out the first bucket of the chain that has closed cells alone.
    pub fn take_out(&mut self, rt: &impl Abort, p: u32, chain: &[u32]) -> Result<(), Fail>
        requires { IsKeeperOf self.old.layout.partitions self.old.keeper }
        ensures { IsKeeperOf self.new.layout.partitions self.new.keeper }
    {
        assert!(rt; p < self.layout.partitions && self.region.size() >= 32);
        let view = PartView::new(&self.region, self.layout, p);
        let log = log_at_rest(&view, p, chain).ok_or("no log")?;
        let next = removal(&view, log.layout).ok_or("no removal")?;
        self.keeper.begin_removal(p, next);
        Ok(())
    }

    /// The partition's records as they are read: their addresses and numbers. A keeper of these has them settled.
    pub fn check_log(
        &self,
        rt: &impl Abort,
        alloc: Global,
        p: u32,
        chain: &[u32],
        expected: &[(u32, u64)],
    ) -> Result<(), Fail> {
        assert!(rt; p < self.layout.partitions && self.region.size() >= 32);
        let view = PartView::new(&self.region, self.layout, p);
        let log = log_at_rest(&view, p, chain).ok_or("no log")?;
        let found = scan(alloc, &view, log.layout)?;
        assert_eq!(rt; found.len(), expected.len());
        for (placed, wanted) in found.as_slice().iter().zip(expected.iter()) {
            assert_eq!(rt; (placed.at, placed.cell.lsn), *wanted);
        }
        let keeper = LogKeeper::new(alloc, 2, found.as_slice(), 100)?;
        assert_eq!(rt; keeper.ledger.len(), expected.len());
        for (entry, wanted) in keeper.ledger.as_slice().iter().zip(expected.iter()) {
            assert_eq!(rt;
                (entry.placed.at, entry.stage),
                (wanted.0, Progress::Settled)
            );
        }
        Ok(())
    }

    /// The ledger's records, oldest first: their numbers, and how far they have come.
    pub fn check_ledger(&self, rt: &impl Abort, expected: &[(u64, Progress)]) {
        assert_eq!(rt; self.keeper.ledger.len(), expected.len());
        for (entry, wanted) in self.keeper.ledger.as_slice().iter().zip(expected.iter()) {
            assert_eq!(rt; (entry.placed.cell.lsn, entry.stage), *wanted);
        }
    }
}
