ghost use Rattle.std.specs.Prelude.{◌≡◌, min, ◌-◌, ◌+◌, ◌*◌, ◌<◌, ◌≤◌, ◌^◌, [], ◌∷◌, ◌++◌, ℕ, Some, None, length, map, slice_set, OnOk, OnErr, IfOk};
ghost use Rattle.offset_alloc.specs.declared.Standing.TheVariants as Standing;
ghost use Rattle.lane_types.specs.Asks as Asks;
ghost use Rattle.lane_book.specs.Lanes.{asked_lane, refused_lane, IsRoomier, HasRoom, has_room, with_more, with_lane};
ghost use Rattle.lane_book.specs.Entries.{entry_of, committing, disowned, writes_of_entry, AreBlocks};
ghost use Rattle.lane_book.specs.FacesOf.{lane_at};
ghost use Rattle.lane_book.specs.Steps.{Asks, IsAskedOf, IsAskedIn, IsRoomierIn, IsPlain};
ghost use Rattle.lane_book.specs.Books.{IsBook};
ghost use Rattle.lane_book.specs.Appends.{ReservesNeed};
ghost use Rattle.lane_book.specs.declared.lane.Doing.TheVariants as Doing;
ghost use Rattle.lane_types.specs.declared.call.Call.TheVariants as Call;

use crate::book::Book;
use crate::lane::{Doing, Lane};
use lane_traits::WordWrite;
use lane_types::{Call, Deed, Entry, Phase, Refusal, Tally};
use offset_alloc::Standing;
use persist_model::{List, NoMemory};
use region_layout::Layout;
use std::alloc::Global;

/// What the call adds to the tally's cells.
fn cells_of<E>(call: &Call<E>) -> u64
    ensures { result ≡ min (Asks.cells_of call.now) (2 ^ 64 - 1) }
{
    match call {
        Call::Begin(_) | Call::Write(_, _) | Call::Take(_) => 2,
        Call::Give(_) => 1,
        Call::Batch(writes) => (writes.len() as u64).saturating_mul(2).saturating_add(16),
        _ => 0,
    }
}

fn checkpoints_of<E>(call: &Call<E>) -> u64
    ensures { result ≡ Asks.checkpoints_of call.now }
{
    match call {
        Call::Checkpoint => 1,
        _ => 0,
    }
}

fn takes_of<E>(call: &Call<E>) -> u64
    ensures { result ≡ Asks.takes_of call.now }
{
    match call {
        Call::Take(_) => 1,
        _ => 0,
    }
}

/// The tally with an accepted call.
fn count<E>(call: &Call<E>, tally: &mut Tally)
    ensures { tally.new ≡ Asks.accepted_tally call.now tally.old }
{
    tally.cells = tally.cells.saturating_add(cells_of(call));
    tally.checkpoints = tally.checkpoints.saturating_add(checkpoints_of(call));
    tally.takes = tally.takes.saturating_add(takes_of(call));
}

/// The tally with a refused call.
fn count_refused<E>(call: &Call<E>, refusal: Refusal, tally: &mut Tally)
    ensures { tally.new ≡ Asks.refused_tally call.now refusal tally.old }
{
    match refusal {
        Refusal::LogFull { .. } => {
            tally.cells = tally.cells.saturating_add(cells_of(call));
            tally.full = true;
        }
        Refusal::HeapFull => {
            tally.cells = tally.cells.saturating_add(cells_of(call));
            tally.takes = tally.takes.saturating_add(1);
            tally.heap = true;
        }
        _ => {}
    }
}

impl<E> Lane<E> {
    /// Makes room for so many writes, gives, takes and savepoints.
    pub fn reserve(
        &mut self,
        writes: usize,
        gives: usize,
        takes: usize,
        points: usize,
    ) -> Result<(), NoMemory>
        ensures roomier { IsRoomier self.old self.new }
        ensures room { OnOk result (HasRoom writes gives takes points self.new) }
    {
        self.writes.reserve(writes)?;
        self.updates.reserve(writes)?;
        self.gives.reserve(gives)?;
        self.gates.reserve(gives)?;
        self.taken.reserve(takes)?;
        self.untaken.reserve(takes)?;
        self.points.reserve(points)?;
        Ok(())
    }

    /// The call is in progress, and so many cells of the log are promised to it.
    pub fn ask(&mut self, call: &Call<E>, doing: Doing, promised: u64)
        ensures { self.new ≡ asked_lane call.now doing promised self.old }
    {
        count(call, &mut self.tally);
        self.promised = promised;
        self.phase = Phase::Calling;
        self.doing = doing;
        self.part = 0;
    }

    /// The call was refused.
    pub fn refuse(&mut self, call: &Call<E>, refusal: Refusal)
        ensures { self.new ≡ refused_lane call.now refusal self.old }
    {
        count_refused(call, refusal, &mut self.tally);
    }
}

/// The write that takes the block from its owner.
fn disown(layout: Layout, block: u32) -> WordWrite
    requires { block < layout.blocks }
    ensures { result ≡ disowned layout block }
{
    WordWrite {
        address: layout.block(block),
        value: 0,
    }
}

/// Puts a write at the end of the list.
fn put(write: WordWrite, list: &mut List<WordWrite>) -> Result<(), NoMemory>
    ensures { OnOk result (list.new ≡ list.old ++ write ∷ []) }
{
    match list.push(write) {
        Ok(()) => Ok(()),
        Err((_, refused)) => Err(refused),
    }
}

/// Puts the writes that take these blocks from their owners at the end of the list.
fn disown_all(layout: Layout, blocks: &[u32], list: &mut List<WordWrite>) -> Result<(), NoMemory>
    requires { AreBlocks layout blocks.now }
    ensures { OnOk result (list.new ≡ list.old ++ map (disowned layout) blocks.now) }
{
    for block in blocks {
        put(disown(layout, *block), list)?;
    }
    Ok(())
}

impl<E> Lane<E> {
    /// The writes of the transaction in their order, and behind them an owner word with 0 for each given block.
    fn entry_writes(&self, alloc: Global, layout: Layout) -> Result<List<WordWrite>, NoMemory>
        requires { AreBlocks layout self.now.gives.items }
        ensures { IfOk result (λ writes. writes ≡ writes_of_entry layout self.now) }
    {
        let mut writes = List::new(alloc);
        writes.extend_from_slice(self.writes.as_slice())?;
        disown_all(layout, self.gives.as_slice(), &mut writes)?;
        Ok(writes)
    }
}

impl<E: Deed> Lane<E> {
    /// A call that adds no write and no give.
    fn ask_plain(&mut self, call: &Call<E>, doing: Doing) -> Result<(), NoMemory>
        requires { IsPlain call.now doing }
        ensures ok { OnOk result (IsAskedOf self.old call.now doing [] [] 0 self.new) }
        ensures err { OnErr result (IsRoomier self.old self.new) }
    {
        self.reserve(0, 0, 0, 1)?;
        self.ask(call, doing, 0);
        Ok(())
    }

    fn ask_write(&mut self, a: u32, v: u64) -> Result<(), NoMemory>
        ensures ok { OnOk result (IsAskedOf self.old (Call.Write a v) (Doing.Write a v) (record { address = a; value = v } ∷ []) [] 2 self.new) }
        ensures err { OnErr result (IsRoomier self.old self.new) }
    {
        self.reserve(1, 0, 0, 0)?;
        self.writes.push(WordWrite {
            address: a,
            value: v,
        });
        self.ask(&Call::Write(a, v), Doing::Write(a, v), 2);
        Ok(())
    }

    /// The block that was picked, whose owner word stands at this address.
    fn ask_take(&mut self, structure: u32, block: u32, a: u32) -> Result<(), NoMemory>
        requires { structure < 8 }
        ensures ok { OnOk result (IsAskedOf self.old (Call.Take structure) (Doing.Take structure block) (record { address = a; value = structure + 1 } ∷ []) [] 2 self.new) }
        ensures err { OnErr result (IsRoomier self.old self.new) }
    {
        self.reserve(1, 0, 1, 0)?;
        self.writes.push(WordWrite {
            address: a,
            value: u64::from(structure) + 1,
        });
        self.taken.push(block);
        self.ask(&Call::Take(structure), Doing::Take(structure, block), 2);
        Ok(())
    }

    fn ask_give(&mut self, block: u32) -> Result<(), NoMemory>
        ensures ok { OnOk result (IsAskedOf self.old (Call.Give block) (Doing.Give block) [] (block ∷ []) 1 self.new) }
        ensures err { OnErr result (IsRoomier self.old self.new) }
    {
        self.reserve(0, 1, 0, 0)?;
        self.gives.push(block);
        self.ask(&Call::Give(block), Doing::Give(block), 1);
        Ok(())
    }

    // The writes of the call, for which there is room, are the lane's.
    fn push_all(&mut self, writes: &[WordWrite])
        requires { has_room (length writes.now) self.old.writes }
        ensures { self.new ≡ with_more writes.now self.old }
    {
        for write in writes {
            self.writes.push(*write);
        }
    }

    /// A batch of these writes, where buckets have k cells.
    fn ask_batch(&mut self, call: &Call<E>, writes: &[WordWrite], k: u64) -> Result<(), NoMemory>
        requires call { call.now ≡ Call.Batch writes.now }
        requires few { k ≤ 16 }
        requires short { length writes.now < 2 ^ 32 }
        ensures ok { OnOk result (IsAskedOf self.old call.now (Doing.Batch (length writes.now)) writes.now [] (2 * length writes.now + k) self.new) }
        ensures err { OnErr result (IsRoomier self.old self.new) }
    {
        let count = writes.len();
        self.reserve(count, 0, 0, 0)?;
        self.push_all(writes);
        self.ask(call, Doing::Batch(count as u64), 2 * count as u64 + k);
        Ok(())
    }

    /// A commit, whose entry has this deed and these writes. It counts in the tally as an abort does.
    fn ask_commit(&mut self, lane: u32, deed: E, writes: List<WordWrite>)
        requires { 1 ≤ self.old.begun }
        ensures { self.new ≡ committing lane deed writes self.old }
    {
        self.ask(&Call::Abort, Doing::Commit, 0);
        self.entry = Some(Entry {
            lane,
            number: self.begun - 1,
            transaction: self.transaction,
            deed,
            writes,
        });
    }
}

impl<E: Deed> Book<E> {
    /// The lane's call is refused: only its tally changes.
    pub fn refuse(&mut self, lane: u32, call: &Call<E>, refusal: Refusal)
        requires lane { lane < length self.old.lanes.items }
        requires book { IsBook self.old }
        ensures is { self.new ≡ with_lane self.old lane (refused_lane call.now refusal (lane_at self.old lane)) self.old.touched }
        ensures ask { Asks (Asks.refused call.now refusal) self.old self.new lane }
        ensures book { IsBook self.new }
    {
        self.lanes[lane as usize].refuse(call, refusal);
    }

    /// A call that adds no write and no give is the lane's. A savepoint has room made for it.
    pub fn ask_plain(&mut self, lane: u32, call: &Call<E>, doing: Doing) -> Result<(), NoMemory>
        requires lane { lane < length self.old.lanes.items }
        requires nothing { (lane_at self.old lane).doing ≡ Doing.Nothing }
        requires book { IsBook self.old }
        requires plain { IsPlain call.now doing }
        requires phase { (lane_at self.old lane).phase ≡ Asks.wanted call.now }
        ensures ok { OnOk result (Asks (Asks.asked call.now) self.old self.new lane) }
        ensures reserved { OnOk result ((k : ℕ) → ReservesNeed k call.now self.old self.new lane) }
        ensures asked { OnOk result (IsAskedIn call.now doing [] [] 0 self.old self.new lane) }
        ensures err { OnErr result (Asks (λ face. face) self.old self.new lane) }
        ensures roomier { OnErr result (IsRoomierIn self.old self.new lane) }
        ensures book { IsBook self.new }
    {
        self.lanes[lane as usize].ask_plain(call, doing)
    }

    /// A write is the lane's call.
    pub fn ask_write(&mut self, lane: u32, a: u32, v: u64) -> Result<(), NoMemory>
        requires lane { lane < length self.old.lanes.items }
        requires nothing { (lane_at self.old lane).doing ≡ Doing.Nothing }
        requires book { IsBook self.old }
        ensures ok { OnOk result (Asks (Asks.asked (Call.Write a v)) self.old self.new lane) }
        ensures reserved { OnOk result ((k : ℕ) → ReservesNeed k (Call.Write a v) self.old self.new lane) }
        ensures asked { OnOk result (IsAskedIn (Call.Write a v) (Doing.Write a v) (record { address = a; value = v } ∷ []) [] 2 self.old self.new lane) }
        ensures err { OnErr result (Asks (λ face. face) self.old self.new lane) }
        ensures roomier { OnErr result (IsRoomierIn self.old self.new lane) }
        ensures book { IsBook self.new }
    {
        self.lanes[lane as usize].ask_write(a, v)
    }

    /// A give is the lane's call.
    pub fn ask_give(&mut self, lane: u32, block: u32) -> Result<(), NoMemory>
        requires lane { lane < length self.old.lanes.items }
        requires nothing { (lane_at self.old lane).doing ≡ Doing.Nothing }
        requires book { IsBook self.old }
        ensures ok { OnOk result (Asks (Asks.asked (Call.Give block)) self.old self.new lane) }
        ensures reserved { OnOk result ((k : ℕ) → ReservesNeed k (Call.Give block) self.old self.new lane) }
        ensures asked { OnOk result (IsAskedIn (Call.Give block) (Doing.Give block) [] (block ∷ []) 1 self.old self.new lane) }
        ensures err { OnErr result (Asks (λ face. face) self.old self.new lane) }
        ensures roomier { OnErr result (IsRoomierIn self.old self.new lane) }
        ensures book { IsBook self.new }
    {
        self.lanes[lane as usize].ask_give(block)
    }

    /// A take is the lane's call. The block, whose owner word stands at this address, is the structure's from now on.
    pub fn ask_take(
        &mut self,
        lane: u32,
        structure: u32,
        block: u32,
        a: u32,
    ) -> Result<(), NoMemory>
        requires lane { lane < length self.old.lanes.items }
        requires nothing { (lane_at self.old lane).doing ≡ Doing.Nothing }
        requires book { IsBook self.old }
        requires structure { structure < 8 }
        requires block { block < length self.old.blocks }
        ensures ok { OnOk result (Asks (Asks.asked (Call.Take structure)) self.old self.new lane) }
        ensures reserved { OnOk result ((k : ℕ) → ReservesNeed k (Call.Take structure) self.old self.new lane) }
        ensures asked { OnOk result (IsAskedIn (Call.Take structure) (Doing.Take structure block) (record { address = a; value = structure + 1 } ∷ []) [] 2
            (record self.old { blocks = slice_set self.old.blocks block (Standing.Owned structure) }) self.new lane) }
        ensures err { OnErr result (Asks (λ face. face) self.old self.new lane) }
        ensures roomier { OnErr result (IsRoomierIn self.old self.new lane) }
        ensures blocks { OnOk result (self.new.blocks ≡ slice_set self.old.blocks block (Standing.Owned structure)) }
        ensures stay { OnErr result (self.new.blocks ≡ self.old.blocks) }
        ensures book { IsBook self.new }
    {
        match self.lanes[lane as usize].ask_take(structure, block, a) {
            Ok(()) => {
                self.blocks.set(block, Standing::Owned(structure));
                Ok(())
            }
            Err(refused) => Err(refused),
        }
    }

    /// A batch is the lane's call, where buckets have k cells.
    pub fn ask_batch(
        &mut self,
        lane: u32,
        call: &Call<E>,
        writes: &[WordWrite],
        k: u64,
    ) -> Result<(), NoMemory>
        requires lane { lane < length self.old.lanes.items }
        requires nothing { (lane_at self.old lane).doing ≡ Doing.Nothing }
        requires book { IsBook self.old }
        requires call { call.now ≡ Call.Batch writes.now }
        requires few { k ≤ 16 }
        requires short { length writes.now < 2 ^ 32 }
        ensures ok { OnOk result (Asks (Asks.asked call.now) self.old self.new lane) }
        ensures reserved { OnOk result (1 ≤ k → ReservesNeed k call.now self.old self.new lane) }
        ensures asked { OnOk result (IsAskedIn call.now (Doing.Batch (length writes.now)) writes.now [] (2 * length writes.now + k) self.old self.new lane) }
        ensures err { OnErr result (Asks (λ face. face) self.old self.new lane) }
        ensures roomier { OnErr result (IsRoomierIn self.old self.new lane) }
        ensures book { IsBook self.new }
    {
        self.lanes[lane as usize].ask_batch(call, writes, k)
    }

    /// The writes of the lane's entry, made before a commit is its call, and room for the entries of all lanes.
    pub fn entry_writes(
        &mut self,
        alloc: Global,
        layout: Layout,
        lane: u32,
    ) -> Result<List<WordWrite>, NoMemory>
        requires lane { lane < length self.old.lanes.items }
        requires inside { AreBlocks layout (lane_at self.old lane).gives.items }
        ensures is { IfOk result (λ writes. writes ≡ writes_of_entry layout (lane_at self.old lane)) }
        ensures roomier { self.new ≡ record self.old { history = record self.old.history { capacity = self.new.history.capacity } } }
        ensures no_less { self.old.history.capacity ≤ self.new.history.capacity }
        ensures room { OnOk result (length self.new.history.items + 16 ≤ self.new.history.capacity) }
    {
        self.history.reserve(16)?;
        self.lanes[lane as usize].entry_writes(alloc, layout)
    }

    /// A commit is the lane's call. Its entry has these writes.
    pub fn ask_commit(&mut self, lane: u32, deed: E, writes: List<WordWrite>)
        requires lane { lane < length self.old.lanes.items }
        requires nothing { (lane_at self.old lane).doing ≡ Doing.Nothing }
        requires book { IsBook self.old }
        requires begun { 1 ≤ (lane_at self.old lane).begun }
        ensures is { self.new ≡ with_lane self.old lane (committing lane deed writes (lane_at self.old lane)) self.old.touched }
        ensures ask { Asks (Asks.asked (Call.Commit deed)) self.old self.new lane }
        ensures reserved { (k : ℕ) → ReservesNeed k (Call.Commit deed) self.old self.new lane }
        ensures book { IsBook self.new }
    {
        self.lanes[lane as usize].ask_commit(lane, deed, writes);
    }
}
