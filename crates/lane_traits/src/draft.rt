ghost use Rattle.std.specs.Prelude.{◌≡◌, ◌≢◌, ◌↔◌, ℕ, ◌+◌, ◌<◌, ◌≤◌, [], ◌∷◌, ◌++◌, Bool, IsTrue, unwrap_or, length, take, drop, slice_index_or};
ghost use Rattle.std.specs.List.{position};
ghost use Rattle.persist_model.specs.Region.{Words};
ghost use Rattle.persist_model.specs.Records.{IsAmong};
ghost use Rattle.persist_model.specs.Chain.{HasNoRepeats};
ghost use Rattle.lane_traits.specs.Space.{Space, IsDataWordOf, root_block};
ghost use Rattle.lane_traits.specs.Draft.{addresses, has_address, after_writes, noted, last_writes, of_structure, drafted, IsOwnAt, IsDataAt};
ghost use Rattle.lane_traits.specs.DraftLaws.{HasNoRepeats-prop};

use crate::words::{Reads, Words, WordsRefusal};
use persist_model::List;
use std::alloc::Global;

/// A word and the value that it is to have.
#[derive(Clone, Copy, Debug, PartialEq, Eq)]
pub struct WordWrite {
    pub address: u32,
    pub value: u64,
}

/// What a draft would change.
#[derive(Drop)]
pub struct Drafted {
    /// Each written word once, with its last value, in the order in which the words were first written.
    pub writes: List<WordWrite>,
    /// The given blocks, in order of call.
    pub gives: List<u32>,
    /// The blocks that weren't taken.
    pub spare: List<u32>,
}

/// The words of one structure over a reader, which stays as it is. Its reads give what its writes left.
#[derive(Drop)]
pub struct Draft<R: Reads> {
    base: R,
    structure: u32,
    log: Vec<WordWrite>,
    gives: List<u32>,
    spare: List<u32>,
    ghost own_spare: { (b : ℕ) → IsAmong spare b → IsOwnAt (of_structure structure (R.space base).land) b },
    ghost own_gives: { (b : ℕ) → IsAmong gives b → IsOwnAt (of_structure structure (R.space base).land) b },
    ghost not_root: { (b : ℕ) → IsAmong gives b → b ≢ root_block (of_structure structure (R.space base).land) },
    ghost apart: { (b : ℕ) → IsAmong gives b → IsAmong spare b → ⊥ },
    ghost spare_once: { HasNoRepeats spare } by { HasNoRepeats-prop spare },
    ghost gives_once: { HasNoRepeats gives } by { HasNoRepeats-prop gives },
    ghost own_writes: { (a : ℕ) → IsAmong (addresses log.items) a → IsDataAt (of_structure structure (R.space base).land) a },
    ghost can_read: { (a : ℕ) → IsDataWordOf (of_structure structure (R.space base).land) a → IsTrue (R.readable base a) },
}

// The value that the last of these writes gives a word.
fn latest(log: &[WordWrite], a: u32) -> Option<u64>
    ensures { (w : Words) → after_writes log.now w a ≡ unwrap_or result (w a) }
{
    let mut found = None;
    for write in log {
        if write.address == a {
            found = Some(write.value);
        }
    }
    found
}

// Where a word stands.
fn place_of(log: &[WordWrite], address: u32) -> Option<usize>
    ensures { result ≡ position (has_address address) log.now }
{
    log.iter().position(|write| write.address == address)
}

// The write behind those that are kept is put among them. How many are kept then.
fn keep(log: &mut [WordWrite], kept: usize, next: usize) -> usize
    requires kept { kept ≤ next }
    requires next { next < length log.old }
    ensures noted { take result log.new ≡ noted (slice_index_or log.old next (record { address = 0; value = 0 })) (take kept log.old) }
    ensures rest { drop (next + 1) log.new ≡ drop (next + 1) log.old }
    ensures few { result ≤ next + 1 }
{
    let write = log[next];
    match place_of(&log[..kept], write.address) {
        Some(place) => {
            log[place] = write;
            kept
        }
        None => {
            log[kept] = write;
            kept + 1
        }
    }
}

// Each word once, with its last value, in front. How many these are.
fn keep_last(log: &mut [WordWrite]) -> usize
    ensures last { take result log.new ≡ last_writes log.old }
    ensures few { result ≤ length log.old }
{
    let mut kept = 0;
    for next in 0..log.len() {
        kept = keep(log, kept, next);
    }
    kept
}

fn last_of_each(mut log: Vec<WordWrite>) -> List<WordWrite>
    ensures { result ≡ last_writes log.items }
{
    let kept = keep_last(&mut log);
    log.truncate(kept);
    List::from(log)
}

impl<R: Reads> Draft<R> {
    ghost use Rattle.std.specs.Prelude.{◌≡◌, ℕ, [], IsTrue};
    ghost use Rattle.lane_traits.specs.Space.{Space, IsDataWordOf};
    ghost use Rattle.lane_traits.specs.Draft.{of_structure, drafted, AreSetAside, IsChange, last_writes};
    ghost use Rattle.lane_traits.specs.Drafts.{writes_made, gives_made};

    /// A draft for a structure. The spare blocks were taken for it already: the draft can take them, and until then they are
    /// nobody's.
    pub fn new(alloc: Global, base: R, structure: u32, spare: List<u32>) -> Self
        requires set_aside { AreSetAside (of_structure structure (R.space base).land) spare }
        requires can_read { (a : ℕ) → IsDataWordOf (of_structure structure (R.space base).land) a → IsTrue (R.readable base a) }
        ensures space { ⟦<Draft<R> as Reads>⟧.space result ≡ drafted structure [] [] spare (R.space base) }
        ensures writes { writes_made result ≡ [] }
        ensures gives { gives_made result ≡ [] }
    {
        Draft {
            base,
            structure,
            log: Vec::new(alloc),
            gives: List::new(alloc),
            spare,
        }
    }
}

impl<R: Reads + Drop> Draft<R> {
    ghost use Rattle.std.specs.Prelude.{◌≡◌};
    ghost use Rattle.lane_traits.specs.Space.{Space};
    ghost use Rattle.lane_traits.specs.Draft.{IsChange, last_writes};
    ghost use Rattle.lane_traits.specs.Drafts.{writes_made, gives_made};

    /// What it would change. It takes no memory.
    pub fn finish(self) -> Drafted
        ensures writes { result.writes ≡ last_writes (writes_made self) }
        ensures gives { result.gives ≡ gives_made self }
        ensures spare { result.spare ≡ (⟦<Draft<R> as Reads>⟧.space self).spare }
        ensures change { IsChange (⟦<Draft<R> as Reads>⟧.space self) result.writes result.gives }
    {
        let Draft {
            log,
            gives,
            spare,
            ..
        } = self;
        Drafted {
            writes: last_of_each(log),
            gives,
            spare,
        }
    }
}

impl<R: Reads> Reads for Draft<R> {
    ghost use Rattle.std.specs.Prelude.{◌≡◌, IsTrue};
    ghost use Rattle.lane_traits.specs.Draft.{drafted};
    ghost use Rattle.lane_traits.specs.Drafts.{writes_made, gives_made};

    ghost space = { λ d. drafted d.structure d.log.items d.gives d.spare (R.space d.base) };

    ghost readable = { λ d. R.readable d.base };

    fn read(&mut self, a: u32) -> u64
        requires { IsTrue (⟦<Draft<R> as Reads>⟧.readable self.old a) }
        ensures value { result ≡ (⟦<Draft<R> as Reads>⟧.space self.old).word a }
        ensures same { ⟦<Draft<R> as Reads>⟧.space self.new ≡ ⟦<Draft<R> as Reads>⟧.space self.old }
        ensures readable { ⟦<Draft<R> as Reads>⟧.readable self.new ≡ ⟦<Draft<R> as Reads>⟧.readable self.old }
        ensures writes { writes_made self.new ≡ writes_made self.old }
        ensures gives { gives_made self.new ≡ gives_made self.old }
    {
        match latest(&self.log, a) {
            Some(value) => value,
            None => self.base.read(a),
        }
    }
}

impl<R: Reads> Words for Draft<R> {
    ghost use Rattle.std.specs.Prelude.{◌≡◌, ◌≢◌, ◌↔◌, ◌∷◌, ◌++◌, [], OnOk, OnErr, IfOk, Err};
    ghost use Rattle.lane_traits.specs.Space.{Space, IsDataWordOf, IsOwn, IsTaken, root_block, written, given};
    ghost use Rattle.lane_traits.specs.Drafts.{writes_made, gives_made};
    ghost use Rattle.lane_traits.specs.DraftLaws.{data_below, are_spare};

    fn write(&mut self, a: u32, v: u64) -> Result<(), WordsRefusal>
        requires { IsDataWordOf (⟦<Draft<R> as Reads>⟧.space self.old).land a }
        ensures made { OnOk result (⟦<Draft<R> as Reads>⟧.space self.new ≡ written a v (⟦<Draft<R> as Reads>⟧.space self.old)) }
        ensures refused { OnErr result (⟦<Draft<R> as Reads>⟧.space self.new ≡ ⟦<Draft<R> as Reads>⟧.space self.old) }
        ensures memory { OnErr result (result ≡ Err WordsRefusal.NoMemory) }
        ensures last { OnOk result (writes_made self.new ≡ writes_made self.old ++ record { address = a; value = v } ∷ []) }
        ensures gives { gives_made self.new ≡ gives_made self.old }
    {
        match self.log.push(WordWrite {
            address: a,
            value: v,
        }) {
            Ok(()) => Ok(()),
            Err(_) => Err(WordsRefusal::NoMemory),
        }
    }

    fn take(&mut self) -> Result<u32, WordsRefusal>
        ensures full { (result ≡ Err WordsRefusal.HeapFull) ↔ ((⟦<Draft<R> as Reads>⟧.space self.old).spare ≡ []) }
        ensures taken { IfOk result (λ b. IsTaken (⟦<Draft<R> as Reads>⟧.space self.old) b (⟦<Draft<R> as Reads>⟧.space self.new)) }
        ensures refused { OnErr result (⟦<Draft<R> as Reads>⟧.space self.new ≡ ⟦<Draft<R> as Reads>⟧.space self.old) }
        ensures only_full { OnErr result (result ≡ Err WordsRefusal.HeapFull) }
        ensures writes { writes_made self.new ≡ writes_made self.old }
        ensures gives { gives_made self.new ≡ gives_made self.old }
    {
        match self.spare.pop() {
            Some(block) => Ok(block),
            None => Err(WordsRefusal::HeapFull),
        }
    }

    fn give(&mut self, block: u32) -> Result<(), WordsRefusal>
        requires own { IsOwn (⟦<Draft<R> as Reads>⟧.space self.old).land block }
        requires not_root { block ≢ root_block (⟦<Draft<R> as Reads>⟧.space self.old).land }
        ensures given { OnOk result (⟦<Draft<R> as Reads>⟧.space self.new ≡ given block (⟦<Draft<R> as Reads>⟧.space self.old)) }
        ensures refused { OnErr result (⟦<Draft<R> as Reads>⟧.space self.new ≡ ⟦<Draft<R> as Reads>⟧.space self.old) }
        ensures memory { OnErr result (result ≡ Err WordsRefusal.NoMemory) }
        ensures last { OnOk result (gives_made self.new ≡ gives_made self.old ++ block ∷ []) }
        ensures writes { writes_made self.new ≡ writes_made self.old }
    {
        match self.gives.push(block) {
            Ok(()) => Ok(()),
            Err(_) => Err(WordsRefusal::NoMemory),
        }
    }

    ghost own_readable = { λ d a held. d.can_read a (data_below (R.space d.base) d.structure d.log.items d.gives d.spare a held) };

    ghost spare_apart = { λ d. are_spare (R.space d.base) d.structure d.log.items d.gives d.spare d.own_spare d.spare_once };
}
