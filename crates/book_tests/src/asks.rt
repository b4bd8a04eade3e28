//! Asks that the book accepts.
ghost use Rattle.std.specs.Prelude.{◌≡◌, ◌+◌, ◌<◌, ◌≤◌, ◌∷◌, [], ℕ, length, OnOk};
ghost use Rattle.lane_types.specs.Asks.{wanted};
ghost use Rattle.lane_types.specs.declared.call.Call.TheVariants as Call;
ghost use Rattle.lane_book.specs.declared.lane.Doing.TheVariants as Doing;
ghost use Rattle.lane_book.specs.FacesOf.{lane_at};
ghost use Rattle.lane_book.specs.Books.{IsBook};
ghost use Rattle.lane_book.specs.Lanes.{has_room};
ghost use Rattle.lane_book.specs.Steps.{IsPlain};

use crate::deed::Nothing;
use crate::guards::{expect_begun, expect_free};
use crate::start::small;
use lane_book::{Book, Doing};
use lane_traits::WordWrite;
use lane_types::{Call, Phase};
use persist_model::{List, NoMemory};
use std::alloc::Global;
use std::process::Abort;

/// A write of 7.
pub fn write(address: u32) -> WordWrite {
    WordWrite { address, value: 7 }
}

fn ask_plain(
    book: &mut Book<Nothing>,
    rt: &impl Abort,
    lane: u32,
    call: &Call<Nothing>,
    doing: Doing,
    phase: Phase,
) -> Result<(), NoMemory>
    requires book { IsBook book.old }
    requires plain { IsPlain call.now doing }
    requires phase { phase ≡ wanted call.now }
    ensures book { IsBook book.new }
{
    expect_free(book, rt, lane, phase);
    book.ask_plain(lane, call, doing)
}

pub fn ask_begin(
    book: &mut Book<Nothing>,
    rt: &impl Abort,
    lane: u32,
    set: u8,
) -> Result<(), NoMemory>
    requires { IsBook book.old }
    ensures { IsBook book.new }
{
    let call: Call<Nothing> = Call::Begin(set);
    ask_plain(book, rt, lane, &call, Doing::Begin(set), Phase::Out)
}

pub fn ask_read(
    book: &mut Book<Nothing>,
    rt: &impl Abort,
    lane: u32,
    a: u32,
) -> Result<(), NoMemory>
    requires { IsBook book.old }
    ensures { IsBook book.new }
{
    let call: Call<Nothing> = Call::Read(a);
    ask_plain(book, rt, lane, &call, Doing::Read(a), Phase::In)
}

pub fn ask_abort(book: &mut Book<Nothing>, rt: &impl Abort, lane: u32) -> Result<(), NoMemory>
    requires { IsBook book.old }
    ensures { IsBook book.new }
{
    let call: Call<Nothing> = Call::Abort;
    ask_plain(book, rt, lane, &call, Doing::Abort, Phase::In)
}

pub fn ask_checkpoint(book: &mut Book<Nothing>, rt: &impl Abort, lane: u32) -> Result<(), NoMemory>
    requires { IsBook book.old }
    ensures { IsBook book.new }
{
    let call: Call<Nothing> = Call::Checkpoint;
    ask_plain(book, rt, lane, &call, Doing::Checkpoint, Phase::Out)
}

pub fn ask_return(
    book: &mut Book<Nothing>,
    rt: &impl Abort,
    lane: u32,
    n: u64,
) -> Result<(), NoMemory>
    requires { IsBook book.old }
    ensures { IsBook book.new }
{
    let call: Call<Nothing> = Call::RollbackTo(n);
    ask_plain(book, rt, lane, &call, Doing::RollbackTo(n), Phase::In)
}

/// A savepoint, for which there is room then.
pub fn ask_save(book: &mut Book<Nothing>, rt: &impl Abort, lane: u32) -> Result<(), NoMemory>
    requires { IsBook book.old }
    ensures book { IsBook book.new }
    ensures room { OnOk result (has_room 1 (lane_at book.new lane).points) }
{
    expect_free(book, rt, lane, Phase::In);
    let call: Call<Nothing> = Call::Savepoint;
    book.ask_plain(lane, &call, Doing::Savepoint)
}

/// A write, with room for its update then.
pub fn ask_write(
    book: &mut Book<Nothing>,
    rt: &impl Abort,
    lane: u32,
    a: u32,
    v: u64,
) -> Result<(), NoMemory>
    requires { IsBook book.old }
    ensures book { IsBook book.new }
    ensures room { OnOk result (has_room 1 (lane_at book.new lane).updates) }
{
    expect_free(book, rt, lane, Phase::In);
    book.ask_write(lane, a, v)
}

/// A take of this block, with room for its update then.
pub fn ask_take(
    book: &mut Book<Nothing>,
    rt: &impl Abort,
    lane: u32,
    structure: u32,
    block: u32,
) -> Result<(), NoMemory>
    requires { IsBook book.old }
    ensures book { IsBook book.new }
    ensures room { OnOk result (has_room 1 (lane_at book.new lane).updates) }
{
    expect_free(book, rt, lane, Phase::In);
    assert!(rt; structure < 8);
    assert!(rt; block < 16);
    assert!(rt; book.blocks.len() == 16);
    let a = small().block(block);
    book.ask_take(lane, structure, block, a)
}

/// A give, with room for its deletion then.
pub fn ask_give(
    book: &mut Book<Nothing>,
    rt: &impl Abort,
    lane: u32,
    block: u32,
) -> Result<(), NoMemory>
    requires { IsBook book.old }
    ensures book { IsBook book.new }
    ensures room { OnOk result (has_room 1 (lane_at book.new lane).gates) }
{
    expect_free(book, rt, lane, Phase::In);
    book.ask_give(lane, block)
}

/// A commit of a transaction, with room for its entry in the history then.
pub fn ask_commit(
    book: &mut Book<Nothing>,
    rt: &impl Abort,
    alloc: Global,
    lane: u32,
) -> Result<(), NoMemory>
    requires { IsBook book.old }
    ensures room { OnOk result (length book.new.history.items < book.new.history.capacity) }
    ensures book { IsBook book.new }
{
    expect_free(book, rt, lane, Phase::In);
    expect_begun(book, rt, lane);
    let writes = book.entry_writes(alloc, small(), lane)?;
    book.ask_commit(lane, Nothing, writes);
    Ok(())
}

/// A batch of two writes, of this word and the next, with room for their updates then.
pub fn ask_batch(
    book: &mut Book<Nothing>,
    rt: &impl Abort,
    alloc: Global,
    lane: u32,
    a: u32,
) -> Result<(), NoMemory>
    requires book { IsBook book.old }
    requires small { a < 1000 }
    ensures book { IsBook book.new }
    ensures room { OnOk result (has_room 2 (lane_at book.new lane).updates) }
{
    expect_free(book, rt, lane, Phase::In);
    let pair = [write(a), write(a + 1)];
    let mut list = List::new(alloc);
    list.extend_from_slice(&pair)?;
    let call: Call<Nothing> = Call::Batch(list);
    book.ask_batch(lane, &call, &pair, 1)
}
