//! Whole calls, from the ask to the answer.
ghost use Rattle.std.specs.Prelude.{◌≡◌, ◌<◌, length};
ghost use Rattle.lane_book.specs.Books.{IsBook};

use crate::asks::{
    ask_abort, ask_batch, ask_begin, ask_checkpoint, ask_commit, ask_give, ask_read, ask_return,
    ask_save, ask_take, ask_write,
};
use crate::deed::Nothing;
use crate::start::small;
use crate::stores::{
    aborted, batched, begin, checkpointed, commit_at_once, committed, given, join, read, returned,
    save, store_compensation, store_deletion, store_end, store_group, store_rollback, store_update,
    store_word, take_back, taken, written,
};
use lane_book::Book;
use lane_types::Stepped;
use persist_model::NoMemory;
use std::alloc::Global;
use std::process::Abort;

/// A call with all of its steps.
#[derive(Clone, Copy, Debug)]
pub enum Turn {
    Begin(u8),
    /// The word, and its value.
    Read(u32, u64),
    Write(u32, u64),
    /// A batch of two writes, of this word and the next.
    Batch(u32),
    /// The structure, and the block that was picked.
    Take(u32, u32),
    Give(u32),
    Savepoint,
    /// The savepoint, and how many writes were made since.
    Back(u64, u32),
    /// A commit that has records.
    Commit,
    /// A commit that has none.
    ReadOnly,
    /// How many writes were made.
    Abort(u32),
    Checkpoint,
}

pub fn begins(
    book: &mut Book<Nothing>,
    rt: &impl Abort,
    lane: u32,
    set: u8,
) -> Result<Stepped, NoMemory>
    requires { IsBook book.old }
    ensures { IsBook book.new }
{
    ask_begin(book, rt, lane, set)?;
    Ok(begin(book, rt, lane, set))
}

fn reads(
    book: &mut Book<Nothing>,
    rt: &impl Abort,
    lane: u32,
    a: u32,
    value: u64,
) -> Result<Stepped, NoMemory>
    requires { IsBook book.old }
    ensures { IsBook book.new }
{
    ask_read(book, rt, lane, a)?;
    Ok(read(book, rt, lane, a, value))
}

fn writes(
    book: &mut Book<Nothing>,
    rt: &impl Abort,
    lane: u32,
    a: u32,
    v: u64,
) -> Result<Stepped, NoMemory>
    requires { IsBook book.old }
    ensures { IsBook book.new }
{
    ask_write(book, rt, lane, a, v)?;
    store_update(book, rt, lane, a, v);
    Ok(written(book, rt, lane, a, v))
}

fn batches(
    book: &mut Book<Nothing>,
    rt: &impl Abort,
    alloc: Global,
    lane: u32,
    a: u32,
) -> Result<Stepped, NoMemory>
    requires { IsBook book.old }
    ensures { IsBook book.new }
{
    assert!(rt; a < 1000);
    ask_batch(book, rt, alloc, lane, a)?;
    store_group(book, rt, lane, a);
    store_word(book, rt, lane);
    Ok(batched(book, rt, lane))
}

fn takes(
    book: &mut Book<Nothing>,
    rt: &impl Abort,
    lane: u32,
    structure: u32,
    block: u32,
) -> Result<Stepped, NoMemory>
    requires { IsBook book.old }
    ensures { IsBook book.new }
{
    assert!(rt; structure < 8);
    assert!(rt; block < 16);
    ask_take(book, rt, lane, structure, block)?;
    let a = small().block(block);
    store_update(book, rt, lane, a, u64::from(structure) + 1);
    Ok(taken(book, rt, lane, structure, block, a))
}

fn gives(
    book: &mut Book<Nothing>,
    rt: &impl Abort,
    lane: u32,
    block: u32,
) -> Result<Stepped, NoMemory>
    requires { IsBook book.old }
    ensures { IsBook book.new }
{
    ask_give(book, rt, lane, block)?;
    store_deletion(book, rt, lane);
    Ok(given(book, rt, lane, block))
}

fn saves(book: &mut Book<Nothing>, rt: &impl Abort, lane: u32) -> Result<Stepped, NoMemory>
    requires { IsBook book.old }
    ensures { IsBook book.new }
{
    ask_save(book, rt, lane)?;
    Ok(save(book, rt, lane))
}

/// The last writes are taken back, so many.
pub fn undo(book: &mut Book<Nothing>, rt: &impl Abort, lane: u32, count: u32)
    requires { IsBook book.old }
    ensures { IsBook book.new }
{
    for _ in 0..count {
        store_compensation(book, rt, lane);
        take_back(book, rt, lane);
    }
}

fn returns_to(
    book: &mut Book<Nothing>,
    rt: &impl Abort,
    lane: u32,
    n: u64,
    count: u32,
) -> Result<Stepped, NoMemory>
    requires { IsBook book.old }
    ensures { IsBook book.new }
{
    ask_return(book, rt, lane, n)?;
    undo(book, rt, lane, count);
    Ok(returned(book, rt, lane, n))
}

fn commits(
    book: &mut Book<Nothing>,
    rt: &impl Abort,
    alloc: Global,
    lane: u32,
) -> Result<Stepped, NoMemory>
    requires { IsBook book.old }
    ensures { IsBook book.new }
{
    ask_commit(book, rt, alloc, lane)?;
    store_end(book, rt, lane);
    join(book, rt, lane);
    Ok(committed(book, rt, lane))
}

fn commits_at_once(
    book: &mut Book<Nothing>,
    rt: &impl Abort,
    alloc: Global,
    lane: u32,
) -> Result<Stepped, NoMemory>
    requires { IsBook book.old }
    ensures { IsBook book.new }
{
    ask_commit(book, rt, alloc, lane)?;
    Ok(commit_at_once(book, rt, lane))
}

fn aborts(
    book: &mut Book<Nothing>,
    rt: &impl Abort,
    lane: u32,
    count: u32,
) -> Result<Stepped, NoMemory>
    requires { IsBook book.old }
    ensures { IsBook book.new }
{
    ask_abort(book, rt, lane)?;
    store_rollback(book, rt, lane);
    undo(book, rt, lane, count);
    store_end(book, rt, lane);
    Ok(aborted(book, rt, lane))
}

fn checkpoints(book: &mut Book<Nothing>, rt: &impl Abort, lane: u32) -> Result<Stepped, NoMemory>
    requires { IsBook book.old }
    ensures { IsBook book.new }
{
    ask_checkpoint(book, rt, lane)?;
    Ok(checkpointed(book, rt, lane))
}

/// Makes the call, and gives its last answer.
pub fn make(
    book: &mut Book<Nothing>,
    rt: &impl Abort,
    alloc: Global,
    lane: u32,
    turn: Turn,
) -> Result<Stepped, NoMemory>
    requires { IsBook book.old }
    ensures { IsBook book.new }
{
    match turn {
        Turn::Begin(set) => begins(book, rt, lane, set),
        Turn::Read(a, value) => reads(book, rt, lane, a, value),
        Turn::Write(a, v) => writes(book, rt, lane, a, v),
        Turn::Batch(a) => batches(book, rt, alloc, lane, a),
        Turn::Take(structure, block) => takes(book, rt, lane, structure, block),
        Turn::Give(block) => gives(book, rt, lane, block),
        Turn::Savepoint => saves(book, rt, lane),
        Turn::Back(n, count) => returns_to(book, rt, lane, n, count),
        Turn::Commit => commits(book, rt, alloc, lane),
        Turn::ReadOnly => commits_at_once(book, rt, alloc, lane),
        Turn::Abort(count) => aborts(book, rt, lane, count),
        Turn::Checkpoint => checkpoints(book, rt, lane),
    }
}
