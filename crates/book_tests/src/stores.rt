//! Records and words of a call that come into the log and the heap, and the answers of calls.
ghost use Rattle.std.specs.Prelude.{◌≡◌, ◌+◌, ◌<◌, ◌≤◌, ℕ, length};
ghost use Rattle.lane_book.specs.FacesOf.{lane_at};
ghost use Rattle.lane_book.specs.Books.{IsBook};
ghost use Rattle.lane_book.specs.Lanes.{has_room};

use crate::deed::Nothing;
use crate::guards::{
    expect, expect_calling, expect_compensation, expect_deletion, expect_end, expect_entry,
    expect_group, expect_joined, expect_last, expect_return, expect_rollback, expect_small,
    expect_stored, expect_undoing, expect_update, expect_waiting,
};
use lane_book::{Book, Doing};
use lane_types::Stepped;
use region_layout::Cell;
use std::process::Abort;

fn update(a: u32, v: u64) -> Cell {
    Cell {
        lsn: 1,
        transaction: 1,
        kind: 1,
        word: u64::from(a),
        before: 0,
        after: v,
        undo_next: 0,
        outcome: 0,
    }
}

/// The update of a write or a take is in the log, for which there is room.
pub fn store_update(book: &mut Book<Nothing>, rt: &impl Abort, lane: u32, a: u32, v: u64)
    requires book { IsBook book.old }
    requires room { has_room 1 (lane_at book.old lane).updates }
    ensures { IsBook book.new }
{
    expect_calling(book, rt, lane);
    expect_update(book, rt, lane);
    book.update_stored(lane, update(a, v), 1);
}

/// The updates of a batch of two writes are in the log, for which there is room, and a cell more is let go.
pub fn store_group(book: &mut Book<Nothing>, rt: &impl Abort, lane: u32, a: u32)
    requires book { IsBook book.old }
    requires room { has_room 2 (lane_at book.old lane).updates }
    requires small { a < 1000 }
    ensures { IsBook book.new }
{
    expect_calling(book, rt, lane);
    expect_group(book, rt, lane);
    book.group_stored(lane, &[update(a, 7), update(a + 1, 7)], 1, 8);
}

/// The next word of a batch of two writes is stored.
pub fn store_word(book: &mut Book<Nothing>, rt: &impl Abort, lane: u32)
    requires { IsBook book.old }
    ensures { IsBook book.new }
{
    expect(book, rt, lane, Doing::Batch(2));
    expect_small(book, rt, lane);
    expect_waiting(book, rt, lane);
    book.word_stored(lane, 2, None, 9);
}

/// The deletion of a give is in the log, for which there is room.
pub fn store_deletion(book: &mut Book<Nothing>, rt: &impl Abort, lane: u32)
    requires book { IsBook book.old }
    requires room { has_room 1 (lane_at book.old lane).gates }
    ensures { IsBook book.new }
{
    expect_calling(book, rt, lane);
    expect_deletion(book, rt, lane);
    book.deletion_stored(lane, 40, 2);
}

/// The end of a commit or an abort is in the log.
pub fn store_end(book: &mut Book<Nothing>, rt: &impl Abort, lane: u32)
    requires { IsBook book.old }
    ensures history { book.new.history ≡ book.old.history }
    ensures book { IsBook book.new }
{
    expect_calling(book, rt, lane);
    expect_end(book, rt, lane);
    book.end_stored(lane, 3);
}

/// The rollback record of an abort is in the log.
pub fn store_rollback(book: &mut Book<Nothing>, rt: &impl Abort, lane: u32)
    requires { IsBook book.old }
    ensures { IsBook book.new }
{
    expect_calling(book, rt, lane);
    expect_rollback(book, rt, lane);
    book.rollback_stored(lane, 4);
}

/// The compensation of the lane's last update is in the log.
pub fn store_compensation(book: &mut Book<Nothing>, rt: &impl Abort, lane: u32)
    requires { IsBook book.old }
    ensures { IsBook book.new }
{
    expect_calling(book, rt, lane);
    expect_compensation(book, rt, lane);
    book.compensation_stored(lane, 5);
}

/// The word of the lane's last write is taken back.
pub fn take_back(book: &mut Book<Nothing>, rt: &impl Abort, lane: u32)
    requires { IsBook book.old }
    ensures { IsBook book.new }
{
    expect_calling(book, rt, lane);
    expect_undoing(book, rt, lane);
    book.word_taken_back(lane, None, 6);
}

pub fn read(book: &mut Book<Nothing>, rt: &impl Abort, lane: u32, a: u32, value: u64) -> Stepped
    requires { IsBook book.old }
    ensures { IsBook book.new }
{
    expect(book, rt, lane, Doing::Read(a));
    book.read(lane, a, value)
}

pub fn written(book: &mut Book<Nothing>, rt: &impl Abort, lane: u32, a: u32, v: u64) -> Stepped
    requires { IsBook book.old }
    ensures { IsBook book.new }
{
    expect(book, rt, lane, Doing::Write(a, v));
    expect_small(book, rt, lane);
    book.written(lane, a, v, Some(a))
}

/// A batch of two writes is answered.
pub fn batched(book: &mut Book<Nothing>, rt: &impl Abort, lane: u32) -> Stepped
    requires { IsBook book.old }
    ensures { IsBook book.new }
{
    expect(book, rt, lane, Doing::Batch(2));
    book.batched(lane, 2, None)
}

pub fn taken(
    book: &mut Book<Nothing>,
    rt: &impl Abort,
    lane: u32,
    structure: u32,
    block: u32,
    a: u32,
) -> Stepped
    requires { IsBook book.old }
    ensures { IsBook book.new }
{
    expect(book, rt, lane, Doing::Take(structure, block));
    expect_small(book, rt, lane);
    expect_last(book, rt, lane, a, u64::from(structure) + 1);
    book.taken(lane, structure, block, a)
}

pub fn given(book: &mut Book<Nothing>, rt: &impl Abort, lane: u32, block: u32) -> Stepped
    requires { IsBook book.old }
    ensures { IsBook book.new }
{
    expect(book, rt, lane, Doing::Give(block));
    book.given(lane, block)
}

/// A savepoint is made, for which there is room.
pub fn save(book: &mut Book<Nothing>, rt: &impl Abort, lane: u32) -> Stepped
    requires book { IsBook book.old }
    requires room { has_room 1 (lane_at book.old lane).points }
    ensures { IsBook book.new }
{
    expect(book, rt, lane, Doing::Savepoint);
    expect_stored(book, rt, lane);
    book.save(lane)
}

pub fn returned(book: &mut Book<Nothing>, rt: &impl Abort, lane: u32, n: u64) -> Stepped
    requires { IsBook book.old }
    ensures { IsBook book.new }
{
    expect(book, rt, lane, Doing::RollbackTo(n));
    expect_return(book, rt, lane, n);
    book.rolled_back(lane, n)
}

pub fn aborted(book: &mut Book<Nothing>, rt: &impl Abort, lane: u32) -> Stepped
    requires { IsBook book.old }
    ensures { IsBook book.new }
{
    expect(book, rt, lane, Doing::Abort);
    book.aborted(lane)
}

pub fn checkpointed(book: &mut Book<Nothing>, rt: &impl Abort, lane: u32) -> Stepped
    requires { IsBook book.old }
    ensures { IsBook book.new }
{
    expect(book, rt, lane, Doing::Checkpoint);
    book.checkpointed(lane)
}

/// The entry of the commit joins the history, which has room for it.
pub fn join(book: &mut Book<Nothing>, rt: &impl Abort, lane: u32)
    requires book { IsBook book.old }
    requires room { length book.old.history.items < book.old.history.capacity }
    ensures { IsBook book.new }
{
    expect(book, rt, lane, Doing::Commit);
    expect_small(book, rt, lane);
    expect_entry(book, rt, lane);
    book.join(lane, 7);
}

/// The entry of the commit joins the history, which has room for it, and the commit is answered.
pub fn commit_at_once(book: &mut Book<Nothing>, rt: &impl Abort, lane: u32) -> Stepped
    requires book { IsBook book.old }
    requires room { length book.old.history.items < book.old.history.capacity }
    ensures { IsBook book.new }
{
    expect(book, rt, lane, Doing::Commit);
    expect_small(book, rt, lane);
    expect_entry(book, rt, lane);
    book.commit(lane)
}

/// A commit is answered whose entry has joined.
pub fn committed(book: &mut Book<Nothing>, rt: &impl Abort, lane: u32) -> Stepped
    requires { IsBook book.old }
    ensures { IsBook book.new }
{
    expect(book, rt, lane, Doing::Commit);
    expect_joined(book, rt, lane);
    book.committed(lane)
}

/// A begin of the lane is tried.
pub fn begin(book: &mut Book<Nothing>, rt: &impl Abort, lane: u32, set: u8) -> Stepped
    requires { IsBook book.old }
    ensures { IsBook book.new }
{
    assert!(rt; book.lanes.len() <= 16);
    assert!(rt; book.next_transaction < 1000);
    expect(book, rt, lane, Doing::Begin(set));
    expect_small(book, rt, lane);
    book.begin(lane, set)
}
