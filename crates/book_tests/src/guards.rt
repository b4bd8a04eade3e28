//! What is looked at before a call of the book. Each guard panics where its fact doesn't hold.
ghost use Rattle.std.specs.Prelude.{◌≡◌, ◌+◌, ◌<◌, ◌≤◌, ℕ, length, IsTrue};
ghost use Rattle.std.specs.List.{list_any};
ghost use Rattle.lane_types.specs.declared.call.Phase.TheVariants as Phase;
ghost use Rattle.lane_book.specs.FacesOf.{lane_at, is_of};
ghost use Rattle.lane_book.specs.Books.{IsBook};
ghost use Rattle.lane_book.specs.Calls.{IsCalling, IsDoing};
ghost use Rattle.lane_book.specs.Appends.{CanEnd, CanRollBack, CanCompensate};
ghost use Rattle.lane_book.specs.Steps.{HasEntry, AreStored, HasEntered, IsNextStored};
ghost use Rattle.book_tests.specs.Guarded.{IsFree, IsSmall, IsOut, MayCommit, MayReturn, MayUpdate, MayGroup, MayDelete, MayTakeBack};

use crate::deed::Nothing;
use lane_book::{Book, Doing, Lane};
use lane_types::{Entry, Phase};
use std::process::Abort;

fn is_free(book: &Book<Nothing>, lane: u32, phase: Phase) -> bool
    ensures { IsTrue result → IsFree phase book.now lane }
{
    if lane as usize >= book.lanes.len() {
        return false;
    }
    book.face(lane).phase == phase && book.doing(lane) == Doing::Nothing
}

/// The lane is in this phase, and no call is in progress.
pub fn expect_free(book: &Book<Nothing>, rt: &impl Abort, lane: u32, phase: Phase)
    ensures { IsFree phase book.now lane }
{
    if !is_free(book, lane, phase) {
        panic!(rt; "the lane isn't free");
    }
}

fn does(book: &Book<Nothing>, lane: u32, doing: Doing) -> bool
    requires { IsBook book.now }
    ensures { IsTrue result → IsDoing doing book.now lane }
{
    if lane as usize >= book.lanes.len() {
        return false;
    }
    book.face(lane).phase == Phase::Calling && book.doing(lane) == doing
}

/// This is the lane's call in progress.
pub fn expect(book: &Book<Nothing>, rt: &impl Abort, lane: u32, doing: Doing)
    requires { IsBook book.now }
    ensures { IsDoing doing book.now lane }
{
    if !does(book, lane, doing) {
        panic!(rt; "another call");
    }
}

/// The lane, as the book has it.
fn lane_of(book: &Book<Nothing>, lane: u32) -> &Lane<Nothing>
    requires { lane < length book.now.lanes.items }
    ensures { result.now ≡ lane_at book.now lane }
{
    &book.lanes[lane as usize]
}

fn is_small(lane: &Lane<Nothing>) -> bool
    ensures { IsTrue result → IsSmall lane.now }
{
    lane.begun < 1000 && lane.commits < 1000 && lane.stored < 1000
}

/// The lane's counts are far from their greatest numbers.
pub fn expect_small(book: &Book<Nothing>, rt: &impl Abort, lane: u32)
    requires { lane < length book.now.lanes.items }
    ensures { IsSmall (lane_at book.now lane) }
{
    if !is_small(lane_of(book, lane)) {
        panic!(rt; "great counts");
    }
}

fn may_end(lane: &Lane<Nothing>) -> bool
    ensures { IsTrue result → CanEnd lane.now }
{
    if !lane.has_records || lane.ended {
        return false;
    }
    matches!(lane.doing, Doing::Commit | Doing::Abort)
}

/// The lane's end may be stored.
pub fn expect_end(book: &Book<Nothing>, rt: &impl Abort, lane: u32)
    requires { lane < length book.now.lanes.items }
    ensures { CanEnd (lane_at book.now lane) }
{
    if !may_end(lane_of(book, lane)) {
        panic!(rt; "no end");
    }
}

fn may_roll_back(lane: &Lane<Nothing>) -> bool
    ensures { IsTrue result → CanRollBack lane.now }
{
    if !lane.has_records || lane.ended || lane.rolled {
        return false;
    }
    matches!(lane.doing, Doing::Abort)
}

/// The lane's rollback record may be stored.
pub fn expect_rollback(book: &Book<Nothing>, rt: &impl Abort, lane: u32)
    requires { lane < length book.now.lanes.items }
    ensures { CanRollBack (lane_at book.now lane) }
{
    if !may_roll_back(lane_of(book, lane)) {
        panic!(rt; "no rollback record");
    }
}

fn may_compensate(lane: &Lane<Nothing>) -> bool
    ensures { IsTrue result → CanCompensate lane.now }
{
    if !lane.has_records || lane.ended || lane.updates.len() == 0 {
        return false;
    }
    matches!(lane.doing, Doing::Abort | Doing::RollbackTo(_))
}

/// A compensation of the lane may be stored.
pub fn expect_compensation(book: &Book<Nothing>, rt: &impl Abort, lane: u32)
    requires { lane < length book.now.lanes.items }
    ensures { CanCompensate (lane_at book.now lane) }
{
    if !may_compensate(lane_of(book, lane)) {
        panic!(rt; "no update");
    }
}

fn is_next(lane: u32, begun: u64, entry: &Entry<Nothing>) -> bool
    ensures lane { IsTrue result → entry.now.lane ≡ lane }
    ensures next { IsTrue result → begun ≡ entry.now.number + 1 }
{
    entry.lane == lane && begun >= 1 && entry.number == begun - 1
}

fn has_entry(number: u32, lane: &Lane<Nothing>) -> bool
    ensures { IsTrue result → HasEntry number lane.now }
{
    if lane.entered {
        return false;
    }
    match &lane.entry {
        Some(entry) => is_next(number, lane.begun, entry),
        None => false,
    }
}

/// The entry of the lane's commit is its next.
pub fn expect_entry(book: &Book<Nothing>, rt: &impl Abort, lane: u32)
    requires { lane < length book.now.lanes.items }
    ensures { HasEntry lane (lane_at book.now lane) }
{
    if !has_entry(lane, lane_of(book, lane)) {
        panic!(rt; "no entry");
    }
}

fn may_commit(lane: &Lane<Nothing>) -> bool
    ensures { IsTrue result → MayCommit lane.now }
{
    let gives = lane.gives.as_slice();
    for k in 0..gives.len() {
        if gives[k] >= 16 {
            return false;
        }
    }
    lane.begun >= 1
}

/// The lane has begun a transaction, and its given blocks are the heap's.
pub fn expect_begun(book: &Book<Nothing>, rt: &impl Abort, lane: u32)
    requires { lane < length book.now.lanes.items }
    ensures { MayCommit (lane_at book.now lane) }
{
    if !may_commit(lane_of(book, lane)) {
        panic!(rt; "not begun");
    }
}

fn are_stored(lane: &Lane<Nothing>) -> bool
    ensures { IsTrue result → AreStored lane.now }
{
    lane.stored == lane.writes.len() as u64
}

/// All of the lane's writes are stored.
pub fn expect_stored(book: &Book<Nothing>, rt: &impl Abort, lane: u32)
    requires { lane < length book.now.lanes.items }
    ensures { AreStored (lane_at book.now lane) }
{
    if !are_stored(lane_of(book, lane)) {
        panic!(rt; "a write waits");
    }
}

fn may_return(n: u64, lane: &Lane<Nothing>) -> bool
    ensures { IsTrue result → MayReturn n lane.now }
{
    let points = lane.points.as_slice();
    if n >= points.len() as u64 {
        return false;
    }
    lane.stored == points[n as usize].writes
}

/// Just the writes of the savepoint are stored.
pub fn expect_return(book: &Book<Nothing>, rt: &impl Abort, lane: u32, n: u64)
    requires { lane < length book.now.lanes.items }
    ensures { MayReturn n (lane_at book.now lane) }
{
    if !may_return(n, lane_of(book, lane)) {
        panic!(rt; "not at the savepoint");
    }
}

fn is_calling(book: &Book<Nothing>, lane: u32) -> bool
    requires { IsBook book.now }
    ensures { IsTrue result → IsCalling book.now lane }
{
    if lane as usize >= book.lanes.len() {
        return false;
    }
    book.face(lane).phase == Phase::Calling
}

/// The lane has a call in progress.
pub fn expect_calling(book: &Book<Nothing>, rt: &impl Abort, lane: u32)
    requires { IsBook book.now }
    ensures { IsCalling book.now lane }
{
    if !is_calling(book, lane) {
        panic!(rt; "no call");
    }
}

fn may_update(lane: &Lane<Nothing>) -> bool
    ensures { IsTrue result → MayUpdate lane.now }
{
    if lane.promised < 2 {
        return false;
    }
    matches!(lane.doing, Doing::Write(_, _) | Doing::Take(_, _))
}

/// An update of the lane may be stored, where there is room for it.
pub fn expect_update(book: &Book<Nothing>, rt: &impl Abort, lane: u32)
    requires { lane < length book.now.lanes.items }
    ensures { MayUpdate (lane_at book.now lane) }
{
    if !may_update(lane_of(book, lane)) {
        panic!(rt; "no write");
    }
}

fn may_group(lane: &Lane<Nothing>) -> bool
    ensures { IsTrue result → MayGroup lane.now }
{
    if lane.promised < 5 {
        return false;
    }
    matches!(lane.doing, Doing::Batch(_))
}

/// A group of two updates of the lane may be stored, where there is room for them, and a cell more is promised.
pub fn expect_group(book: &Book<Nothing>, rt: &impl Abort, lane: u32)
    requires { lane < length book.now.lanes.items }
    ensures { MayGroup (lane_at book.now lane) }
{
    if !may_group(lane_of(book, lane)) {
        panic!(rt; "no batch");
    }
}

fn is_waiting(lane: &Lane<Nothing>) -> bool
    ensures { IsTrue result → lane.now.stored < length lane.now.writes.items }
{
    lane.stored < lane.writes.len() as u64
}

/// A write of the lane isn't stored.
pub fn expect_waiting(book: &Book<Nothing>, rt: &impl Abort, lane: u32)
    requires { lane < length book.now.lanes.items }
    ensures { (lane_at book.now lane).stored < length (lane_at book.now lane).writes.items }
{
    if !is_waiting(lane_of(book, lane)) {
        panic!(rt; "no write waits");
    }
}

fn may_delete(lane: &Lane<Nothing>) -> bool
    ensures { IsTrue result → MayDelete lane.now }
{
    if lane.promised < 1 {
        return false;
    }
    matches!(lane.doing, Doing::Give(_))
}

/// A deletion of the lane may be stored, where there is room for its gate.
pub fn expect_deletion(book: &Book<Nothing>, rt: &impl Abort, lane: u32)
    requires { lane < length book.now.lanes.items }
    ensures { MayDelete (lane_at book.now lane) }
{
    if !may_delete(lane_of(book, lane)) {
        panic!(rt; "no give");
    }
}

fn may_take_back(lane: &Lane<Nothing>) -> bool
    ensures { IsTrue result → MayTakeBack lane.now }
{
    if lane.stored == 0 {
        return false;
    }
    matches!(lane.doing, Doing::Abort | Doing::RollbackTo(_))
}

/// A word of the lane may be taken back.
pub fn expect_undoing(book: &Book<Nothing>, rt: &impl Abort, lane: u32)
    requires { lane < length book.now.lanes.items }
    ensures { MayTakeBack (lane_at book.now lane) }
{
    if !may_take_back(lane_of(book, lane)) {
        panic!(rt; "no word");
    }
}

fn is_last(a: u32, v: u64, lane: &Lane<Nothing>) -> bool
    ensures { IsTrue result → IsNextStored lane.now (record { address = a; value = v }) }
{
    let writes = lane.writes.as_slice();
    let count = writes.len();
    if count == 0 || lane.stored != count as u64 - 1 {
        return false;
    }
    writes[count - 1].address == a && writes[count - 1].value == v
}

/// This is the lane's last write, and it alone isn't stored.
pub fn expect_last(book: &Book<Nothing>, rt: &impl Abort, lane: u32, a: u32, v: u64)
    requires { lane < length book.now.lanes.items }
    ensures { IsNextStored (lane_at book.now lane) (record { address = a; value = v }) }
{
    if !is_last(a, v, lane_of(book, lane)) {
        panic!(rt; "another write");
    }
}

fn is_out(lane: &Lane<Nothing>) -> bool
    ensures { IsTrue result → IsOut lane.now }
{
    lane.entered && lane.entry.is_none()
}

fn has_joined(entries: &[Entry<Nothing>], lane: u32) -> bool
    ensures { result ≡ list_any (is_of lane) entries.now }
{
    entries.iter().any(|entry| entry.lane == lane)
}

/// The entry of the lane's commit has joined the history.
pub fn expect_joined(book: &Book<Nothing>, rt: &impl Abort, lane: u32)
    requires { lane < length book.now.lanes.items }
    ensures { HasEntered book.now lane }
{
    if !is_out(lane_of(book, lane)) {
        panic!(rt; "not joined");
    }
    if !has_joined(book.history(), lane) {
        panic!(rt; "no entry in the history");
    }
}

fn owes_event(lane: &Lane<Nothing>) -> bool
    ensures { IsTrue result → 1 ≤ lane.now.owed_events }
{
    lane.owed_events >= 1
}

/// The lane owes an event.
pub fn expect_owed_event(book: &Book<Nothing>, rt: &impl Abort, lane: u32)
    requires { lane < length book.now.lanes.items }
    ensures { 1 ≤ (lane_at book.now lane).owed_events }
{
    if !owes_event(lane_of(book, lane)) {
        panic!(rt; "no event is owed");
    }
}

fn owes_record(lane: &Lane<Nothing>) -> bool
    ensures { IsTrue result → 1 ≤ lane.now.owed_records }
{
    lane.owed_records >= 1
}

/// The lane owes a record.
pub fn expect_owed_record(book: &Book<Nothing>, rt: &impl Abort, lane: u32)
    requires { lane < length book.now.lanes.items }
    ensures { 1 ≤ (lane_at book.now lane).owed_records }
{
    if !owes_record(lane_of(book, lane)) {
        panic!(rt; "no record is owed");
    }
}
