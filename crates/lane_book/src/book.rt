ghost use Rattle.std.specs.Prelude.{◌≡◌, ◌≢◌, ◌+◌, ◌-◌, ◌<◌, ◌≤◌, ◌^◌, ◌==◌, ◌++◌, ◌∷◌, [], true, ℕ, length, IsNone, IfSome, IsTrue, OnOk, OnErr, IfErr, Some, None};
ghost use Rattle.std.specs.List.{range_with_len};
ghost use Rattle.lane_types.specs.declared.face.Entry.{Entry};
ghost use Rattle.lane_types.specs.Asks.{has_word, has_all};
ghost use Rattle.lane_book.specs.Lanes.{point_at, noted, closed, moved, stored_one, stored_all, rolled_back, left, saved, entered_lane, with_lane, with_history};
ghost use Rattle.lane_book.specs.FacesOf.{lane_at, plain_face, batch_of};
ghost use Rattle.lane_book.specs.Steps.{Steps, StepsIf, HasEntry, HasEntered, IsNextStored, AreStored, CanTake, held_by};
ghost use Rattle.lane_book.specs.Books.{IsBook};
ghost use Rattle.lane_book.specs.Calls.{IsCalling, IsDoing, Moves};
ghost use Rattle.lane_book.specs.declared.lane.Doing.TheVariants as Doing;

use crate::lane::{Doing, Lane};
use crate::stock::Stock;
use lane_types::{Deed, Entry, Face, Reply, Stepped, What};
use offset_alloc::Blocks;
use persist_model::List;

/// What a world keeps of its lanes. It has no device: each answer changes the faces as functions of the book.
#[derive(Drop)]
pub struct Book<E> {
    pub lanes: Vec<Lane<E>>,
    /// The commits, in order.
    pub history: Stock<Entry<E>>,
    /// Where the commits in flight are put when the book is finished.
    pub flight: Stock<Entry<E>>,
    /// Whose each block is.
    pub blocks: Blocks,
    /// What the deeds of all commits have in common.
    pub sorts: List<u64>,
    pub next_transaction: u64,
    /// A step of this world was answered `Stopped`.
    pub stopped: bool,
    /// The data word that the last step changed.
    pub touched: Option<u32>,
}

impl<E> Book<E> {
    pub fn doing(&self, lane: u32) -> Doing
        requires { lane < length self.now.lanes.items }
        ensures { result ≡ (lane_at self.now lane).doing }
    {
        self.lanes[lane as usize].doing
    }

    pub fn part(&self, lane: u32) -> u64
        requires { lane < length self.now.lanes.items }
        ensures { result ≡ (lane_at self.now lane).part }
    {
        self.lanes[lane as usize].part
    }

    pub fn face(&self, lane: u32) -> Face
        requires { lane < length self.now.lanes.items }
        ensures { result ≡ plain_face lane (lane_at self.now lane) }
    {
        let kept = &self.lanes[lane as usize];
        Face {
            lane,
            phase: kept.phase,
            held: kept.held,
            begun: kept.begun,
            commits: kept.commits,
            answer: kept.answer,
            tally: kept.tally,
            live: kept.points.len() as u64,
        }
    }
}

impl<E: Deed> Book<E> {
    // A step was answered so, and nothing else came of it.
    fn note(&mut self, lane: u32, answer: Stepped)
        requires { lane < length self.old.lanes.items }
        ensures { self.new ≡ with_lane self.old lane (noted answer (lane_at self.old lane)) None }
    {
        self.lanes[lane as usize].note(answer);
        self.touched = None;
    }

    // The call ends with this reply.
    fn close(&mut self, lane: u32, reply: Reply)
        requires { lane < length self.old.lanes.items }
        ensures { self.new ≡ with_lane self.old lane (closed reply (lane_at self.old lane)) None }
    {
        self.lanes[lane as usize].close(reply);
        self.touched = None;
    }

    // The transaction is over with this reply.
    fn leave(&mut self, lane: u32, reply: Reply)
        requires { lane < length self.old.lanes.items }
        ensures { self.new ≡ with_lane self.old lane (left reply (lane_at self.old lane)) None }
    {
        self.lanes[lane as usize].leave(reply);
        self.touched = None;
    }

    /// The lane has no call in progress.
    pub fn idle(&mut self, lane: u32) -> Stepped
        requires lane { lane < length self.old.lanes.items }
        requires doing { (lane_at self.old lane).doing ≡ Doing.Nothing }
        requires book { IsBook self.old }
        ensures is { self.new ≡ with_lane self.old lane (noted Stepped.Idle (lane_at self.old lane)) None }
        ensures step { Steps E.meaning self.old self.new lane result }
        ensures book { IsBook self.new }
        ensures result { result ≡ Stepped.Idle }
    {
        self.note(lane, Stepped::Idle);
        Stepped::Idle
    }

    /// The device has stopped.
    pub fn stop(&mut self, lane: u32) -> Stepped
        requires lane { lane < length self.old.lanes.items }
        requires book { IsBook self.old }
        ensures is { self.new ≡ record (with_lane self.old lane (noted Stepped.Stopped (lane_at self.old lane)) None) { stopped = true } }
        ensures step { Steps E.meaning self.old self.new lane result }
        ensures book { IsBook self.new }
        ensures result { result ≡ Stepped.Stopped }
    {
        self.note(lane, Stepped::Stopped);
        self.stopped = true;
        Stepped::Stopped
    }

    /// The call waits for what another lane holds.
    pub fn wait(&mut self, lane: u32, what: What, holder: u32) -> Stepped
        requires { IsCalling self.old lane }
        ensures moves { Moves E.meaning self.old self.new lane None result (noted (Stepped.Waiting what holder) (lane_at self.old lane)) }
        ensures result { result ≡ Stepped.Waiting what holder }
    {
        let answer = Stepped::Waiting { what, holder };
        self.note(lane, answer);
        answer
    }

    /// The call goes on at this part of its plan.
    pub fn go_on(&mut self, lane: u32, part: u64) -> Stepped
        requires { IsCalling self.old lane }
        ensures moves { Moves E.meaning self.old self.new lane None result (moved part (lane_at self.old lane)) }
        ensures result { result ≡ Stepped.Moved }
    {
        self.lanes[lane as usize].go_on(part);
        self.touched = None;
        Stepped::Moved
    }

    /// A read is answered with the word.
    pub fn read(&mut self, lane: u32, a: u32, value: u64) -> Stepped
        requires { IsDoing (Doing.Read a) self.old lane }
        ensures is { self.new ≡ with_lane self.old lane (closed (Reply.Word value) (lane_at self.old lane)) None }
        ensures step { StepsIf (λ base. (held_by base self.old lane).word a ≡ Some value)
            E.meaning self.old self.new lane result }
        ensures book { IsBook self.new }
        ensures result { result ≡ Stepped.Answered (Reply.Word value) }
    {
        let reply = Reply::Word(value);
        self.close(lane, reply);
        Stepped::Answered(reply)
    }

    // A write more is stored, and the call ends with this reply.
    fn store(&mut self, lane: u32, reply: Reply, touched: Option<u32>)
        requires lane { lane < length self.old.lanes.items }
        requires few { (lane_at self.old lane).stored < 2 ^ 62 }
        ensures { self.new ≡ with_lane self.old lane (closed reply (stored_one (lane_at self.old lane))) touched }
    {
        self.lanes[lane as usize].store(reply);
        self.touched = touched;
    }

    /// A write is answered, whose word is stored. `touched` is the word, where the value is another.
    pub fn written(&mut self, lane: u32, a: u32, v: u64, touched: Option<u32>) -> Stepped
        requires lane { IsDoing (Doing.Write a v) self.old lane }
        requires few { (lane_at self.old lane).stored < 2 ^ 62 }
        ensures is { self.new ≡ with_lane self.old lane (closed Reply.Written (stored_one (lane_at self.old lane))) touched }
        ensures step { StepsIf (λ base. has_word (held_by base self.old lane) a ≡ true) E.meaning self.old self.new lane result }
        ensures book { IsBook self.new }
        ensures result { result ≡ Stepped.Answered Reply.Written }
    {
        self.store(lane, Reply::Written, touched);
        Stepped::Answered(Reply::Written)
    }

    /// A batch of so many writes is answered, all of which are stored. `touched` is the word of the one that was stored last,
    /// where the value is another.
    pub fn batched(&mut self, lane: u32, count: u64, touched: Option<u32>) -> Stepped
        requires { IsDoing (Doing.Batch count) self.old lane }
        ensures is { self.new ≡ with_lane self.old lane (closed Reply.Written (stored_all (lane_at self.old lane))) touched }
        ensures step { StepsIf (λ base. has_all (held_by base self.old lane) (batch_of count (lane_at self.old lane)) ≡ true)
            E.meaning self.old self.new lane result }
        ensures book { IsBook self.new }
        ensures result { result ≡ Stepped.Answered Reply.Written }
    {
        self.lanes[lane as usize].store_all(Reply::Written);
        self.touched = touched;
        Stepped::Answered(Reply::Written)
    }

    /// A take is answered, whose owner word at this address is stored.
    pub fn taken(&mut self, lane: u32, structure: u32, block: u32, a: u32) -> Stepped
        requires lane { IsDoing (Doing.Take structure block) self.old lane }
        requires next { IsNextStored (lane_at self.old lane) (record { address = a; value = structure + 1 }) }
        requires few { (lane_at self.old lane).stored < 2 ^ 62 }
        ensures is { self.new ≡ with_lane self.old lane (closed (Reply.Block block) (stored_one (lane_at self.old lane))) None }
        ensures step { StepsIf (CanTake self.old lane structure block a) E.meaning self.old self.new lane result }
        ensures book { IsBook self.new }
        ensures result { result ≡ Stepped.Answered (Reply.Block block) }
    {
        self.store(lane, Reply::Block(block), None);
        Stepped::Answered(Reply::Block(block))
    }

    /// A give is answered, whose record is in the log.
    pub fn given(&mut self, lane: u32, block: u32) -> Stepped
        requires { IsDoing (Doing.Give block) self.old lane }
        ensures moves { Moves E.meaning self.old self.new lane None result (closed Reply.Given (lane_at self.old lane)) }
        ensures result { result ≡ Stepped.Answered Reply.Given }
    {
        self.close(lane, Reply::Given);
        Stepped::Answered(Reply::Given)
    }

    /// A savepoint is made, for which there is room.
    pub fn save(&mut self, lane: u32) -> Stepped
        requires lane { IsDoing Doing.Savepoint self.old lane }
        requires stored { AreStored (lane_at self.old lane) }
        requires room { length (lane_at self.old lane).points.items < (lane_at self.old lane).points.capacity }
        ensures is { self.new ≡ with_lane self.old lane (saved (lane_at self.old lane)) None }
        ensures step { Steps E.meaning self.old self.new lane result }
        ensures book { IsBook self.new }
        ensures result { result ≡ Stepped.Answered (Reply.Saved (length (lane_at self.old lane).points.items)) }
    {
        let number = self.lanes[lane as usize].points.len() as u64;
        self.lanes[lane as usize].save();
        self.touched = None;
        Stepped::Answered(Reply::Saved(number))
    }

    /// A way back to a savepoint is answered: all that was written since is taken back in the device.
    pub fn rolled_back(&mut self, lane: u32, n: u64) -> Stepped
        requires lane { IsDoing (Doing.RollbackTo n) self.old lane }
        requires inside { n < length (lane_at self.old lane).points.items }
        requires stored { (lane_at self.old lane).stored ≡ (point_at n (lane_at self.old lane)).writes }
        ensures moves { Moves E.meaning self.old self.new lane None result (rolled_back n (lane_at self.old lane)) }
        ensures result { result ≡ Stepped.Answered Reply.RolledBack }
    {
        self.lanes[lane as usize].roll_back(n);
        self.touched = None;
        Stepped::Answered(Reply::RolledBack)
    }

    /// A checkpoint is answered.
    pub fn checkpointed(&mut self, lane: u32) -> Stepped
        requires { IsDoing Doing.Checkpoint self.old lane }
        ensures moves { Moves E.meaning self.old self.new lane None result (closed Reply.Checkpointed (lane_at self.old lane)) }
        ensures result { result ≡ Stepped.Answered Reply.Checkpointed }
    {
        self.close(lane, Reply::Checkpointed);
        Stepped::Answered(Reply::Checkpointed)
    }

    /// An abort is answered.
    pub fn aborted(&mut self, lane: u32) -> Stepped
        requires { IsDoing Doing.Abort self.old lane }
        ensures moves { Moves E.meaning self.old self.new lane None result (left Reply.Aborted (lane_at self.old lane)) }
        ensures result { result ≡ Stepped.Answered Reply.Aborted }
    {
        self.leave(lane, Reply::Aborted);
        Stepped::Answered(Reply::Aborted)
    }

    /// The entry of the commit joins the history, and the commit goes on at this part of its plan.
    pub fn join(&mut self, lane: u32, part: u64) -> Stepped
        requires lane { IsDoing Doing.Commit self.old lane }
        requires entry { HasEntry lane (lane_at self.old lane) }
        requires few { (lane_at self.old lane).commits < 2 ^ 60 }
        requires room { length self.old.history.items < self.old.history.capacity }
        ensures is { (e : Entry E) → (lane_at self.old lane).entry ≡ Some e
            → self.new ≡ with_history (self.old.history.items ++ e ∷ []) (with_lane self.old lane (moved part (entered_lane (lane_at self.old lane))) None) }
        ensures step { Steps E.meaning self.old self.new lane result }
        ensures book { IsBook self.new }
        ensures result { result ≡ Stepped.Moved }
    {
        self.touched = None;
        if let Some(entry) = self.lanes[lane as usize].join(part) {
            self.history.push(entry);
        }
        Stepped::Moved
    }

    /// A commit whose entry has joined is answered.
    pub fn committed(&mut self, lane: u32) -> Stepped
        requires lane { IsDoing Doing.Commit self.old lane }
        requires entered { HasEntered self.old lane }
        ensures moves { Moves E.meaning self.old self.new lane None result (left Reply.Committed (lane_at self.old lane)) }
        ensures result { result ≡ Stepped.Answered Reply.Committed }
    {
        self.leave(lane, Reply::Committed);
        Stepped::Answered(Reply::Committed)
    }

    /// The entry of a commit joins the history in the step that answers it.
    pub fn commit(&mut self, lane: u32) -> Stepped
        requires lane { IsDoing Doing.Commit self.old lane }
        requires entry { HasEntry lane (lane_at self.old lane) }
        requires few { (lane_at self.old lane).commits < 2 ^ 60 }
        requires room { length self.old.history.items < self.old.history.capacity }
        ensures is { (e : Entry E) → (lane_at self.old lane).entry ≡ Some e
            → self.new ≡ with_history (self.old.history.items ++ e ∷ []) (with_lane self.old lane (left Reply.Committed (entered_lane (lane_at self.old lane))) None) }
        ensures step { Steps E.meaning self.old self.new lane result }
        ensures book { IsBook self.new }
        ensures result { result ≡ Stepped.Answered Reply.Committed }
    {
        self.touched = None;
        if let Some(entry) = self.lanes[lane as usize].commit() {
            self.history.push(entry);
        }
        Stepped::Answered(Reply::Committed)
    }
}
