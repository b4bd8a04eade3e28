ghost use Rattle.std.specs.Prelude.{◌≡◌, ◌<◌, ◌^◌, length};
ghost use Rattle.lane_types.specs.Faces as Faces;
ghost use Rattle.lane_book.specs.Lanes.{noted, closed, moved, stored_one, stored_all, rolled_back, left, begun_lane, saved, entered_lane};

use crate::stock::Stock;
use lane_traits::WordWrite;
use lane_types::{Entry, Phase, Reply, Stepped, Tally};
use region_layout::Cell;

/// The call that a lane is about, but for a commit's deed.
#[derive(Clone, Copy, Debug, PartialEq, Eq)]
pub enum Doing {
    Nothing,
    Begin(u8),
    Read(u32),
    Write(u32, u64),
    /// The structure, and the block that was picked for it.
    Take(u32, u32),
    Give(u32),
    Commit,
    Abort,
    Checkpoint,
    /// How many of the lane's writes, the last ones, it is.
    Batch(u64),
    Savepoint,
    RollbackTo(u64),
}

/// What a transaction can go back to: so many of its writes and gives stood.
#[derive(Clone, Copy, Debug, PartialEq, Eq)]
pub struct Point {
    pub writes: u64,
    pub gives: u64,
}

/// What the book keeps of a lane.
///
/// The lists are of the transaction and hold what stands: going back to a savepoint shortens them.
#[derive(Drop)]
pub struct Lane<E> {
    pub phase: Phase,
    pub held: u8,
    pub begun: u64,
    pub commits: u64,
    pub answer: Option<Reply>,
    pub tally: Tally,
    pub doing: Doing,
    /// Where in the call's plan it is.
    pub part: u64,
    /// The transaction's number.
    pub transaction: u64,
    /// The length of the history when the transaction began.
    pub joined: u64,
    /// Its writes, owner words of taken blocks among them, and beside each its update, once that is appended.
    pub writes: Stock<WordWrite>,
    pub updates: Stock<Cell>,
    /// So many of the writes stand in the device.
    pub stored: u64,
    /// The blocks that it gave, and the gates of their records.
    pub gives: Stock<u32>,
    pub gates: Stock<u32>,
    /// The blocks that it took, and those of them whose taking was undone.
    pub taken: Stock<u32>,
    pub untaken: Stock<u32>,
    pub points: Stock<Point>,
    /// It has appended a record, a rollback record, its end.
    pub has_records: bool,
    pub rolled: bool,
    pub ended: bool,
    /// The number of the next update that an undo would take back.
    pub point: u64,
    /// The entry of the commit in progress, until it joins the history, and whether it has.
    pub entry: Option<Entry<E>>,
    pub entered: bool,
    /// The events that the call in progress may make at the most; each may want a place of the device.
    pub owed_events: u64,
    /// The records that it may still begin to append, each of which wants a place of the ledger.
    pub owed_records: u64,
    /// The cells of the call in progress, beyond those of an undo.
    pub promised: u64,
}

/// The phase that an answer leaves.
fn phase_after(reply: Reply) -> Phase
    ensures { result ≡ Faces.phase_after reply }
{
    match reply {
        Reply::Committed | Reply::Aborted | Reply::Checkpointed => Phase::Out,
        _ => Phase::In,
    }
}

impl<E> Lane<E> {
    /// A step was answered so, and nothing else came of it.
    pub fn note(&mut self, answer: Stepped)
        ensures { self.new ≡ noted answer self.old }
    {
        self.tally.steps = self.tally.steps.saturating_add(1);
        self.tally.last = Some(answer);
        if matches!(answer, Stepped::Stopped) {
            self.tally.stopped = true;
        }
    }

    /// The call ends with this reply, and no cell is promised to it any more.
    pub fn close(&mut self, reply: Reply)
        ensures { self.new ≡ closed reply self.old }
    {
        self.note(Stepped::Answered(reply));
        self.phase = phase_after(reply);
        self.answer = Some(reply);
        self.doing = Doing::Nothing;
        self.part = 0;
        self.entered = false;
        self.promised = 0;
    }

    /// The call goes on at this part of its plan.
    pub fn go_on(&mut self, part: u64)
        ensures { self.new ≡ moved part self.old }
    {
        self.note(Stepped::Moved);
        self.part = part;
    }

    /// The transaction begins: it has this number, these structures, and so many entries of the history before it.
    pub fn begin(&mut self, number: u64, set: u8, joined: u64)
        requires { self.old.begun < 2 ^ 62 }
        ensures { self.new ≡ begun_lane number set joined self.old }
    {
        self.close(Reply::Begun(number));
        self.held = set;
        self.begun += 1;
        self.transaction = number;
        self.joined = joined;
    }

    /// The words as they are become a savepoint, for which there is room.
    pub fn save(&mut self)
        requires { length self.old.points.items < self.old.points.capacity }
        ensures { self.new ≡ saved self.old }
    {
        let writes = self.writes.len() as u64;
        let gives = self.gives.len() as u64;
        let number = self.points.len() as u64;
        self.close(Reply::Saved(number));
        self.points.push(Point { writes, gives });
    }

    /// One write more stands in the device, and the call ends with this reply.
    pub fn store(&mut self, reply: Reply)
        requires { self.old.stored < 2 ^ 62 }
        ensures { self.new ≡ closed reply (stored_one self.old) }
    {
        self.stored += 1;
        self.close(reply);
    }

    /// All of the writes stand in the device, and the call ends with this reply.
    pub fn store_all(&mut self, reply: Reply)
        ensures { self.new ≡ closed reply (stored_all self.old) }
    {
        self.stored = self.writes.len() as u64;
        self.close(reply);
    }

    /// Back at the savepoint, which stays: what was written and given since is gone.
    pub fn roll_back(&mut self, n: u64)
        requires { n < length self.old.points.items }
        ensures { self.new ≡ rolled_back n self.old }
    {
        let point = self.points.as_slice()[n as usize];
        self.close(Reply::RolledBack);
        self.writes.truncate(point.writes as usize);
        self.updates.truncate(point.writes as usize);
        self.gives.truncate(point.gives as usize);
        self.gates.truncate(point.gives as usize);
        self.points.truncate(n as usize + 1);
    }

    /// The entry of the commit is handed out, to join the history.
    pub fn hand_out(&mut self) -> Option<Entry<E>>
        requires { self.old.commits < 2 ^ 60 }
        ensures lane { self.new ≡ entered_lane self.old }
        ensures entry { result ≡ self.old.entry }
    {
        self.commits += 1;
        self.entered = true;
        self.entry.take()
    }
}

impl<E: Drop> Lane<E> {
    /// The transaction is over: the call ends with this reply, and nothing is held any more.
    pub fn leave(&mut self, reply: Reply)
        ensures { self.new ≡ left reply self.old }
    {
        self.close(reply);
        self.held = 0;
        self.transaction = 0;
        self.joined = 0;
        self.writes.clear();
        self.updates.clear();
        self.stored = 0;
        self.gives.clear();
        self.gates.clear();
        self.taken.clear();
        self.untaken.clear();
        self.points.clear();
        self.has_records = false;
        self.rolled = false;
        self.ended = false;
        self.point = 0;
        self.entry = None;
        self.owed_events = 0;
        self.owed_records = 0;
    }

    /// The entry of the commit is handed out, and the commit goes on.
    pub fn join(&mut self, part: u64) -> Option<Entry<E>>
        requires { self.old.commits < 2 ^ 60 }
        ensures lane { self.new ≡ moved part (entered_lane self.old) }
        ensures entry { result ≡ self.old.entry }
    {
        let entry = self.hand_out();
        self.go_on(part);
        entry
    }

    /// The entry of the commit is handed out, and the commit is answered.
    pub fn commit(&mut self) -> Option<Entry<E>>
        requires { self.old.commits < 2 ^ 60 }
        ensures lane { self.new ≡ left Reply.Committed (entered_lane self.old) }
        ensures entry { result ≡ self.old.entry }
    {
        let entry = self.hand_out();
        self.leave(Reply::Committed);
        entry
    }
}
