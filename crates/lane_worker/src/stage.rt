ghost use Rattle.std.specs.Prelude.{◌≡◌, ◌+◌, ◌<◌, length};
ghost use Rattle.rewind_script.specs.declared.report.How.{How as AnyHow};

use lane_traits::WordWrite;
use persist_model::List;
use rewind_script::How;

/// What a worker is doing.
#[derive(Clone, Copy, Debug, PartialEq, Eq)]
pub enum Stage {
    /// It has no transaction.
    Out,
    /// It is at a command of its transaction, or behind the last one.
    Choosing,
    /// The writes and gives of the command are being asked.
    Making,
    /// The transaction is to be aborted, with this fate.
    Aborting(How),
}

/// What a command changes, and how much of it was asked.
#[derive(Drop)]
pub struct Change {
    pub writes: List<WordWrite>,
    /// Blocks, by their addresses.
    pub gives: List<u32>,
    pub written: usize,
    pub given: usize,
}

impl Stage {
    /// The fate of a transaction that is aborted.
    pub(crate) fn fate(&self) -> How
        ensures { (how : AnyHow) → self.now ≡ Stage.Aborting how → result ≡ how }
    {
        match self {
            Stage::Aborting(how) => *how,
            Stage::Out => How::Aborted,
            Stage::Choosing => How::Aborted,
            Stage::Making => How::Aborted,
        }
    }
}

impl Change {
    /// One write more was made.
    pub(crate) fn wrote(&mut self)
        requires { self.old.written < length self.old.writes }
        ensures { self.new ≡ record self.old { written = self.old.written + 1 } }
    {
        prove!(self.written < self.writes.len());
        self.written += 1;
    }

    /// One block more was given.
    pub(crate) fn gave(&mut self)
        requires { self.old.given < length self.old.gives }
        ensures { self.new ≡ record self.old { given = self.old.given + 1 } }
    {
        prove!(self.given < self.gives.len());
        self.given += 1;
    }
}
