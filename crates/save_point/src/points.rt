//! A transaction's live savepoints.
ghost use Rattle.std.specs.Prelude.{◌≡◌, ◌+◌, ◌<◌, ◌++◌, [], ◌∷◌, length, take, slice_get, IfOk, OnOk, OnErr};

use persist_model::NoMemory;
use std::alloc::Global;
use std::marker::Model;

/// How much of a transaction stands at a savepoint.
#[derive(Clone, Copy, Debug, PartialEq, Eq)]
pub struct Counts {
    /// The number of its writes.
    pub writes: u64,
    /// The number of the blocks that it gave back.
    pub gives: u64,
}

/// A transaction's live savepoints, numbered from 0 in the order in which they stand. Contracts see the list of their counts.
#[derive(Drop)]
pub struct Points {
    counts: Vec<Counts>,
}

impl Model for Points {
    ghost use Rattle.std.specs.Prelude.{List};
    ghost use Rattle.save_point.specs.declared.points.Counts.{Counts};

    ghost Value = { List Counts };

    ghost view = { λ points. points.counts.items };
}

impl Points {
    /// No savepoint, which takes no memory.
    pub fn new(alloc: Global) -> Self
        ensures { result ≡ [] }
    {
        Points {
            counts: Vec::new(alloc),
        }
    }

    /// A savepoint more, with what stands of the transaction's writes and gives. Answers its number. Without memory all stay as they are.
    pub fn save(&mut self, writes: u64, gives: u64) -> Result<u64, NoMemory>
        ensures number { IfOk result (λ n. n ≡ length self.old) }
        ensures saved { OnOk result (self.new ≡ self.old ++ record { writes = writes; gives = gives } ∷ []) }
        ensures refused { OnErr result (self.new ≡ self.old) }
    {
        let number = self.live();
        match self.counts.push(Counts { writes, gives }) {
            Ok(()) => Ok(number),
            Err(_) => Err(NoMemory),
        }
    }

    /// How many savepoints live.
    pub fn live(&self) -> u64
        ensures { result ≡ length self.now }
    {
        self.counts.len() as u64
    }

    /// Back to savepoint n, which stays: those above it live no more. Answers how many writes and gives stood at it.
    pub fn back(&mut self, n: u64) -> (u64, u64)
        requires { n < length self.old }
        ensures stands { slice_get self.old n ≡ Some (record { writes = result.0; gives = result.1 }) }
        ensures kept { self.new ≡ take (n + 1) self.old }
    {
        let point = self.counts[n as usize];
        self.counts.truncate(n as usize + 1);
        (point.writes, point.gives)
    }
}
