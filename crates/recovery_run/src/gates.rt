// The gates that are to be closed at recovery's end.
ghost use Rattle.std.specs.Prelude.{◌≡◌, ◌∷◌, ◌++◌, ◌+◌, ◌<◌, ◌≤◌, [], IfOk};
ghost use Rattle.std.specs.Vec.{vec_len, vec_capacity};

use log_clearing::ClearList;
use persist_model::{List, NoMemory};
use std::alloc::Global;

/// The gates of records in the three groups of a closing, each with memory for those of records that are still to come.
#[derive(Drop)]
pub struct Gates {
    /// Of all but ends and checkpoint records.
    pub gates: Vec<u32>,
    pub ends: Vec<u32>,
    pub checkpoints: Vec<u32>,
}

impl Gates {
    /// No gates yet, and memory for so many of each group.
    pub fn with_memory(
        alloc: Global,
        gates: usize,
        ends: usize,
        checkpoints: usize,
    ) -> Result<Gates, NoMemory>
        ensures gates { IfOk result (λ made. (made.gates.items ≡ []) × (vec_capacity made.gates ≡ gates)) }
        ensures ends { IfOk result (λ made. (made.ends.items ≡ []) × (vec_capacity made.ends ≡ ends)) }
        ensures checkpoints { IfOk result (λ made. (made.checkpoints.items ≡ []) × (vec_capacity made.checkpoints ≡ checkpoints)) }
    {
        Ok(Gates {
            gates: Vec::with_capacity(alloc, gates)?,
            ends: Vec::with_capacity(alloc, ends)?,
            checkpoints: Vec::with_capacity(alloc, checkpoints)?,
        })
    }

    /// All of them, as a closing.
    pub fn into_clear_list(self) -> ClearList
        ensures { (result.gates ≡ self.gates.items) × (result.ends ≡ self.ends.items) × (result.checkpoints ≡ self.checkpoints.items) }
    {
        ClearList {
            gates: List::from_vec(self.gates),
            ends: List::from_vec(self.ends),
            checkpoints: List::from_vec(self.checkpoints),
        }
    }
}

/// Puts a gate behind the others, in memory that was taken before.
pub fn put_gate(gates: &mut Vec<u32>, at: u32)
    requires { vec_len gates.old < vec_capacity gates.old }
    ensures items { gates.new.items ≡ gates.old.items ++ at ∷ [] }
    ensures len { vec_len gates.new ≡ vec_len gates.old + 1 }
    ensures capacity { vec_capacity gates.old ≤ vec_capacity gates.new }
{
    match gates.push(at) {
        Ok(()) => {}
        Err(_) => {}
    }
}
