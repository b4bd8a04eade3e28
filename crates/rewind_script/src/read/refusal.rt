//! Why a line is refused.

ghost use Rattle.std.specs.Prelude.{◌≡◌};
ghost use Rattle.rewind_script.specs.declared.read.refusal.Refusal.TheVariants.{Memory};
ghost use Rattle.rewind_script.specs.Answers.{fault_at};

use crate::fault::{Fault, ScriptFault};
use persist_model::NoMemory;
use std::alloc::{AllocError, AllocFailed};

/// A fault of the line, or want of memory, which says nothing of the line.
#[derive(Debug, Drop)]
pub enum Refusal {
    Fault(Fault),
    Memory,
}

impl Refusal {
    pub fn at_line(self, line: u64) -> ScriptFault
        ensures { result ≡ fault_at line self }
    {
        match self {
            Refusal::Fault(kind) => ScriptFault::Line { line, kind },
            Refusal::Memory => ScriptFault::NoMemory,
        }
    }
}

impl<T: Drop> From<(T, NoMemory)> for Refusal {
    ghost from_gives = { λ _ e. e ≡ Memory };

    fn from(_refused: (T, NoMemory)) -> Refusal {
        Refusal::Memory
    }
}

impl From<AllocError> for Refusal {
    ghost from_gives = { λ _ e. e ≡ Memory };

    fn from(_refused: AllocError) -> Refusal {
        Refusal::Memory
    }
}

impl<T: Drop> From<AllocFailed<T>> for Refusal {
    ghost from_gives = { λ _ e. e ≡ Memory };

    fn from(_refused: AllocFailed<T>) -> Refusal {
        Refusal::Memory
    }
}
