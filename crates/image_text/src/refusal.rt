ghost use Rattle.std.specs.Prelude.{◌≡◌};
ghost use Rattle.image_text.specs.declared.refusal.Refusal.TheVariants.{Memory};
ghost use Rattle.image_text.specs.Reading.{fault_at};

use crate::image::TextFault;
use persist_model::NoMemory;

/// Why a line is refused.
#[derive(Clone, Copy, Debug, PartialEq, Eq)]
pub enum Refusal {
    /// It breaks the grammar.
    Line,
    Memory,
}

impl Refusal {
    /// The fault of the line with this number.
    pub fn at(self, number: u64) -> TextFault
        ensures { result ≡ fault_at number self }
    {
        match self {
            Refusal::Line => TextFault::Line(number),
            Refusal::Memory => TextFault::NoMemory,
        }
    }
}

impl<T: Drop> From<(T, NoMemory)> for Refusal {
    ghost from_gives = { λ _ e. e ≡ Memory };

    fn from(_refused: (T, NoMemory)) -> Refusal {
        Refusal::Memory
    }
}
