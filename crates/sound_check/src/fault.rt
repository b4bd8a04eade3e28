//! Why words are not accepted.
ghost use Rattle.sound_check.specs.declared.fault.CheckFault.TheVariants.{Unsound, NoMemory as NoRoom};
ghost use Rattle.std.specs.Prelude.{◌≡◌};

use persist_model::NoMemory;
use region_layout::ImageFault;

/// What a check answers where it doesn't accept the words.
#[derive(Clone, Copy, Debug, PartialEq, Eq)]
pub enum CheckFault {
    /// The first rule that fails, and its address.
    Unsound(ImageFault),
    /// Want of memory. It says nothing of the words.
    NoMemory,
}

impl From<ImageFault> for CheckFault {
    ghost from_gives = { λ found fault. fault ≡ Unsound found };

    fn from(found: ImageFault) -> Self {
        CheckFault::Unsound(found)
    }
}

impl From<NoMemory> for CheckFault {
    ghost from_gives = { λ want fault. fault ≡ NoRoom };

    fn from(_: NoMemory) -> Self {
        CheckFault::NoMemory
    }
}
