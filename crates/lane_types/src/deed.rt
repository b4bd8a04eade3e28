ghost use Rattle.std.specs.Prelude.{◌≡◌};
ghost use Rattle.lane_types.specs.Heaps.{Heap, AreAlike};
ghost use Rattle.lane_types.specs.Deeds.{Deeds};

/// What a commit means.
pub trait Deed: Drop {
    /// How it changes a heap, the structures that it names, and what the deeds of one world have in common.
    ghost meaning: { Deeds Self };

    fn structures(&self) -> u8
        ensures { result ≡ meaning.names self.now };

    /// What it means depends on the blocks of the named structures alone.
    ghost depends: { (deed : Self) (before after other_before other_after : Heap)
        → AreAlike (meaning.names deed) before other_before → AreAlike (meaning.names deed) after other_after
        → meaning.means deed before after → meaning.means deed other_before other_after };
}
