//! What a lane stores to its own words, and its fences: the state stays one.
ghost use Rattle.txn_state.specs.HeapLaws.{WritesAreStored, TakesAreStored, WordsAreTakenBack, FencesKeep};

/// The word of a write is stored, and the write is answered.
pub fn writes_are_stored<E>()
    ensures { WritesAreStored E }
{}

/// The owner word of a block is stored, and the take is answered.
pub fn takes_are_stored<E>()
    ensures { TakesAreStored E }
{}

/// An abort takes a word back.
pub fn words_are_taken_back<E>()
    ensures { WordsAreTakenBack E }
{}

/// A fence comes before the end.
pub fn fences_keep<E>()
    ensures { FencesKeep E }
{}
