//! What a lane's call changes without an event: the state stays one.
ghost use Rattle.txn_state.specs.QuietLaws.{NotesKeep, MemoryIsTaken, PlacesAreTaken, BeginsKeep, WritesAreAsked, TakesAreAsked, GivesAreAsked, EndsAreAsked, UnrecordedAbortsKeep, UnrecordedCommitsKeep};

/// A wait, a read, a refusal, or the ask of a call that appends nothing.
pub fn notes_keep<E>()
    ensures { NotesKeep E }
{}

/// Between its calls a lane owes more, for which memory was taken.
pub fn memory_is_taken<E>()
    ensures { MemoryIsTaken E }
{}

/// The history has places for more entries.
pub fn places_are_taken<E>()
    ensures { PlacesAreTaken E }
{}

/// A transaction begins.
pub fn begins_keep<E>()
    ensures { BeginsKeep E }
{}

/// A write is asked.
pub fn writes_are_asked<E>()
    ensures { WritesAreAsked E }
{}

/// A take is asked.
pub fn takes_are_asked<E>()
    ensures { TakesAreAsked E }
{}

/// A give is asked.
pub fn gives_are_asked<E>()
    ensures { GivesAreAsked E }
{}

/// A commit or an abort is asked.
pub fn ends_are_asked<E>()
    ensures { EndsAreAsked E }
{}

/// A transaction without a record is aborted,
pub fn unrecorded_aborts_keep<E>()
    ensures { UnrecordedAbortsKeep E }
{}

/// or commits, and its entry joins the history.
pub fn unrecorded_commits_keep<E>()
    ensures { UnrecordedCommitsKeep E }
{}
