//! What lanes do between the parts of the log, as functions that do nothing: the clause is the law. A checkpoint may be anywhere meanwhile.
ghost use Rattle.redo_laws.specs.Beginnings.{BeginsKeep, TakesKeep, AsksKeep, DepartsKeep, UnrecordedLeave, UnrecordedCommit};
ghost use Rattle.redo_laws.specs.Stores.{WritesAreStored, WritesAreTakenBack};

/// A lane stores the next of its recorded writes, plainly,
pub fn writes_are_stored()
    ensures { WritesAreStored }
{}

/// and takes back one whose update was compensated.
pub fn writes_are_taken_back()
    ensures { WritesAreTakenBack }
{}

/// A transaction begins on words that nobody has, and that no committed deletion names,
pub fn begins_keep()
    ensures { BeginsKeep }
{}

/// and takes more of them.
pub fn takes_keep()
    ensures { TakesKeep }
{}

/// Behind its end it departs, and its records stay.
pub fn departs_keep()
    ensures { DepartsKeep }
{}

/// One that runs leaves its words where it has neither a record nor a store,
pub fn unrecorded_leave()
    ensures { UnrecordedLeave }
{}

/// and so does a commit that writes nothing, whose entry joins the history.
pub fn unrecorded_commit()
    ensures { UnrecordedCommit }
{}

/// A transaction means to write more words, and to end so or so.
pub fn asks_keep()
    ensures { AsksKeep }
{}
