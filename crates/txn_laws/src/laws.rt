//! What the invariant says of a stop, where it begins, and what keeps it.
ghost use Rattle.txn_laws.specs.Laws.{WorldsStand};
ghost use Rattle.txn_laws.specs.StartLaws.{WorldsStart};
ghost use Rattle.txn_laws.specs.Beginnings.{BeginsKeep, LeavesKeep, UnrecordedLeave, UnrecordedCommit};
ghost use Rattle.txn_laws.specs.Reads.{OwnReads, UnownedRead};
ghost use Rattle.txn_laws.specs.Stores.{WritesAreStored, WritesAreTakenBack, GiftsAreZeroed, FencesKeep};
ghost use Rattle.txn_laws.specs.Going.{PartsKeep};
ghost use Rattle.txn_laws.specs.Settled.{AppendsSettle};
ghost use Rattle.txn_laws.specs.Dropped.{RemovalsSettle};
ghost use Rattle.txn_laws.specs.Takes.{TakesKeep};
ghost use Rattle.txn_laws.specs.Asks.{AsksKeep, AppendsBegin, PartsBegin, LatchesKeep};

/// Each image stands for the history and those commits in flight that it has.
pub fn worlds_stand()
    ensures { WorldsStand }
{}

/// A settled region with an empty log is where a world begins.
pub fn worlds_start()
    ensures { WorldsStart }
{}

/// A transaction begins on words that nobody has,
pub fn begins_keep()
    ensures { BeginsKeep }
{}

/// and leaves its words once the log has none of its records.
pub fn leaves_keep()
    ensures { LeavesKeep }
{}

/// One that runs leaves them where it has neither a record nor a store,
pub fn unrecorded_leave()
    ensures { UnrecordedLeave }
{}

/// and so does a commit that writes nothing, whose entry joins the history.
pub fn unrecorded_commit()
    ensures { UnrecordedCommit }
{}

/// A running transaction reads what it has written to its own words,
pub fn own_reads()
    ensures { OwnReads }
{}

/// and in a word that nobody has the history's value is all that there is.
pub fn unowned_read()
    ensures { UnownedRead }
{}

/// Between the parts of the log a lane stores the next of its recorded writes,
pub fn writes_are_stored()
    ensures { WritesAreStored }
{}

/// takes back one whose update was compensated,
pub fn writes_are_taken_back()
    ensures { WritesAreTakenBack }
{}

/// stores 0 to the owner word of what it gave, behind its commit,
pub fn gifts_are_zeroed()
    ensures { GiftsAreZeroed }
{}

/// and makes a fence.
pub fn fences_keep()
    ensures { FencesKeep }
{}

/// An event of a part of the log that isn't its last settles nothing.
pub fn parts_keep()
    ensures { PartsKeep }
{}

/// With the last event of an append its record is settled: an update, a deletion, a rollback record, a compensation or an end. Behind a commit's
/// end the history has its entry.
pub fn appends_settle()
    ensures { AppendsSettle }
{}

/// A transaction means to write more words, and to end so or so.
pub fn asks_keep()
    ensures { AsksKeep }
{}

/// Where nothing is under way in a partition the append of the record that comes next begins,
pub fn appends_begin()
    ensures { AppendsBegin }
{}

/// or a group of a closing, or a removal,
pub fn parts_begin()
    ensures { PartsBegin }
{}

/// or its latch is taken or let go.
pub fn latches_keep()
    ensures { LatchesKeep }
{}

/// With the last event of a removal the partition has the cells of a bucket more room.
pub fn removals_settle()
    ensures { RemovalsSettle }
{}

/// Words that nobody has come to a transaction that runs.
pub fn takes_keep()
    ensures { TakesKeep }
{}
