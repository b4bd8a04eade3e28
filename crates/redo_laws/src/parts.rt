//! The parts of lanes on the log, while there is no checkpoint, as functions that do nothing: the clause is the law.
ghost use Rattle.redo_laws.specs.Parts.{AppendsBegin, PartsBegin, LatchesKeep, PartsKeep, AppendsSettle, TakingsBackEnd, RemovalsSettle};

/// With the last event of an append its record is settled: an update, a deletion, a rollback record, a compensation or an end. Behind a commit's
/// end the history has its entry, and nothing of its words need be durable.
pub fn appends_settle()
    ensures { AppendsSettle }
{}

/// Where nothing is under way in a partition the append of the record that comes next begins,
pub fn appends_begin()
    ensures { AppendsBegin }
{}

/// or a taking back, or a removal,
pub fn parts_begin()
    ensures { PartsBegin }
{}

/// or its latch is taken or let go.
pub fn latches_keep()
    ensures { LatchesKeep }
{}

/// An event that isn't a part's last settles nothing.
pub fn parts_keep()
    ensures { PartsKeep }
{}

/// Behind the last event of a taking back the log has these deletions no more, and their words aren't given.
pub fn takings_back_end()
    ensures { TakingsBackEnd }
{}

/// With the last event of a removal, also of a checkpoint's clearing, the partition has the cells of a bucket more room.
pub fn removals_settle()
    ensures { RemovalsSettle }
{}
