//! The events of the log's parts: the state stays one.
ghost use Rattle.txn_state.specs.AppendLaws.{AppendsBegin, DeletionsBegin, PartsGoOn, GatesAreStored, DeletionsAreStored, RecordsSettle, GivesAreAnswered, UndoneEndsSettle, CommitEndsSettle};

/// A lane takes the latch of its partition and begins an append,
pub fn appends_begin<E>()
    ensures { AppendsBegin E }
{}

/// or that of a deletion,
pub fn deletions_begin<E>()
    ensures { DeletionsBegin E }
{}

/// an event of a part is made that neither stores a gate nor is the last,
pub fn parts_go_on<E>()
    ensures { PartsGoOn E }
{}

/// a record's gate is stored,
pub fn gates_are_stored<E>()
    ensures { GatesAreStored E }
{}

/// or a deletion's,
pub fn deletions_are_stored<E>()
    ensures { DeletionsAreStored E }
{}

/// and with the last event of the append the latch is let go,
pub fn records_settle<E>()
    ensures { RecordsSettle E }
{}

/// and a give is answered,
pub fn gives_are_answered<E>()
    ensures { GivesAreAnswered E }
{}

/// or, behind an abort's end,
pub fn undone_ends_settle<E>()
    ensures { UndoneEndsSettle E }
{}

/// or a commit's, its records are closed.
pub fn commit_ends_settle<E>()
    ensures { CommitEndsSettle E }
{}
