//! What going back leaves, as functions that do nothing: the clause is the law.
ghost use Rattle.save_point.specs.Plans.{GatesAreClosed};
ghost use Rattle.save_point.specs.Conditions.{FrontsGoBack, BacksHaveRoom};
ghost use Rattle.save_point.specs.Images.{BacksGoOn, BacksStayOpen, BacksKeep, GatesServe};
ghost use Rattle.save_point.specs.Ends.{BacksEnd, BacksAreThere, BacksMayEnd};
ghost use Rattle.save_point.specs.Newest.{StoresUndo, UndoingRestores, RecordsUndo, BacksSettle};

/// The last parts are the closing of the deletions at these gates.
pub fn gates_are_closed()
    ensures { GatesAreClosed }
{}

/// A transaction may go back by the newest of the updates that it would undo, however many.
pub fn fronts_go_back()
    ensures { FrontsGoBack }
{}

/// Each compensation has a cell.
pub fn backs_have_room()
    ensures { BacksHaveRoom }
{}

/// Wherever a lane has come in the undo, its next part may begin.
pub fn backs_go_on()
    ensures { BacksGoOn }
{}

/// Wherever it has come, its transaction has neither an end nor a rollback record.
pub fn backs_stay_open()
    ensures { BacksStayOpen }
{}

/// The deletions to be closed stay the transaction's, decide no word yet, and stand in its partition.
pub fn gates_serve()
    ensures { GatesServe }
{}

/// Each image is sound, with the same standing words, and the transaction has neither an end nor a rollback record in it.
pub fn backs_keep()
    ensures { BacksKeep }
{}

/// Behind it what is left to undo is what was left behind the updates, with its undo point, and the deletions are those that weren't closed.
pub fn backs_end()
    ensures { BacksEnd }
{}

/// It has the undo point of the savepoint, and the last NEWs of what is left.
pub fn backs_are_there()
    ensures { BacksAreThere }
{}

/// So the transaction goes on, and may commit or abort, also where all its records were closed.
pub fn backs_may_end()
    ensures { BacksMayEnd }
{}

/// To undo the writes since a savepoint leaves each word as it was there.
pub fn undoing_restores()
    ensures { UndoingRestores }
{}

/// By the records each word has its value before the updates,
pub fn records_undo()
    ensures { RecordsUndo }
{}

/// and the stores leave it there.
pub fn stores_undo()
    ensures { StoresUndo }
{}

/// Under force the lane is in step behind it, with these values.
pub fn backs_settle()
    ensures { BacksSettle }
{}
