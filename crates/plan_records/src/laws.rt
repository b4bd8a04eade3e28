//! What each append leaves to a stop, as functions that do nothing: the clause is the law.
ghost use Rattle.plan_records.specs.Laws.{
  UpdatesKeep,
  DeletionsKeep,
  RollbacksKeep,
  CompensationsKeep,
  UndoneEndsKeep,
  CheckpointsKeep,
  CommitEndsWrite,
  StoresKeep,
  DropsKeep,
};
ghost use Rattle.plan_records.specs.Appends.{RoomIsBounded};
ghost use Rattle.plan_records.specs.Passing.{PassingsKeep};
ghost use Rattle.plan_records.specs.Groups.{UpdatesComeAtOnce};
ghost use Rattle.plan_records.specs.Others.{OthersKeepOwn, AppendsStandInPart, EndsLeaveDeleted, OwnersAreZero};
ghost use Rattle.plan_records.specs.Courses.{CoursesKeepRecords, WritesGoOn, GivesGoOn, CommitsGoOn, AbortsGoOn};
ghost use Rattle.plan_records.specs.HeapCourses.{
  GoesAreCourses,
  LogPlansAreOnLog,
  StepsStay,
  WordsAreTaken,
  WritesSettle,
  GivesSettle,
  CommitsMeet,
  AbortsMeet,
  NoForceMeets,
  HeapImagesReach,
};
ghost use Rattle.plan_records.specs.HeapClears.{ClearsMeet};
ghost use Rattle.plan_records.specs.HeapUpdates.{OldsMeet, UpdatesMeet};
ghost use Rattle.plan_records.specs.HeapImages.{UpdatesLeave, CommitsLeave, AbortsLeave, ClearsLeave};

/// A record that was numbered before newer records of other transactions may come behind them.
pub fn passings_keep()
    ensures { PassingsKeep }
{}

/// Updates of a transaction that come at once, as those of one bucket, leave a sound state with the same standing words, where the room that is left is enough.
pub fn updates_come_at_once()
    ensures { UpdatesComeAtOnce }
{}

/// At each prefix of an update's append each image is sound, with the standing words before.
pub fn updates_keep()
    ensures { UpdatesKeep }
{}

/// So it is at each prefix of a deferred deletion's append,
pub fn deletions_keep()
    ensures { DeletionsKeep }
{}

/// of a rollback record's,
pub fn rollbacks_keep()
    ensures { RollbacksKeep }
{}

/// of the compensation's of the newest update that none names,
pub fn compensations_keep()
    ensures { CompensationsKeep }
{}

/// of the end's of a transaction that is undone,
pub fn undone_ends_keep()
    ensures { UndoneEndsKeep }
{}

/// and of a checkpoint record's, where each word that nothing else decides has its standing value.
pub fn checkpoints_keep()
    ensures { CheckpointsKeep }
{}

/// At each prefix of the append of a commit's end each image has the standing words before, or those with what the transaction
/// wrote, by whether it has the end.
pub fn commit_ends_write()
    ensures { CommitEndsWrite }
{}

/// Stores to words whose standing value a record decides keep all standing words.
pub fn stores_keep()
    ensures { StoresKeep }
{}

/// At each prefix of the removal of a closed bucket each image is sound, with the standing words before.
pub fn drops_keep()
    ensures { DropsKeep }
{}

/// How much room a region has at most, so that an append has the numbers that it asks for.
pub fn room_is_bounded()
    ensures { RoomIsBounded }
{}

/// Wherever a lane has come in the plan of a write, its next part may begin.
pub fn writes_go_on()
    ensures { WritesGoOn }
{}

/// So it is in the plan of a block that is given back,
pub fn gives_go_on()
    ensures { GivesGoOn }
{}

/// in that of a commit,
pub fn commits_go_on()
    ensures { CommitsGoOn }
{}

/// and in that of an abort.
pub fn aborts_go_on()
    ensures { AbortsGoOn }
{}

/// A transaction that had a record when its plan began has one wherever its lane has come.
pub fn courses_keep_records()
    ensures { CoursesKeepRecords }
{}

/// What others do keeps a transaction's own records.
pub fn others_keep_own()
    ensures { OthersKeepOwn }
{}

/// A record that is appended in a partition stands there.
pub fn appends_stand_in_part()
    ensures { AppendsStandInPart }
{}

/// Where the owner words of its deletions are 0, a transaction's end leaves what its clearing asks; behind an undo it does so in any words.
pub fn ends_leave_deleted()
    ensures { EndsLeaveDeleted }
{}

/// The parts of deletions leave each owner word durably 0.
pub fn owners_are_zero()
    ensures { OwnersAreZero }
{}

/// A course with its lane's progress is a course.
pub fn goes_are_courses()
    ensures { GoesAreCourses }
{}

/// The events of an append and of a closing are on the log's words alone.
pub fn log_plans_are_on_log()
    ensures { LogPlansAreOnLog }
{}

/// What others do keeps a lane in step with its transaction's records.
pub fn steps_stay()
    ensures { StepsStay }
{}

/// A settled word that a transaction hasn't changed may be taken up.
pub fn words_are_taken()
    ensures { WordsAreTaken }
{}

/// Behind a write under force the lane's newest value of each word that its transaction changed is the last NEW,
pub fn writes_settle()
    ensures { WritesSettle }
{}

/// and so it is wherever a lane has come in the giving back of a block.
pub fn gives_settle()
    ensures { GivesSettle }
{}

/// At the end of a commit under force each word that the transaction changed has the last NEW,
pub fn commits_meet()
    ensures { CommitsMeet }
{}

/// and so it is at the end of an undo.
pub fn aborts_meet()
    ensures { AbortsMeet }
{}

/// Under no-force an end asks nothing of the heap words.
pub fn no_force_meets()
    ensures { NoForceMeets }
{}

/// Where a transaction's records are cleared under force, the owner words of what it deleted are 0.
pub fn clears_meet()
    ensures { ClearsMeet }
{}

/// An update whose OLD is the last NEW of its transaction, or else the standing value, may come, under both policies.
pub fn olds_meet()
    ensures { OldsMeet }
{}

/// Under force the lane's newest value of the word is such an OLD.
pub fn updates_meet()
    ensures { UpdatesMeet }
{}

/// Where a region tracks a lane's progress, each image's heap words are as that progress reaches.
pub fn heap_images_reach()
    ensures { HeapImagesReach }
{}

/// So under force each image of an update's append is sound, with the standing words before, where the lane is in step;
pub fn updates_leave()
    ensures { UpdatesLeave }
{}

/// at the end of a commit it has those before or those that the transaction wrote, by whether it has the end;
pub fn commits_leave()
    ensures { CommitsLeave }
{}

/// at the end of an undo those before;
pub fn aborts_leave()
    ensures { AbortsLeave }
{}

/// and where the records are cleared too.
pub fn clears_leave()
    ensures { ClearsLeave }
{}
