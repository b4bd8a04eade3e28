//! What holds of a log's records, as functions that do nothing: the clause is the law.
#![tactic(auto)]

ghost use Rattle.log_laws.specs.Soundness.{SoundOrFaulty, SoundHasNoFault, FirstFaultIsOne, StandingIsOne};
ghost use Rattle.log_laws.specs.Naming.{StackIsUnnamed, NeedIsUnnamed, UndoPointIsEarlier};
ghost use Rattle.log_laws.specs.Recovery.{RecoveryKeeps, RunsKeep, RecoveryEnds};
ghost use Rattle.log_laws.specs.MoveRoom.{UpdateFits, DeletionFits, RollbackFits, CompensationFits, EndFits, CheckpointFits};
ghost use Rattle.log_laws.specs.Moves.{MovesKeep, CommitsKeep};
ghost use Rattle.log_laws.specs.Groups.{GroupsKeep};
ghost use Rattle.log_laws.specs.Recovering.{EachImageKeeps, StoresGoOn, FencesGoOn};

/// Words are a sound image or have a first fault.
pub fn sound_or_faulty()
    ensures { SoundOrFaulty }
{}

/// A sound image has no fault.
pub fn sound_has_no_fault()
    ensures { SoundHasNoFault }
{}

/// No words have two first faults.
pub fn first_fault_is_one()
    ensures { FirstFaultIsOne }
{}

/// A sound image determines the standing value of each of its words.
pub fn standing_is_one()
    ensures { StandingIsOne }
{}

/// In a log in order, whatever its room, the stack of a running transaction is the list of its updates that no compensation names.
pub fn stack_is_unnamed()
    ensures { StackIsUnnamed }
{}

/// So the need of a partition counts the updates that no compensation names.
pub fn need_is_unnamed()
    ensures { NeedIsUnnamed }
{}

/// The update that a compensation names is an earlier record, so it may be sought among all.
pub fn undo_point_is_earlier()
    ensures { UndoPointIsEarlier }
{}

/// Each step of recovery keeps a sound state sound, with its standing values.
pub fn recovery_keeps()
    ensures { RecoveryKeeps }
{}

/// So do all the steps that were made, wherever a stop came.
pub fn recoveries_keep()
    ensures { RunsKeep }
{}

/// Each image of a region in which recovery is at work is sound, with the standing values with which it began.
pub fn each_image_keeps()
    ensures { EachImageKeeps }
{}

/// A store to a word whose standing value a record decides goes on with recovery.
pub fn stores_go_on()
    ensures { StoresGoOn }
{}

/// A fence goes on with recovery.
pub fn fences_go_on()
    ensures { FencesGoOn }
{}

/// From any sound state the steps of recovery lead to one without records, whose words are the standing ones.
pub fn recovery_ends()
    ensures { RecoveryEnds }
{}

/// What the plan of a running transaction, a checkpoint or a clearing does keeps a sound state sound, with its standing values.
pub fn moves_keep()
    ensures { MovesKeep }
{}

/// So do updates of one transaction that come at once, where the room that is left is enough.
pub fn groups_keep()
    ensures { GroupsKeep }
{}

/// The end of a commit keeps a sound state sound, with the transaction's words standing as it wrote them.
pub fn commits_keep()
    ensures { CommitsKeep }
{}

/// With two cells more than recovery needs, or four for the first record of a transaction, an update fits.
pub fn update_fits()
    ensures { UpdateFits }
{}

/// With one cell more than recovery needs, or three for the first record of a transaction, a deferred deletion fits.
pub fn deletion_fits()
    ensures { DeletionFits }
{}

/// A rollback record fits: its cell was kept for it, or it finds two where no record of its transaction is left.
pub fn rollback_fits()
    ensures { RollbackFits }
{}

/// So does each compensation.
pub fn compensation_fits()
    ensures { CompensationFits }
{}

/// So does the end of a transaction, whose cell was kept, or which finds one where no record of its transaction is left.
pub fn end_fits()
    ensures { EndFits }
{}

/// With a cell more than recovery needs, and one for its own checkpoint record, a checkpoint record fits.
pub fn checkpoint_fits()
    ensures { CheckpointFits }
{}
