//! What keeps the invariant along a checkpoint, as functions that do nothing: the clause is the law.
ghost use Rattle.redo_laws.specs.Sweeps.{SweepsBegin, SweepsPass, WordsAreWrittenBack, SweepsAreFenced};
ghost use Rattle.redo_laws.specs.Notes.{NotesBegin, NotesGoOn, NotesSettle, OwnersAreZeroed, ZerosAreFenced, NoZerosPass};
ghost use Rattle.redo_laws.specs.Clears.{GroupsBegin, GatesAreShut, GroupsAreFenced, LanesAreShut, ClearingsRemove, ClearingsGoOn, CheckpointsEnd};

/// A checkpoint begins where nothing is under way, and its lane takes all latches.
pub fn sweeps_begin()
    ensures { SweepsBegin }
{}

/// Its sweep passes words that aren't dirty,
pub fn sweeps_pass()
    ensures { SweepsPass }
{}

/// writes back those that are,
pub fn words_are_written_back()
    ensures { WordsAreWrittenBack }
{}

/// and behind the last word its fence leaves dirty only words that are to be undone.
pub fn sweeps_are_fenced()
    ensures { SweepsAreFenced }
{}

/// Its record draws the next number,
pub fn notes_begin()
    ensures { NotesBegin }
{}

/// is appended event by event,
pub fn notes_go_on()
    ensures { NotesGoOn }
{}

/// and with the last event settled: nothing is left to redo.
pub fn notes_settle()
    ensures { NotesSettle }
{}

/// 0 is stored to the owner words of the blocks that commits gave back,
pub fn owners_are_zeroed()
    ensures { OwnersAreZeroed }
{}

/// and a fence keeps that,
pub fn zeros_are_fenced()
    ensures { ZerosAreFenced }
{}

/// where there was one.
pub fn no_zeros_pass()
    ensures { NoZerosPass }
{}

/// A group of its closing begins in all partitions,
pub fn groups_begin()
    ensures { GroupsBegin }
{}

/// The next gate of a partition is closed, in any order of the partitions,
pub fn gates_are_shut()
    ensures { GatesAreShut }
{}

/// and where all of a group's gates are closed one fence ends it: the log has its records no more,
pub fn groups_are_fenced()
    ensures { GroupsAreFenced }
{}

/// and the lanes are as they were where none has gifts of an ended transaction.
pub fn lanes_are_shut()
    ensures { LanesAreShut }
{}

/// Behind its groups a removal begins
pub fn clearings_remove()
    ensures { ClearingsRemove }
{}

/// and goes on.
pub fn clearings_go_on()
    ensures { ClearingsGoOn }
{}

/// Where nothing is under way and no checkpoint record is left it is over.
pub fn checkpoints_end()
    ensures { CheckpointsEnd }
{}
