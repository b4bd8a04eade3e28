//! What holds of all inputs, as functions that do nothing: the clause is the law.
ghost use Rattle.rewind.specs.Due.{HaveOneDue, HaveSameDue};
ghost use Rattle.rewind.specs.Rests.{FarStopsMigrate, MigratedTextsAreDone, MigratedTextsStay};

/// Each input has exactly one due status for each job: no input is without one, and none has two.
pub fn inputs_have_one_due_status()
    ensures { HaveOneDue }
{}

/// A text of what a recovery left, with the same lines, has the status that was due to the first text.
pub fn recovered_again_is_due_the_same()
    ensures { HaveSameDue }
{}

/// What `migrate` wrote is migrated by no event, and written again.
pub fn migrated_texts_stay()
    ensures { MigratedTextsStay }
{}

/// What `migrate` or `migrate STOP PICK` wrote may be migrated: where it isn't too long, status 0 is due to it.
pub fn migrated_texts_are_done()
    ensures { MigratedTextsAreDone }
{}

/// A stop behind as many events as any migration takes leaves the migrated image.
pub fn far_stops_migrate()
    ensures { FarStopsMigrate }
{}
