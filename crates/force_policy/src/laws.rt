//! What the plans leave to a stop, as functions that do nothing: the clause is the law.
ghost use Rattle.force_policy.specs.Laws.{WritesGoOn, GivesGoOn, CommitsGoOn, AbortsGoOn};

/// Wherever a lane has come in a write, whatever of its next part is made, each image is sound, with the standing words before.
pub fn writes_go_on()
    ensures { WritesGoOn }
{}

/// So it is where a block is given back.
pub fn gives_go_on()
    ensures { GivesGoOn }
{}

/// Wherever a lane has come in a commit, each image is sound; its standing words are those before, but at the append of the end: there
/// they are those before or those with what the transaction wrote, by whether the image has the end.
pub fn commits_go_on()
    ensures { CommitsGoOn }
{}

/// Wherever a lane has come in an abort, each image is sound, with the standing words before.
pub fn aborts_go_on()
    ensures { AbortsGoOn }
{}
