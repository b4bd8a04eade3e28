// How the parts of recovery follow one another.
ghost use Rattle.log_laws.specs.Parts.{PartsKeep, PartsGoOn};

/// Wherever a part is stopped, each image is sound with the same standing words.
pub fn parts_keep()
    ensures { PartsKeep }
{}

/// A part leads to the state that its end has.
pub fn parts_go_on()
    ensures { PartsGoOn }
{}
