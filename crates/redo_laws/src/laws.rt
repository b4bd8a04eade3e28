//! What the invariant says of a stop and of a read.
ghost use Rattle.redo_laws.specs.Laws.{WorldsStand, WorldsStart, OwnReads, UnownedRead};

/// Each image stands for the history and those commits in flight that it has.
pub fn worlds_stand()
    ensures { WorldsStand }
{}

/// A running transaction reads what it has written to its own words,
pub fn own_reads()
    ensures { OwnReads }
{}

/// and in a word that nobody has, and that no committed deletion names, the history's value.
pub fn unowned_read()
    ensures { UnownedRead }
{}

/// A settled region with an empty log, and a cell in its first partition, is where a world begins.
pub fn worlds_start()
    ensures { WorldsStart }
{}
