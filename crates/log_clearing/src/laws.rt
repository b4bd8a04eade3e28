//! What the layers above use of clearing, as functions that do nothing: the clause is the law.
ghost use Rattle.log_clearing.specs.Clearing.{ClosingsKeep, DroppingsKeep, ClosingsClear, ClosingsEnd};
ghost use Rattle.log_clearing.specs.Removals.{ReadRemovalsMayBeMade, RemovalsAreStates, RoomKeeps};
ghost use Rattle.log_clearing.specs.PartPlans.{RemovalsAreOnPart, ClosingsAreOnPart, OwnWordsDrop};

/// At each prefix of a closing each image is sound, with the same standing words, where the listed records may be cleared.
pub fn closings_keep()
    ensures { ClosingsKeep }
{}

/// So it is where deletions of running transactions are closed.
pub fn droppings_keep()
    ensures { DroppingsKeep }
{}

/// A whole closing has closed the listed records, and no others.
pub fn closings_clear()
    ensures { ClosingsClear }
{}

/// What a whole closing leaves is settled.
pub fn closings_end()
    ensures { ClosingsEnd }
{}

/// The removal that is read in words whose list is at rest may be made.
pub fn read_removals_may_be_made()
    ensures { ReadRemovalsMayBeMade }
{}

/// At each prefix of the removal of a closed bucket each image has the records before, and no less room.
pub fn removals_are_states()
    ensures { RemovalsAreStates }
{}

/// More room keeps a state sound, with its standing words.
pub fn room_keeps()
    ensures { RoomKeeps }
{}

/// A removal stores to words of its partition alone,
pub fn removals_are_on_part()
    ensures { RemovalsAreOnPart }
{}

/// and so does a closing whose records stand in one partition.
pub fn closings_are_on_part()
    ensures { ClosingsAreOnPart }
{}

/// A partition's own words decide which of its buckets may be dropped.
pub fn own_words_drop()
    ensures { OwnWordsDrop }
{}
