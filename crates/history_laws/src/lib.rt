//! What each image of a region stands for while lanes are in the midst of plans on its log. Everything is said of plain data, as functions
//! that do nothing: the clause is the law.
#![tactic(auto)]

ghost use Rattle.history_laws.specs.Laws.{ImagesHaveChoices, ImagesStand, RegionsStand, KeptRegionsStand};
ghost use Rattle.history_laws.specs.Growing.{UncoveredAreSettled, HistoryGrows};
ghost use Rattle.history_laws.specs.Checkpoints.{CheckpointsStand, CheckpointClosingsStand};

/// Each image has a sound state: the settled log with some of the records under way, and without some of those that are being closed.
pub fn images_have_choices()
    ensures { ImagesHaveChoices }
{}

/// So it stands for the history and some of the commits in flight.
pub fn images_stand()
    ensures { ImagesStand }
{}

/// So does whatever a stop leaves of a region.
pub fn regions_stand()
    ensures { RegionsStand }
{}

/// So does whatever a stop leaves of the log's keeper's region.
pub fn kept_regions_stand()
    ensures { KeptRegionsStand }
{}

/// At each prefix of the append of a checkpoint's record each image stands for the history,
pub fn checkpoints_stand()
    ensures { CheckpointsStand }
{}

/// and where the checkpoint closes records of all partitions.
pub fn checkpoint_closings_stand()
    ensures { CheckpointClosingsStand }
{}

/// A heap word that no record decides is settled at its value in the history's heap.
pub fn uncovered_are_settled()
    ensures { UncoveredAreSettled }
{}

/// Behind the last fence of a commit's end the words stand for the history with the transaction's entry.
pub fn history_grows()
    ensures { HistoryGrows }
{}
