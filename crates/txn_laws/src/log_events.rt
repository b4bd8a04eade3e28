//! What the last events of the log's parts keep, and all latches at once.
ghost use Rattle.txn_laws.specs.AllLatches.{AllLatchesKeep};
ghost use Rattle.txn_laws.specs.Closings.{GroupsEnd};
ghost use Rattle.txn_laws.specs.TakingsBack.{TakingsBackEnd};

/// Behind the last event of a group of a closing the log has its records no more, and the words that they barred may be given away.
pub fn groups_end()
    ensures { GroupsEnd }
{}

/// Behind that of a taking back the log has these deletions no more, and their words aren't given.
pub fn takings_back_end()
    ensures { TakingsBackEnd }
{}

/// All latches are taken where nothing is under way.
pub fn all_latches_keep()
    ensures { AllLatchesKeep }
{}
