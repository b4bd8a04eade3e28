//! What the layers above use of the log, as functions that do nothing: the clause is the law.
ghost use Rattle.bucket_log.specs.Plans.{AppendsHaveEvents};
ghost use Rattle.bucket_log.specs.Appends.{NextPlacesTake, EachAppendingImage, AppendEnds, EachImageOfAppends, AppendsEnd, AppendsLeaveChains};
ghost use Rattle.bucket_log.specs.States.{AppendsAreStates, AppendsWait, AppendsTakeCell, AppendsGain};
ghost use Rattle.bucket_log.specs.PartWords.{PartWordsAreTold, AppendsAreOnPart, PartsReach, OwnWordsTake};
ghost use Rattle.bucket_log.specs.Scans.{ViewsHaveLogs, LogsAreStates};

/// A fresh append has exactly 21 events and one for each cell of a bucket, another has 10.
pub fn appends_have_events()
    ensures { AppendsHaveEvents }
{}

/// The next place takes any record whose number isn't 0.
pub fn next_places_take()
    ensures { NextPlacesTake }
{}

/// At each prefix of an append, each image has the records before, or those and the new one with one cell less room.
pub fn each_appending_image()
    ensures { EachAppendingImage }
{}

/// An append leaves the new record beside those before, and nothing else of the log changes.
pub fn append_ends()
    ensures { AppendEnds }
{}

/// In each run of a prefix of an append, each image has the records before, or those and the new one.
pub fn each_image_of_appends()
    ensures { EachImageOfAppends }
{}

/// A run of a whole append leaves settled log words with the new record.
pub fn appends_end()
    ensures { AppendsEnd }
{}

/// A whole append leaves the partition's list at rest, and a fresh bucket behind its chain.
pub fn appends_leave_chains()
    ensures { AppendsLeaveChains }
{}

/// An append takes the state of a region to the one with the record, at its gate's store.
pub fn appends_are_states()
    ensures { AppendsAreStates }
{}

/// Before its gate's store no image has the record.
pub fn appends_wait()
    ensures { AppendsWait }
{}

/// An append takes one cell of the record's partition.
pub fn appends_take_cell()
    ensures { AppendsTakeCell }
{}

/// An append whose number was drawn before a newer record's takes the state to the one that has gained the record.
pub fn appends_gain()
    ensures { AppendsGain }
{}

/// The test tells the words of a partition.
pub fn part_words_are_told()
    ensures { PartWordsAreTold }
{}

/// An append stores to words of its partition alone.
pub fn appends_are_on_part()
    ensures { AppendsAreOnPart }
{}

/// What a plan of one partition reaches, whatever the words of others have come to.
pub fn parts_reach()
    ensures { PartsReach }
{}

/// A partition's own words decide whether its list is at rest, what may be appended, and the next place.
pub fn own_words_take()
    ensures { OwnWordsTake }
{}

/// The log that is read in a partition's view is the partition's own.
pub fn views_have_logs()
    ensures { ViewsHaveLogs }
{}

/// The log of a region's only partition is that of its state.
pub fn logs_are_states()
    ensures { LogsAreStates }
{}
