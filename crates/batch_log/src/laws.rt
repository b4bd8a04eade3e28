//! What the layers above use of a group, as functions that do nothing: the clause is the law.
ghost use Rattle.batch_log.specs.Plans.{BucketsHaveEvents, GroupsHaveEvents, GroupsHaveFences};
ghost use Rattle.batch_log.specs.Buckets.{EachFillingImage, BucketsLeaveChains, BucketsSettle, BucketsAreOnPart, OwnWordsFill};
ghost use Rattle.batch_log.specs.States.{BucketsGain, BucketsWait, BucketsStand, BucketsAreOnLog, BucketsTakeRoom, GroupsLeaveRoom, BucketsComeAtOnce};
ghost use Rattle.batch_log.specs.Groups.{SlotsMayCome, GroupsLead, GroupsComeAtOnce};

/// A bucket of 16 cells with n records has 27 + 7n events.
pub fn buckets_have_events()
    ensures { BucketsHaveEvents }
{}

/// A group of m records has 27 events for each bucket of 16 cells, and 7m more.
pub fn groups_have_events()
    ensures { GroupsHaveEvents }
{}

/// A group has exactly four fences for each bucket.
pub fn groups_have_fences()
    ensures { GroupsHaveFences }
{}

/// At each prefix of a bucket's events, each image has the records before, or those and all of the bucket's.
pub fn each_filling_image()
    ensures { EachFillingImage }
{}

/// A whole bucket leaves the partition's list at rest, with the bucket behind its chain.
pub fn buckets_leave_chains()
    ensures { BucketsLeaveChains }
{}

/// A whole bucket leaves nothing pending.
pub fn buckets_settle()
    ensures { BucketsSettle }
{}

/// A bucket's events store to words of its partition alone.
pub fn buckets_are_on_part()
    ensures { BucketsAreOnPart }
{}

/// A partition's own words decide what may be filled.
pub fn own_words_fill()
    ensures { OwnWordsFill }
{}

/// A bucket takes the state of a region to the one with all of its records.
pub fn buckets_gain()
    ensures { BucketsGain }
{}

/// Before the store of TO_APPEND no image has a record of the bucket.
pub fn buckets_wait()
    ensures { BucketsWait }
{}

/// From the fence of TO_APPEND on each image has all records of the bucket.
pub fn buckets_stand()
    ensures { BucketsStand }
{}

/// A bucket's events store durably, and to the log alone.
pub fn buckets_are_on_log()
    ensures { BucketsAreOnLog }
{}

/// The room falls by the bucket's records and the free cells of the bucket that was last.
pub fn buckets_take_room()
    ensures { BucketsTakeRoom }
{}

/// Where two cells for each record and a bucket's more were there, recovery has room enough behind a group.
pub fn groups_leave_room()
    ensures { GroupsLeaveRoom }
{}

/// A bucket takes the state to the one with each of its records at the place of its number.
pub fn buckets_come_at_once()
    ensures { BucketsComeAtOnce }
{}

/// The slots that were chosen may take a group of their number.
pub fn slots_may_come()
    ensures { SlotsMayCome }
{}

/// Each image of a group has the records before and those of its first buckets: a bucket's in no image before the store of its
/// TO_APPEND, and in each from that store's fence on.
pub fn groups_lead()
    ensures { GroupsLead }
{}

/// A group takes the state, bucket by bucket, to the one with each of its records at the place of its number.
pub fn groups_come_at_once()
    ensures { GroupsComeAtOnce }
{}
