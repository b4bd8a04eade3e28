//! How the keeper's plain data and the region go on together, as functions that do nothing: the clause is the law.
ghost use Rattle.log_keeper.specs.Laws.{
  EventsPass,
  HeapEventsPass,
  FencesPass,
  PartsGoOn,
  PartsBegin,
  LatchesPass,
  LastEventsEnd,
  AppendsSettle,
  GroupsSettle,
  GroupsStaySound,
  TakingsBackSettle,
  TakingsBackStaySound,
  RemovalsSettle,
  RegionsStart,
  KeepersTrack,
  TrackedImagesReach,
  ImagesAreReached,
  RestingPartsAreSettled,
  RestingPartsAreRead,
  LedgersKeep,
};
ghost use Rattle.log_keeper.specs.Listing.{GatesAreListed};
ghost use Rattle.log_keeper.specs.Changes.{ChangesAreSettled};
ghost use Rattle.log_keeper.specs.Plans.{PlansAreShort, PlansAreInside, EventsAreInside, PartsFitLayouts};
ghost use Rattle.log_keeper.specs.Ordered.{OrdersKeep, RunsKeep, PartsSpare};
ghost use Rattle.log_keeper.specs.Starting.{KeepersStart};
ghost use Rattle.log_keeper.specs.Events.{
  EventsGoOn,
  AppendsAreMade,
  GroupsAreMade,
  TakingsBackAreMade,
  RemovalsAreMade,
  AllLatchesPass,
};

/// An event that names no word of the log, and is no fence that a partition waits for, changes nothing.
pub fn events_pass()
    ensures { EventsPass }
{}

/// Such are stores and write backs in the heap,
pub fn heap_events_pass()
    ensures { HeapEventsPass }
{}

/// and fences of lanes that no partition waits for.
pub fn fences_pass()
    ensures { FencesPass }
{}

/// A partition's holder makes the next event of its part.
pub fn parts_go_on()
    ensures { PartsGoOn }
{}

/// A part begins where nothing is under way.
pub fn parts_begin()
    ensures { PartsBegin }
{}

/// A latch is taken or let go where nothing is under way.
pub fn latches_pass()
    ensures { LatchesPass }
{}

/// The keeper's step behind a part's last event is that event, and what settles behind it.
pub fn last_events_end()
    ensures { LastEventsEnd }
{}

/// Behind the last event of an append the settled words have its record,
pub fn appends_settle()
    ensures { AppendsSettle }
{}

/// behind that of a group of a closing they lack its records,
pub fn groups_settle()
    ensures { GroupsSettle }
{}

/// and their state is sound where these may be cleared;
pub fn groups_stay_sound()
    ensures { GroupsStaySound }
{}

/// Behind that of a closing of deletions that are taken back they lack these,
pub fn takings_back_settle()
    ensures { TakingsBackSettle }
{}

/// and their state is sound, whatever the heap's words;
pub fn takings_back_stay_sound()
    ensures { TakingsBackStaySound }
{}

/// behind that of a removal they have more room.
pub fn removals_settle()
    ensures { RemovalsSettle }
{}

/// A region whose log is settled and at rest is where the keeper may start.
pub fn regions_start()
    ensures { RegionsStart }
{}

/// The keeper's region is tracked, as the histories of its images ask.
pub fn keepers_track()
    ensures { KeepersTrack }
{}

/// What a stop leaves of a tracked region is, in each partition, what its part has reached,
pub fn tracked_images_reach()
    ensures { TrackedImagesReach }
{}

/// and so what it leaves of the keeper's;
pub fn images_are_reached()
    ensures { ImagesAreReached }
{}

/// where nothing is under way it is settled, with a list at rest.
pub fn resting_parts_are_settled()
    ensures { RestingPartsAreSettled }
{}

/// So what is read there is so of the settled words.
pub fn resting_parts_are_read()
    ensures { RestingPartsAreRead }
{}

/// The ledger has the settled records, as records are drawn, stored, settled and closed.
pub fn ledgers_keep()
    ensures { LedgersKeep }
{}

/// The ledger stays in order, with numbers below the next one,
pub fn orders_keep()
    ensures { OrdersKeep }
{}

/// and fits the runs.
pub fn runs_keep()
    ensures { RunsKeep }
{}

/// A part that closes gates has none of a record under way.
pub fn parts_spare()
    ensures { PartsSpare }
{}

/// The keeper of a region at rest is where it may start.
pub fn keepers_start()
    ensures { KeepersStart }
{}

/// With its step the keeper follows an event that isn't the part's last;
pub fn events_go_on()
    ensures { EventsGoOn }
{}

/// behind the last of an append the settled words have its record,
pub fn appends_are_made()
    ensures { AppendsAreMade }
{}

/// behind that of a group of a closing they lack its records,
pub fn groups_are_made()
    ensures { GroupsAreMade }
{}

/// behind that of a closing of deletions that are taken back they lack these,
pub fn takings_back_are_made()
    ensures { TakingsBackAreMade }
{}

/// and behind that of a removal they have more room.
pub fn removals_are_made()
    ensures { RemovalsAreMade }
{}

/// All latches are taken where nothing is under way.
pub fn all_latches_pass()
    ensures { AllLatchesPass }
{}

/// The gates that a closing lists for a transaction are those of its records.
pub fn gates_are_listed()
    ensures { GatesAreListed }
{}

/// Where all records of a transaction are settled its newest change of a word is that of the settled log.
pub fn changes_are_settled()
    ensures { ChangesAreSettled }
{}

/// A part has few events,
pub fn plans_are_short()
    ensures { PlansAreShort }
{}

/// which store in the region,
pub fn plans_are_inside()
    ensures { PlansAreInside }
{}

/// also in the keeper's,
pub fn events_are_inside()
    ensures { EventsAreInside }
{}

/// and fits the layout.
pub fn parts_fit_layouts()
    ensures { PartsFitLayouts }
{}
