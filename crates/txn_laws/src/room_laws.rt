//! What recovery needs of the lanes' transactions, and the cells that are reserved for them, as functions that do nothing: the clause is the law.
ghost use Rattle.txn_laws.specs.Needs.{NeedsAreLanes, NeedsRest};
ghost use Rattle.txn_laws.specs.Rooms.{
  FewerAreRoomy,
  AsksAreRoomy,
  HeapEventsAreRoomy,
  PartsAreRoomy,
  RestsAreRoomy,
  RoomsStart,
  SharesAreSummed,
  NewestAreBound,
  CellsAreReserved,
};

/// The cells that recovery needs in a partition are those of the lanes' open transactions there.
pub fn needs_are_lanes()
    ensures { NeedsAreLanes }
{}

/// That of the newest log is the same where nothing is under way.
pub fn needs_rest()
    ensures { NeedsRest }
{}

/// Where there is room for what is reserved, there is for less,
pub fn fewer_are_roomy()
    ensures { FewerAreRoomy }
{}

/// and for as much as a read of the newest words finds.
pub fn asks_are_roomy()
    ensures { AsksAreRoomy }
{}

/// The room stays as lanes store to the heap,
pub fn heap_events_are_roomy()
    ensures { HeapEventsAreRoomy }
{}

/// and the parts of the log lower it by the cells of the records whose gates they store.
pub fn parts_are_roomy()
    ensures { PartsAreRoomy }
{}

/// Where nothing is under way it is the settled room.
pub fn rests_are_roomy()
    ensures { RestsAreRoomy }
{}

/// So a world begins with room for what is reserved.
pub fn rooms_start()
    ensures { RoomsStart }
{}

/// What is reserved for the lanes is their sum by number.
pub fn shares_are_summed()
    ensures { SharesAreSummed }
{}

/// Cells that are kept for the transactions with records in the newest log are for those of the settled one.
pub fn newest_are_bound()
    ensures { NewestAreBound }
{}

/// With room for what is reserved each record that a lane may append has its cells.
pub fn cells_are_reserved()
    ensures { CellsAreReserved }
{}
