//! What becomes of the newest log, and of the cells that recovery needs, as functions that do nothing: the clause is the law.
ghost use Rattle.log_keeper.specs.Newest.{NewestLogsKeep, NewestLogsMade, NewestAreOver};
ghost use Rattle.log_keeper.specs.Needs.{
  PassingsCome,
  UpdatesNeed,
  DeletionsNeed,
  RollbacksNeed,
  CompensationsNeed,
  EndsNeed,
  OthersNeed,
  CheckpointsNeed,
  ClosingsNeed,
  TakingsBackNeed,
};
ghost use Rattle.log_keeper.specs.Rooms.{
  RoomIsOne,
  ImagesHaveRooms,
  StoresTakeCells,
  RoomsStay,
  ClosingsRaiseRooms,
};

/// The newest log has the records whose gates are stored, as they are drawn, stored, settled and closed,
pub fn newest_logs_keep()
    ensures { NewestLogsKeep }
{}

/// by the events of each part.
pub fn newest_logs_made()
    ensures { NewestLogsMade }
{}

/// Records that are closed are of ended transactions in the newest log too.
pub fn newest_are_over()
    ensures { NewestAreOver }
{}

/// A record that may come before newer ones changes the need as the last one does:
pub fn passings_come()
    ensures { PassingsCome }
{}

/// an update by its compensation, and by the rollback record and the end where it is the first,
pub fn updates_need()
    ensures { UpdatesNeed }
{}

/// a deferred deletion by these alone,
pub fn deletions_need()
    ensures { DeletionsNeed }
{}

/// a rollback record by its own cell,
pub fn rollbacks_need()
    ensures { RollbacksNeed }
{}

/// a compensation by its own,
pub fn compensations_need()
    ensures { CompensationsNeed }
{}

/// and an end by all that its transaction needs.
pub fn ends_need()
    ensures { EndsNeed }
{}

/// The need of other partitions stays,
pub fn others_need()
    ensures { OthersNeed }
{}

/// and a checkpoint record changes none.
pub fn checkpoints_need()
    ensures { CheckpointsNeed }
{}

/// Records of ended transactions need nothing, so a closing changes none;
pub fn closings_need()
    ensures { ClosingsNeed }
{}

/// where deletions are taken back, a need goes with the last record of their transaction.
pub fn takings_back_need()
    ensures { TakingsBackNeed }
{}

/// Words have at most one room of a partition.
pub fn room_is_one()
    ensures { RoomIsOne }
{}

/// In any words that a stop may leave it is the settled one or more, until a record's gate is stored,
pub fn images_have_rooms()
    ensures { ImagesHaveRooms }
{}

/// which takes its cell in the newest ones.
pub fn stores_take_cells()
    ensures { StoresTakeCells }
{}

/// An event that stores elsewhere leaves the room,
pub fn rooms_stay()
    ensures { RoomsStay }
{}

/// and one of a closing doesn't lower it.
pub fn closings_raise_rooms()
    ensures { ClosingsRaiseRooms }
{}
