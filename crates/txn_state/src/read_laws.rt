//! What a state gives to the code that makes the next step.
ghost use Rattle.txn_state.specs.ReadLaws.{RunsFit, HoldersGoOn, HoldersAreBusy, EventsAreOwed, RecordsAreOwed, ListsAreKept, NumbersAreSmall, NewestHaveLogs, ViewsAreRead, LanesAreReady};

/// The parts under way name words of the region.
pub fn runs_fit<E>()
    ensures { RunsFit E }
{}

/// What a latch's holder has under way has a next event.
pub fn holders_go_on<E>()
    ensures { HoldersGoOn E }
{}

/// Who clears holds its latch.
pub fn holders_are_busy<E>()
    ensures { HoldersAreBusy E }
{}

/// There is a place in the device for the next event,
pub fn events_are_owed<E>()
    ensures { EventsAreOwed E }
{}

/// in the ledger for the next record,
pub fn records_are_owed<E>()
    ensures { RecordsAreOwed E }
{}

/// and in the lists for the gates of a closing.
pub fn lists_are_kept<E>()
    ensures { ListsAreKept E }
{}

/// The numbers are far below what 64 bits have.
pub fn numbers_are_small<E>()
    ensures { NumbersAreSmall E }
{}

/// The newest words have a list for each partition,
pub fn newest_have_logs<E>()
    ensures { NewestHaveLogs E }
{}

/// in which the next place, the room and the next removal are read.
pub fn views_are_read<E>()
    ensures { ViewsAreRead E }
{}

/// The lane's book is ready for what comes next.
pub fn lanes_are_ready<E>()
    ensures { LanesAreReady E }
{}
