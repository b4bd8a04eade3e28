//! What holds of how a worker stands to its lane's face, as functions that do nothing: the clause is the law.
ghost use Rattle.lane_worker.specs.Starts.{NewIsReady};
ghost use Rattle.lane_worker.specs.Laws.{AcceptedIsAsking, MovedIsAsking, SteppedIsAsking, SteppedIsReady, BeginsAreTold};

/// A new worker is ready at a lane that begun nothing.
pub fn new_is_ready()
    ensures { NewIsReady }
{}

/// A call that the lane may ask is in progress once it is accepted.
pub fn accepted_is_asking()
    ensures { AcceptedIsAsking }
{}

/// A step that doesn't answer the call leaves the worker waiting for it.
pub fn moved_is_asking()
    ensures { MovedIsAsking }
{}

pub fn stepped_is_asking()
    ensures { SteppedIsAsking }
{}

/// A step of a lane without a call leaves its worker ready.
pub fn stepped_is_ready()
    ensures { SteppedIsReady }
{}

/// A begin finds maps, where the heap held maps when the world began: whatever lawful history stands between, the words tell which.
pub fn begins_are_told()
    ensures { BeginsAreTold }
{}
