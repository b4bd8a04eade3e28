//! What a stop leaves of a world of lanes. The functions do nothing: the clause is the law.
ghost use Rattle.txn_core.specs.Images.{ImagesStand};

/// Each image stands for the history and those commits in flight that it has.
pub fn images_stand<E>()
    ensures { ImagesStand E }
{}
