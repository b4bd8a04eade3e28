//! How a block stands: the state stays one.
ghost use Rattle.txn_state.specs.BlockLaws.{BlocksGo};

/// A block that no lane has goes free, or waits to.
pub fn blocks_go<E>()
    ensures { BlocksGo E }
{}
