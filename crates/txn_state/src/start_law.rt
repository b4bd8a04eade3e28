//! Where a world begins.
ghost use Rattle.txn_state.specs.StartLaw.{StatesStart};

/// A settled region at rest with an empty log, fresh lanes and a fresh keeper are a state.
pub fn states_start<E>()
    ensures { StatesStart E }
{}
