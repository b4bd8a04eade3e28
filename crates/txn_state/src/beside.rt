//! What a step of one lane leaves of the others.
ghost use Rattle.txn_state.specs.Beside.{LanesStay, SumsDiffer};

/// Each other lane is as it was, and owes what it owed.
pub fn lanes_stay<E>()
    ensures { LanesStay E }
{}

/// Of two sums that differ in one summand.
pub fn sums_differ()
    ensures { SumsDiffer }
{}
