//! What the layers above use of repairs, as a function that does nothing: the clause is the law.
ghost use Rattle.recovery_lists.specs.Repairs.{RepairsAreStates};

/// At each prefix of the repair that a partition's recovery words ask for each image has the same state, and behind it they ask for none.
pub fn repairs_are_states()
    ensures { RepairsAreStates }
{}
