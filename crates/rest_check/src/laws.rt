//! What is told of an image that isn't at rest, as functions that do nothing: the clause is the law.
ghost use Rattle.rest_check.specs.Rest.{UnrestedIsUnfinished, UnrestedIsOne};

/// An image of which this is told isn't recovered,
pub fn unrested_is_unfinished()
    ensures { UnrestedIsUnfinished }
{}

/// and it is told of one address alone.
pub fn unrested_is_one()
    ensures { UnrestedIsOne }
{}
