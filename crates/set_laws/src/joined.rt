//! Generators behind generators.

ghost use Rattle.set_laws.specs.JoinedSets.{JoinedSetsAreSame};

/// Two systems of generators that generate the same points do so with the same further generators
/// behind each. A generator that isn't a point leads from each point of the closure into the
/// closure, so the points tell which vectors such generators span; a point with a positive
/// multiplier is one of the set.
pub fn joined_sets_are_same()
    ensures { JoinedSetsAreSame }
{}
