//! What each generator must meet for a constraint to hold on the whole set.

ghost use Rattle.set_laws.specs.GeneratorLaws.{TrueOnGenerators, TrueOrCounter, ContainedByPairs, TrueWithin, SpansHavePoints};

/// A constraint holds at all points exactly where each generator has what it asks.
pub fn true_on_generators()
    ensures { TrueOnGenerators }
{}

/// A constraint holds at all points, or fails at some.
pub fn true_or_counter()
    ensures { TrueOrCounter }
{}

/// A set lies in another exactly where each pair of a generator and a constraint passes.
pub fn contained_by_pairs()
    ensures { ContainedByPairs }
{}

/// The points that the generators span are those of the constraints.
pub fn true_within()
    ensures { TrueWithin }
{}

/// A list that spans some vector has a point.
pub fn spans_have_points()
    ensures { SpansHavePoints }
{}
