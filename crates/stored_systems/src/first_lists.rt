//! Laws of the canonical systems of a list of constraints, and of a list of generators.
ghost use Rattle.stored_systems.specs.FirstLists.{ConstraintListAdmits, GeneratorListSpans, NoPointInConstraints, PairOfConstraints, PointOfGenerators, PairOfGenerators};

/// A first list tells which points its constraints hold at, or its generators generate.
pub fn points_of_lists()
    ensures constraints { ConstraintListAdmits }
    ensures generators { GeneratorListSpans }
{}

/// The systems of the constraint list of a closed system tell whether there is a point, and then
/// hold at the points of the constraints.
pub fn systems_of_constraints()
    ensures no_point { NoPointInConstraints }
    ensures pair { PairOfConstraints }
{}

/// The systems of the generator list of a closed system with a point generate what its generators
/// do.
pub fn systems_of_generators()
    ensures point { PointOfGenerators }
    ensures pair { PairOfGenerators }
{}
