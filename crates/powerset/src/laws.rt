//! Laws of powersets, of their covers, and of what joins and meets are.
ghost use Rattle.powerset.specs.PowersetLaws.{CoveredBothWays, CoversWhereIncluded, ReductionKeepsPoints, ReductionIsIrredundant, JoinIsUnion, PairMeetIsIntersection};

/// Two powersets that cover each other have the same points, and those of the same points
/// cover each other.
pub fn covered_both_ways()
    ensures { CoveredBothWays }
{}

/// Between powersets of one polyhedron, covering is inclusion.
pub fn covers_where_included()
    ensures { CoversWhereIncluded }
{}

/// Leaving out what others make superfluous loses no point, and then nothing more can be left out.
pub fn reduced_lists()
    ensures points { ReductionKeepsPoints }
    ensures irredundant { ReductionIsIrredundant }
{}

/// A join is the union of both operands.
pub fn join_is_union()
    ensures { JoinIsUnion }
{}

/// A meet is the intersection of both operands.
pub fn pair_meet_is_intersection()
    ensures { PairMeetIsIntersection }
{}
