//! Laws of the vectors of an encoded cone, and of the points that can be left out.

ghost use Rattle.nnc_enc.specs.DecodedVectors.{KeptVectorsSpan, PointsAreNeeded, VectorsAreCoded};
ghost use Rattle.nnc_enc.specs.Redundant.{PointIsRedundant};

/// The generators of all vectors of a system span exactly the points that the cone codes.
pub fn vectors_are_coded()
    ensures { VectorsAreCoded }
{}

/// The generators of the vectors that a strong pass keeps span the same points as those
/// of all vectors.
pub fn kept_vectors_span()
    ensures { KeptVectorsSpan }
{}

/// A point that no other kept point covers isn't spanned by the generators of the others.
pub fn points_are_needed()
    ensures { PointsAreNeeded }
{}

/// A point is redundant exactly where another point that is kept is on all its
/// saturated constraints.
pub fn point_is_redundant()
    ensures { PointIsRedundant }
{}
