//! What can't be left out, and what is spanned.
ghost use Rattle.nnc_enc.specs.Kept.{KeptConstraintsAreNeeded, KeptConstraintsCode};
ghost use Rattle.nnc_enc.specs.KeptVectors.{KeptGeneratorsCode, LevelVectorsAreNeeded, ListedDecodes};
ghost use Rattle.nnc_enc.specs.Needs.{EqualitiesAreNeeded, LinesAreNeeded, NoHeightNoPoint, TwoWaysAreSpanned, ZeroRowsAreSpanned};

/// No equality of a canonical system of valid rows can be left out.
pub fn equalities_are_needed()
    ensures { EqualitiesAreNeeded }
{}

/// What is 0 at all points is spanned by the equalities.
pub fn zero_rows_are_spanned()
    ensures { ZeroRowsAreSpanned }
{}

/// No line of a canonical system of vectors can be left out.
pub fn lines_are_needed()
    ensures { LinesAreNeeded }
{}

/// What leads both ways from each point into the set is spanned by the lines.
pub fn two_ways_are_spanned()
    ensures { TwoWaysAreSpanned }
{}

/// No point is coded where no ray is above 0 in column e.
pub fn no_height_no_point()
    ensures { NoHeightNoPoint }
{}

/// The constraints of what a strong pass keeps hold exactly at the points that the cone codes.
pub fn kept_constraints_code()
    ensures { KeptConstraintsCode }
{}

/// No constraint of what a strong pass keeps can be left out.
pub fn kept_constraints_are_needed()
    ensures { KeptConstraintsAreNeeded }
{}

/// No closure point on which a strict row is 0, and no ray, of a canonical system of
/// vectors can be left out.
pub fn level_vectors_are_needed()
    ensures { LevelVectorsAreNeeded }
{}

/// The generators of what a strong pass keeps span exactly the points that the cone codes.
pub fn kept_generators_code()
    ensures decodes { ListedDecodes }
    ensures code { KeptGeneratorsCode }
{}
