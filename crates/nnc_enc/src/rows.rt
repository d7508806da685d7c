//! Laws of the rows of a system of valid rows, and of the strict rows that can be left out.

ghost use Rattle.nnc_enc.specs.Redundant.{StrictRowIsRedundant};
ghost use Rattle.nnc_enc.specs.StrongRows.{KeptRowsHold, LevelRowsAreNeeded, RowsAreCoded, StrictRowsAreNeeded};

/// The rows of a system of valid rows hold exactly at the points that the cone codes.
pub fn rows_are_coded()
    ensures { RowsAreCoded }
{}

/// The rows that a strong pass keeps hold at the same points as all rows.
pub fn kept_rows_hold()
    ensures { KeptRowsHold }
{}

/// A strict row that is 0 at some place and isn't covered excludes a point that no
/// other row excludes.
pub fn strict_rows_are_needed()
    ensures { StrictRowsAreNeeded }
{}

/// A strict row is redundant in exactly two cases: it is 0 at no place, or another strict row that
/// is kept is 0 at all places at which it is.
pub fn strict_row_is_redundant()
    ensures { StrictRowIsRedundant }
{}

/// A row that isn't strict doesn't hold at all points at which the others hold.
pub fn level_rows_are_needed()
    ensures { LevelRowsAreNeeded }
{}
