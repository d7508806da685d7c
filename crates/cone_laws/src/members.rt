//! Laws of the vectors that a list of rows admits.

ghost use Rattle.cone_laws.specs.Members.{FirstRowsAlone, PointsDetermine, RowsOfBoth, SpannedIsWithin, SystemOfSameCone};

/// The cone of the first rows doesn't depend on the rows behind them,
/// and a vector meets a list followed by another where it meets both.
pub fn followed_lists()
    ensures first { FirstRowsAlone }
    ensures both { RowsOfBoth }
{}

/// What a generating system spans is in the cone.
pub fn spanned_is_within()
    ensures { SpannedIsWithin }
{}

/// Two lists of rows that admit the same vectors have the same canonical system.
pub fn system_of_same_cone()
    ensures { SystemOfSameCone }
{}

/// Where a cone holds a vector that is positive at a column,
/// all such vectors of it determine those that are 0 there.
pub fn points_determine()
    ensures { PointsDetermine }
{}
