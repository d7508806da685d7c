//! Laws of walks.
ghost use Rattle.difference_bounds.specs.Laws.{HasStep, ClosesTables, NegativeHasNone};
ghost use Rattle.difference_bounds.specs.TableLaws.{TightByTriangles, ExtendsValues, NoneByNegative};

/// The step of Floyd and Warshall.
pub fn step()
    ensures { HasStep }
{}

/// The table of the least totals over all places is tight.
pub fn tight()
    ensures tight { ClosesTables }
    ensures negative { NegativeHasNone }
{}

/// A table is tight exactly where it has the triangle inequality.
pub fn triangles()
    ensures { TightByTriangles }
{}

/// Values of some places that meet the bounds of a tight table extend to one place
/// more, and to all.
pub fn extension()
    ensures { ExtendsValues }
{}

/// No values meet the bounds exactly where a closed walk is negative.
pub fn emptiness()
    ensures { NoneByNegative }
{}
