//! Laws of rows, bounds and shapes.
ghost use Rattle.bd_shape.specs.Forms.{RowBounds};
ghost use Rattle.bd_shape.specs.Laws.{BoundsAreGreatest, EmptyWithoutPoints, HasOneShape, ReturnsShape, IncludesPolyhedron};

/// The row of a difference bounds it.
pub fn row_bounds()
    ensures { RowBounds }
{}

/// Each bound of a shape is the greatest difference of two places on its points, and none exactly
/// where the differences have no bound. A shape is empty exactly where it has no point.
pub fn tightness()
    ensures greatest { BoundsAreGreatest }
    ensures empty { EmptyWithoutPoints }
{}

/// A shape is that of its points.
pub fn one_shape()
    ensures { HasOneShape }
{}

/// From a shape to its polyhedron and back it is the same shape; from a polyhedron to its shape and
/// back it is one that includes it.
pub fn there_and_back()
    ensures same { ReturnsShape }
    ensures includes { IncludesPolyhedron }
{}
