//! Laws of generators and points.
ghost use Rattle.gens_sys.specs.Spans.{SpansPoints};

/// Generators span both or neither of two vectors that stand for one point.
pub fn same_points()
    ensures { SpansPoints }
{}
