//! Laws of constraints and points.
ghost use Rattle.cons_sys.specs.Constraints.{HoldsOfPoints};
ghost use Rattle.cons_sys.specs.Testing.{HasOneAnswer};

/// Constraints hold at both or at neither of two vectors that stand for one point.
pub fn same_points()
    ensures { HoldsOfPoints }
{}

/// A test of constraints in order has one answer.
pub fn one_answer()
    ensures { HasOneAnswer }
{}
