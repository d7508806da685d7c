//! Sums and comparisons of fractions, with the overflow that each may show.
ghost use Rattle.std.specs.Prelude.{◌↔◌, IsTrue, IfOk, IfErr};
ghost use Rattle.row_core.specs.Refusals.{IsOverflowIn};
ghost use Rattle.difference_bounds.specs.Fractions.{IsFraction, IsLowestOf, IsBelow, sum};
ghost use Rattle.difference_bounds.specs.Overflows.{IsOverflowOf, LeavesInSum, LeavesInCompare};

use crate::fraction::Fraction;
use row_core::{ConvErr, Memory, OverKind, Overflow};
use std::alloc::Global;

/// The overflow of two fractions, each shown by its numerator and its denominator.
fn overflow(
    alloc: Global,
    kind: OverKind,
    left: Fraction,
    right: Fraction,
    column: u32,
) -> Result<Overflow, Memory>
    requires left { IsFraction left }
    requires right { IsFraction right }
    ensures { IfOk result (IsOverflowOf kind left right column) }
{
    let (left, right) = ([left.num, left.den], [right.num, right.den]);
    Overflow::of_rows(alloc, kind, &left, &right, column)
}

/// The sum of two fractions.
pub(crate) fn sum(alloc: Global, left: Fraction, right: Fraction) -> Result<Fraction, ConvErr>
    requires left { IsFraction left }
    requires right { IsFraction right }
    ensures sum { IfOk result (IsLowestOf (sum left right)) }
    ensures fraction { IfOk result IsFraction }
    ensures overflow { IfErr result (IsOverflowIn (LeavesInSum left right)) }
{
    match left.plus(right) {
        Ok(sum) => Ok(sum),
        Err(column) => Err(ConvErr::Overflow(overflow(
            alloc,
            OverKind::Scale,
            left,
            right,
            column,
        )?)),
    }
}

/// Whether one fraction is below another.
pub(crate) fn is_below(alloc: Global, left: Fraction, right: Fraction) -> Result<bool, ConvErr>
    requires left { IsFraction left }
    requires right { IsFraction right }
    ensures below { IfOk result (λ below. IsTrue below ↔ IsBelow left right) }
    ensures overflow { IfErr result (IsOverflowIn (LeavesInCompare left right)) }
{
    match left.is_below(right) {
        Ok(below) => Ok(below),
        Err(column) => Err(ConvErr::Overflow(overflow(
            alloc,
            OverKind::Compare,
            left,
            right,
            column,
        )?)),
    }
}
