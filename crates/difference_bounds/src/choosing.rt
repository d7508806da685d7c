//! The lesser and the greater of two bounds.
ghost use Rattle.std.specs.Prelude.{◌≡◌, ◌≢◌, ◌↔◌, Some, true, IsTrue, IfSome, IfOk, IfErr};
ghost use Rattle.row_core.specs.Refusals.{IsOverflowIn};
ghost use Rattle.difference_bounds.specs.Fractions.{IsFraction};
ghost use Rattle.difference_bounds.specs.Laws.{IsLesser, IsRelaxed, IsGreater, IsCovered};
ghost use Rattle.difference_bounds.specs.Combining.{IsChosen, IsPick, LeavesInChoice};
ghost use Rattle.difference_bounds.specs.Words.{IsWithinWords, other};
ghost use Rattle.difference_bounds.specs.Overflows.{LeavesInLesser, LeavesInBoth, LeavesInRelaxing};

use crate::fraction::Fraction;
use crate::refusals::{is_below, sum};
use crate::words::compared;
use row_core::ConvErr;
use std::alloc::Global;

/// Which of two bounds is taken.
#[derive(Clone, Copy)]
pub(crate) enum Choice {
    Lesser,
    Greater,
}

/// The lesser of a bound and a fraction. None is above all.
pub(crate) fn lesser(
    alloc: Global,
    bound: Option<Fraction>,
    fraction: Fraction,
) -> Result<Option<Fraction>, ConvErr>
    requires bound { IfSome bound IsFraction }
    requires fraction { IsFraction fraction }
    ensures lesser { IfOk result (IsLesser bound fraction) }
    ensures fraction { IfOk result (λ r. IfSome r IsFraction) }
    ensures overflow { IfErr result (IsOverflowIn (LeavesInLesser bound fraction)) }
{
    let Some(other) = bound else {
        return Ok(Some(fraction));
    };
    if is_below(alloc, fraction, other)? {
        return Ok(Some(fraction));
    }
    Ok(bound)
}

/// The lesser of a bound and the sum of two others.
pub(crate) fn relaxed(
    alloc: Global,
    bound: Option<Fraction>,
    first: Option<Fraction>,
    second: Option<Fraction>,
) -> Result<Option<Fraction>, ConvErr>
    requires bound { IfSome bound IsFraction }
    requires first { IfSome first IsFraction }
    requires second { IfSome second IsFraction }
    ensures relaxed { IfOk result (IsRelaxed bound first second) }
    ensures fraction { IfOk result (λ r. IfSome r IsFraction) }
    ensures overflow { IfErr result (IsOverflowIn (LeavesInRelaxing bound first second)) }
{
    let (Some(left), Some(right)) = (first, second) else {
        return Ok(bound);
    };
    let through = sum(alloc, left, right)?;
    lesser(alloc, bound, through)
}

/// The greater of two bounds. None is above all.
pub(crate) fn greater(
    alloc: Global,
    left: Option<Fraction>,
    right: Option<Fraction>,
) -> Result<Option<Fraction>, ConvErr>
    requires left { IfSome left IsFraction }
    requires right { IfSome right IsFraction }
    ensures greater { IfOk result (IsGreater left right) }
    ensures fraction { IfOk result (λ r. IfSome r IsFraction) }
    ensures overflow { IfErr result (IsOverflowIn (LeavesInBoth left right)) }
{
    let (Some(first), Some(second)) = (left, right) else {
        return Ok(None);
    };
    if is_below(alloc, first, second)? {
        return Ok(right);
    }
    Ok(left)
}

/// The lesser of two bounds, or the greater one.
pub(crate) fn chosen(
    alloc: Global,
    choice: Choice,
    left: Option<Fraction>,
    right: Option<Fraction>,
) -> Result<Option<Fraction>, ConvErr>
    requires left { IfSome left IsFraction }
    requires right { IfSome right IsFraction }
    ensures chosen { IfOk result (IsChosen choice left right) }
    ensures fraction { IfOk result (λ r. IfSome r IsFraction) }
    ensures overflow { IfErr result (IsOverflowIn (LeavesInChoice choice left right)) }
{
    match choice {
        Choice::Greater => greater(alloc, left, right),
        Choice::Lesser => match right {
            None => Ok(left),
            Some(fraction) => lesser(alloc, left, fraction),
        },
    }
}

/// Whether the second of two bounds is taken, if their words tell.
#[inline]
pub(crate) fn picked(choice: Choice, left: i64, right: i64) -> Option<bool>
    requires { IsWithinWords left }
    ensures pick { IsPick choice left right result }
    ensures told { result ≡ Some true → right ≢ other }
{
    match choice {
        Choice::Lesser => compared(right, left),
        Choice::Greater => compared(left, right),
    }
}

/// Whether the second bound is at most the first.
pub(crate) fn covers(
    alloc: Global,
    left: Option<Fraction>,
    right: Option<Fraction>,
) -> Result<bool, ConvErr>
    requires left { IfSome left IsFraction }
    requires right { IfSome right IsFraction }
    ensures covers { IfOk result (λ r. IsTrue r ↔ IsCovered left right) }
    ensures overflow { IfErr result (IsOverflowIn (LeavesInBoth left right)) }
{
    let Some(first) = left else {
        return Ok(true);
    };
    let Some(second) = right else {
        return Ok(false);
    };
    Ok(!is_below(alloc, first, second)?)
}
