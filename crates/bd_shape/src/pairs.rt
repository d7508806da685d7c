//! Two shapes of one dimension.
ghost use Rattle.std.specs.Prelude.{◌≡◌, ◌↔◌, IsTrue, IfOk, IfErr};
ghost use Rattle.row_core.specs.Refusals.{IsOverflowIn};
ghost use Rattle.bd_shape.specs.Shapes.{Includes, IsMeet, IsHull};
ghost use Rattle.bd_shape.specs.Overflows.{LeavesInHull, LeavesInInclusion, LeavesInMeet};

use crate::shape::{Shape, closed};
use row_core::ConvErr;
use std::alloc::Global;

/// The shape of the points that are in both.
///
/// # Errors
///
/// A bound of the second shape and then that of the first of the same places, whose comparison
/// leaves the range, or two least totals whose sum or comparison does.
pub fn shape_meet(alloc: Global, s: &Shape, t: &Shape) -> Result<Shape, ConvErr>
    requires { t.now.dim ≡ s.now.dim }
    ensures dim { IfOk result (λ r. r.dim ≡ s.now.dim) }
    ensures points { IfOk result (IsMeet s.now t.now) }
    ensures overflow { IfErr result (IsOverflowIn (LeavesInMeet s.now t.now)) }
{
    let dim = s.dim;
    let Some(left) = &s.bounds else {
        return Ok(Shape { dim, bounds: None });
    };
    let Some(right) = &t.bounds else {
        return Ok(Shape { dim, bounds: None });
    };
    let mut bounds = left.try_copy(alloc)?;
    bounds.lower_all(alloc, right)?;
    closed(alloc, dim, bounds)
}

/// The smallest shape that includes both.
///
/// # Errors
///
/// A bound of the first shape and then that of the second of the same places, whose comparison
/// leaves the range.
pub fn shape_hull(alloc: Global, s: &Shape, t: &Shape) -> Result<Shape, ConvErr>
    requires { t.now.dim ≡ s.now.dim }
    ensures dim { IfOk result (λ r. r.dim ≡ s.now.dim) }
    ensures points { IfOk result (IsHull s.now t.now) }
    ensures overflow { IfErr result (IsOverflowIn (LeavesInHull s.now t.now)) }
{
    let Some(left) = &s.bounds else {
        return Ok(t.try_copy(alloc)?);
    };
    let Some(right) = &t.bounds else {
        return Ok(s.try_copy(alloc)?);
    };
    let mut bounds = left.try_copy(alloc)?;
    bounds.raise_all(alloc, right)?;
    let _kept = bounds.places();
    Ok(Shape {
        dim: s.dim,
        bounds: Some(bounds),
    })
}

/// Whether each point of the second shape is in the first.
///
/// # Errors
///
/// A bound of the first shape and then that of the second of the same places, whose comparison
/// leaves the range, where the bounds of all earlier places answer yes.
pub fn shape_contains(alloc: Global, s: &Shape, t: &Shape) -> Result<bool, ConvErr>
    requires { t.now.dim ≡ s.now.dim }
    ensures contains { IfOk result (λ r. IsTrue r ↔ Includes s.now t.now) }
    ensures overflow { IfErr result (IsOverflowIn (LeavesInInclusion s.now t.now)) }
{
    let Some(inner) = &t.bounds else {
        return Ok(true);
    };
    let Some(outer) = &s.bounds else {
        return Ok(false);
    };
    outer.covers(alloc, inner)
}
