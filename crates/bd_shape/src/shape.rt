//! A shape.
ghost use Rattle.std.specs.Prelude.{◌≡◌, ◌↔◌, ◌+◌, ◌≤◌, List, ℤ, None, Some, IfOk, IfErr};
ghost use Rattle.row_core.specs.Points.{IsPoint};
ghost use Rattle.poly_pair.specs.declared.topology.TheConstants.{MAX_DIM};
ghost use Rattle.difference_bounds.specs.Tables.{HasZeros, bounds_of};
ghost use Rattle.row_core.specs.Refusals.{IsOverflowIn};
ghost use Rattle.difference_bounds.specs.Overflows.{LeavesInClosing};
ghost use Rattle.bd_shape.specs.Shapes.{IsIn, IsInBounds, IsShape};

use difference_bounds::BoundTable;
use row_core::{ConvErr, Memory};
use std::alloc::Global;
use std::marker::Model;

/// The points at which bounds of variables and of differences of two hold. Each bound is the
/// greatest difference of the set.
pub struct Shape {
    pub(crate) dim: usize,
    pub(crate) bounds: Option<BoundTable>,
}

// Written by hand, so that a function that drops a shape makes one call.
impl Drop for Shape {
    fn drop(self) {
        let Self { dim: _, bounds: _ } = self;
    }
}

impl Model for Shape {
    ghost use Rattle.bd_shape.specs.Shapes.{DifferenceShape, IsShape};

    ghost Value = { DifferenceShape };

    ghost view = { λ s. record { dim = s.dim; bounds = s.bounds } };

    ghost invariant = { λ s. IsShape (record { dim = s.dim; bounds = s.bounds }) };
}

impl Shape {
    /// The number of variables.
    pub fn dim(&self) -> usize
        ensures value { result ≡ self.now.dim }
        ensures narrow { self.now.dim ≤ MAX_DIM }
        ensures kept { IsShape self.now }
    {
        self.dim
    }

    /// A copy.
    pub fn try_copy(&self, alloc: Global) -> Result<Shape, Memory>
        ensures { IfOk result (λ s. s ≡ self.now) }
    {
        let bounds = match &self.bounds {
            None => None,
            Some(bounds) => Some(bounds.try_copy(alloc)?),
        };
        Ok(Shape {
            dim: self.dim,
            bounds,
        })
    }
}

/// The shape of the points that meet the bounds.
pub(crate) fn closed(alloc: Global, dim: usize, mut bounds: BoundTable) -> Result<Shape, ConvErr>
    requires narrow { dim ≤ MAX_DIM }
    requires places { bounds.places ≡ dim + 1 }
    requires zeros { HasZeros (bounds_of bounds) (dim + 1) }
    ensures dim { IfOk result (λ s. s.dim ≡ dim) }
    ensures points { IfOk result
        (λ s. (p : List ℤ) → IsIn s p ↔ (IsPoint dim p × IsInBounds (Some bounds) dim p)) }
    ensures overflow { IfErr result (IsOverflowIn (LeavesInClosing (bounds_of bounds) (dim + 1))) }
{
    if bounds.close(alloc)? {
        let _kept = bounds.places();
        return Ok(Shape {
            dim,
            bounds: Some(bounds),
        });
    }
    Ok(Shape { dim, bounds: None })
}
