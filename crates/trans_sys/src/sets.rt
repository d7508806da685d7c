//! Lists of sets, one for each location.
ghost use Rattle.std.specs.Prelude.{◌≡◌, ◌<◌, ◌≤◌, length, slice_get, Some, All, IfOk};
ghost use Rattle.poly_pair.specs.declared.topology.Topology.TheVariants.{Closed};
ghost use Rattle.poly_pair.specs.declared.topology.TheConstants.{MAX_DIM};
ghost use Rattle.poly_pair.specs.Polyhedra.{IsEmpty};
ghost use Rattle.poly_pair.specs.ClosedPolyhedra.{IsClosedOver};

use poly_pair::{MAX_DIM, Poly, Topology};
use row_core::Memory;
use std::alloc::Global;

/// So many empty closed polyhedra of a dimension.
pub fn empty_sets(alloc: Global, dim: usize, count: usize) -> Result<Vec<Poly>, Memory>
    requires { dim ≤ MAX_DIM }
    ensures count { IfOk result (λ sets. length sets.items ≡ count) }
    ensures empty { IfOk result (λ sets. All (IsEmpty Closed dim) sets.items) }
    ensures closed { IfOk result (λ sets. All (IsClosedOver dim) sets.items) }
{
    let mut sets = Vec::new(alloc);
    for _ in 0..count {
        let set = Poly::empty(alloc, Topology::Closed, dim)?;
        let _kept = set.dim();
        sets.push(set)?;
    }
    Ok(sets)
}

/// Lends the set of a location.
#[inline]
pub fn set_of(sets: &[Poly], location: usize) -> &Poly
    requires { location < length sets.now }
    ensures { slice_get sets.now location ≡ Some result.now }
{
    &sets[location]
}
