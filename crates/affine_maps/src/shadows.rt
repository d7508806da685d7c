//! The points of constraints with some of their columns alone.
ghost use Rattle.std.specs.Prelude.{◌≡◌, ℕ, ◌<◌, ◌≤◌, length, All, IfOk};
ghost use Rattle.poly_pair.specs.TopologyLists.{AreConstraintsFor};
ghost use Rattle.poly_pair.specs.declared.topology.TheConstants.{MAX_DIM};
ghost use Rattle.poly_pair.specs.declared.topology.Topology.TheVariants.{Closed};
ghost use Rattle.poly_pair.specs.Spanning.{BeginsWith, IsSpanningIfAny};
ghost use Rattle.mapped_systems.specs.Maps.{picked};
ghost use Rattle.poly_pair.specs.Work.{ConvertsFirst, cons_work, begun_cons};
ghost use Rattle.affine_maps.specs.Shadows.{IsShadow, IsStoredOfShadow, SpanShadowIfAny, ConvertsSystem, ConvertsShadow};

use cons_sys::ConsSys;
use gens_sys::GensSys;
use mapped_systems::picked_generators;
use poly_pair::{MAX_DIM, Poly, Topology, spanning_generators, spanning_generators_from};
use row_core::{ConvErr, Memory, Steps};
use std::alloc::Global;
use std::sync::ledger::Ledger;

/// What the columns alone make of generators of the points at which constraints hold, if there is
/// such a point.
fn picked_if_any(
    alloc: Global,
    topology: Topology,
    cons: &ConsSys,
    found: Option<GensSys>,
    columns: &[usize],
) -> Result<Option<GensSys>, Memory>
    requires found { IsSpanningIfAny topology cons.now found }
    requires columns { All (λ (j : ℕ). j < cons.now.dim) columns.now }
    requires narrow { length columns.now ≤ MAX_DIM }
    ensures { IfOk result (SpanShadowIfAny topology (picked columns.now cons.now.dim)
        (length columns.now) cons.now) }
{
    let _dim = cons.dim();
    let Some(gens) = found else {
        return Ok(None);
    };
    let mapped = picked_generators(alloc, &gens, columns)?;
    Ok(Some(mapped))
}

/// The polyhedron of what the columns alone make of generators of the points at which constraints
/// hold, if there is such a point.
fn shadow_of_generators<L: Ledger>(
    alloc: Global,
    topology: Topology,
    cons: &ConsSys,
    found: Option<GensSys>,
    columns: &[usize],
    steps: &mut Steps<L>,
) -> Result<Poly, ConvErr>
    requires found { IsSpanningIfAny topology cons.now found }
    requires columns { All (λ (j : ℕ). j < cons.now.dim) columns.now }
    requires narrow { length columns.now ≤ MAX_DIM }
    ensures points { IfOk result (IsShadow topology (picked columns.now cons.now.dim)
        (length columns.now) cons.now) }
    ensures stored { IfOk result (IsStoredOfShadow topology (picked columns.now cons.now.dim)
        (length columns.now) cons.now) }
    ensures conversion { ConvertsSystem topology (picked columns.now cons.now.dim)
        (length columns.now) cons.now steps.old steps.new result }
{
    let generators = picked_if_any(alloc, topology, cons, found, columns)?;
    let Some(mapped) = generators else {
        return Ok(Poly::empty(alloc, topology, columns.len())?);
    };
    Poly::from_gens_with_point(alloc, topology, &mapped, steps)
}

/// The points that those at which constraints hold become where the columns alone are kept, in
/// their order.
///
/// The constraint list is converted, and then the list of the generators that its canonical system
/// stands for, without the other columns.
///
/// # Errors
///
/// An overflow is one of the conversion of the constraint list, or of that of the generators, or of
/// the second list of the latter.
pub fn shadow<L: Ledger>(
    alloc: Global,
    topology: Topology,
    cons: &ConsSys,
    columns: &[usize],
    steps: &mut Steps<L>,
) -> Result<Poly, ConvErr>
    requires kinds { AreConstraintsFor topology cons.now }
    requires columns { All (λ (j : ℕ). j < cons.now.dim) columns.now }
    requires narrow { length columns.now ≤ MAX_DIM }
    ensures points { IfOk result (IsShadow topology (picked columns.now cons.now.dim)
        (length columns.now) cons.now) }
    ensures stored { IfOk result (IsStoredOfShadow topology (picked columns.now cons.now.dim)
        (length columns.now) cons.now) }
    ensures conversion { ConvertsShadow (cons_work topology cons.now) topology
        (picked columns.now cons.now.dim) (length columns.now) cons.now steps.old steps.new
        result }
{
    match spanning_generators(alloc, topology, cons, steps) {
        Ok(found) => shadow_of_generators(alloc, topology, cons, found, columns, steps),
        Err(cause) => Err(cause),
    }
}

/// What [`shadow`] gives on constraints that begin with those of a closed polyhedron, from its
/// stored pair.
///
/// # Errors
///
/// Those of [`shadow`].
pub fn shadow_from<L: Ledger>(
    alloc: Global,
    p: &Poly,
    cons: &ConsSys,
    columns: &[usize],
    steps: &mut Steps<L>,
) -> Result<Poly, ConvErr>
    requires closed { p.now.topology ≡ Closed }
    requires kinds { AreConstraintsFor Closed cons.now }
    requires begins { BeginsWith p.now.cons cons.now }
    requires columns { All (λ (j : ℕ). j < cons.now.dim) columns.now }
    requires narrow { length columns.now ≤ MAX_DIM }
    ensures points { IfOk result (IsShadow Closed (picked columns.now cons.now.dim)
        (length columns.now) cons.now) }
    ensures stored { IfOk result (IsStoredOfShadow Closed (picked columns.now cons.now.dim)
        (length columns.now) cons.now) }
    ensures conversion { ConvertsShadow (begun_cons p.now cons.now) Closed
        (picked columns.now cons.now.dim) (length columns.now) cons.now steps.old steps.new
        result }
{
    match spanning_generators_from(alloc, p, cons, steps) {
        Ok(found) => shadow_of_generators(alloc, Topology::Closed, cons, found, columns, steps),
        Err(cause) => Err(cause),
    }
}

/// Generators of what [`shadow_from`] gives, or nothing where that is empty: those that the
/// canonical system of the constraint list stands for, with the columns alone, without a second
/// conversion.
///
/// # Errors
///
/// An overflow is one of the conversion of the constraint list.
pub fn shadow_generators_from<L: Ledger>(
    alloc: Global,
    p: &Poly,
    cons: &ConsSys,
    columns: &[usize],
    steps: &mut Steps<L>,
) -> Result<Option<GensSys>, ConvErr>
    requires closed { p.now.topology ≡ Closed }
    requires kinds { AreConstraintsFor Closed cons.now }
    requires begins { BeginsWith p.now.cons cons.now }
    requires columns { All (λ (j : ℕ). j < cons.now.dim) columns.now }
    requires narrow { length columns.now ≤ MAX_DIM }
    ensures generators { IfOk result (SpanShadowIfAny Closed (picked columns.now cons.now.dim)
        (length columns.now) cons.now) }
    ensures conversion { ConvertsFirst (begun_cons p.now cons.now) steps.old steps.new result }
{
    match spanning_generators_from(alloc, p, cons, steps) {
        Ok(found) => Ok(picked_if_any(alloc, Topology::Closed, cons, found, columns)?),
        Err(cause) => Err(cause),
    }
}
