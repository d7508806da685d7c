//! Sets that grow.
ghost use Rattle.std.specs.Prelude.{◌≡◌, ◌↔◌, ◌-◌, IfOk, IsTrue};
ghost use Rattle.poly_pair.specs.declared.topology.Topology.{Topology};
ghost use Rattle.set_laws.specs.GeneratorLaws.{IsContained};
ghost use Rattle.poly_pair.specs.TopologyLists.{AreGeneratorsFor};
ghost use Rattle.poly_pair.specs.FirstLists.{LacksPoint};
ghost use Rattle.poly_pair.specs.Polyhedra.{IsKept, HaveSamePoints};
ghost use Rattle.lattice_ops.specs.Sets.{hull_work};
ghost use Rattle.lattice_ops.specs.Growing.{IsGrown, IsHullWith, IsGrownBy};
ghost use Rattle.poly_pair.specs.Work.{Converts, added_gens};

use crate::comparing::equal;
use crate::containing::test_in_order;
use crate::rows::rows_fit;
use crate::sets::hull;
use gens_sys::GensSys;
use poly_pair::Poly;
use row_core::{ConvErr, Steps};
use std::alloc::Global;
use std::sync::ledger::Ledger;

/// Whether two closed polyhedra have the same points.
fn same_set(p: &Poly, q: &Poly) -> bool
    requires closed { p.now.topology ≡ Topology.Closed }
    requires topology { p.now.topology ≡ q.now.topology }
    requires dim { p.now.cons.dim ≡ q.now.cons.dim }
    ensures { IsTrue result ↔ HaveSamePoints p.now q.now }
{
    match equal(p, q) {
        Ok(same) => same,
        Err(_) => unreachable!(),
    }
}

/// What the closed polyhedron `p` grows to where the points of `q` are added: the hull of both, or
/// none where that has the points of `p` alone.
///
/// # Errors
///
/// An overflow is one of the conversion of the generator list of both, or of its second list.
pub fn grown<L: Ledger>(
    alloc: Global,
    p: &Poly,
    q: &Poly,
    steps: &mut Steps<L>,
) -> Result<Option<Poly>, ConvErr>
    requires closed { p.now.topology ≡ Topology.Closed }
    requires topology { p.now.topology ≡ q.now.topology }
    requires dim { p.now.cons.dim ≡ q.now.cons.dim }
    ensures grown { IfOk result (IsGrown p.now q.now) }
    ensures conversion { Converts (hull_work p.now q.now) steps.old steps.new result }
{
    let joined = match hull(alloc, p, q, steps) {
        Ok(joined) => joined,
        Err(cause) => return Err(cause),
    };
    let _kept = joined.dim();
    if same_set(&joined, p) {
        return Ok(None);
    }
    Ok(Some(joined))
}

/// Whether all points that the generators span are in the polyhedron, as far as no product leaves
/// the range.
fn includes_spanned(p: &Poly, gens: &GensSys) -> bool
    requires dim { gens.now.dim ≡ p.now.cons.dim }
    requires point { ¬ (LacksPoint gens.now.list) }
    ensures { IsTrue result → IsContained p.now.cons gens.now }
{
    rows_fit(p);
    let _fit = gens.dim();
    match test_in_order(p.cons(), gens, false) {
        Ok(within) => within,
        Err(_) => false,
    }
}

/// The smallest polyhedron of the topology that has the points of `p` and those that the generators
/// span.
fn hull_with<L: Ledger>(p: &Poly, gens: &GensSys, steps: &mut Steps<L>) -> Result<Poly, ConvErr>
    requires dim { gens.now.dim ≡ p.now.cons.dim }
    requires kinds { AreGeneratorsFor p.now.topology gens.now }
    requires point { ¬ (LacksPoint gens.now.list) }
    ensures points { IfOk result (IsHullWith p.now gens.now) }
    ensures kept { IfOk result IsKept }
    ensures conversion { Converts (added_gens p.now gens.now) steps.old steps.new result }
{
    rows_fit(p);
    let _fit = gens.dim();
    let made = p.add_gens_with_point(gens, steps)?;
    rows_fit(&made);
    Ok(made)
}

/// What the closed polyhedron `p` grows to where generators are added, of which one is a point: the
/// smallest that has the points of both, or none where `p` has all points that these span, which is
/// tested first.
///
/// # Errors
///
/// An overflow is one of the conversion of the list of the generators of `p` and then these, or of
/// its second list.
pub fn grown_by<L: Ledger>(
    _alloc: Global,
    p: &Poly,
    gens: &GensSys,
    steps: &mut Steps<L>,
) -> Result<Option<Poly>, ConvErr>
    requires closed { p.now.topology ≡ Topology.Closed }
    requires dim { gens.now.dim ≡ p.now.cons.dim }
    requires kinds { AreGeneratorsFor p.now.topology gens.now }
    requires point { ¬ (LacksPoint gens.now.list) }
    ensures grown { IfOk result (IsGrownBy p.now gens.now) }
    ensures conversion { Converts (added_gens p.now gens.now) steps.old steps.new result }
{
    if includes_spanned(p, gens) {
        return Ok(None);
    }
    let hull = match hull_with(p, gens, steps) {
        Ok(hull) => hull,
        Err(cause) => return Err(cause),
    };
    if same_set(&hull, p) {
        return Ok(None);
    }
    Ok(Some(hull))
}
