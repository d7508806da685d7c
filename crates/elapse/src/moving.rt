//! The time elapse of two polyhedra.
ghost use Rattle.std.specs.Prelude.{◌≡◌, [], IfOk};
ghost use Rattle.elapse.specs.Elapses.{IsElapse, AreStoredOfElapse, AreStoredOfList, ConvertsElapse};

use crate::directions::directions;
use poly_pair::Poly;
use poly_pair::laws::kept_is_pair;
use row_core::{ConvErr, Steps};
use std::alloc::Global;
use std::sync::ledger::Ledger;

/// The time elapse of two polyhedra that have points.
fn moved<L: Ledger>(
    alloc: Global,
    p: &Poly,
    q: &Poly,
    steps: &mut Steps<L>,
) -> Result<Poly, ConvErr>
    requires same_topology { q.now.topology ≡ p.now.topology }
    requires same_dim { q.now.cons.dim ≡ p.now.cons.dim }
    requires some { ¬ (p.now.gens.list ≡ []) }
    requires moving { ¬ (q.now.gens.list ≡ []) }
    ensures points { IfOk result (IsElapse p.now q.now) }
    ensures stored { IfOk result (AreStoredOfList p.now q.now) }
    ensures conversion { ConvertsElapse p.now q.now steps.old steps.new result }
{
    kept_is_pair();
    prove!(p.gens().dim() == p.dim());
    prove!(q.gens().dim() == q.dim());
    let moves = directions(alloc, q.gens())?;
    let gens = p.gens().followed_by(&moves)?;
    prove!(gens.dim() == p.dim());
    match Poly::from_gens_with_point(alloc, p.topology(), &gens, steps) {
        Ok(poly) => {
            prove!(poly.cons().dim() == p.dim());
            Ok(poly)
        }
        Err(cause) => Err(cause),
    }
}

/// The smallest polyhedron of the topology that includes all `x + t*y` with x in `p`, y in `q` and
/// t a fraction of at least 0: that of the generators of `p` and of the directions of `q`. It is
/// empty where `p` or `q` is.
///
/// # Errors
///
/// An overflow is one of the conversion of the list of these generators, or of its second list.
pub fn time_elapse<L: Ledger>(
    alloc: Global,
    p: &Poly,
    q: &Poly,
    steps: &mut Steps<L>,
) -> Result<Poly, ConvErr>
    requires same_topology { q.now.topology ≡ p.now.topology }
    requires same_dim { q.now.cons.dim ≡ p.now.cons.dim }
    ensures points { IfOk result (IsElapse p.now q.now) }
    ensures stored { IfOk result (AreStoredOfElapse p.now q.now) }
    ensures conversion { ConvertsElapse p.now q.now steps.old steps.new result }
{
    if p.is_empty() {
        return Ok(p.try_copy()?);
    }
    if q.is_empty() {
        return Ok(q.try_copy()?);
    }
    moved(alloc, p, q, steps)
}
