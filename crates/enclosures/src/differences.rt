//! What constraints leave of a polyhedron.
ghost use Rattle.std.specs.Prelude.{◌≡◌, ◌+◌, ◌<◌, ◌≤◌, length, IfOk, IfErr};
ghost use Rattle.row_core.specs.Refusals.{IsOverflowIn};
ghost use Rattle.cons_sys.specs.Constraints.{constraint_at};
ghost use Rattle.poly_pair.specs.declared.topology.Topology.TheVariants.{Nnc};
ghost use Rattle.poly_pair.specs.Polyhedra.{IsKept};
ghost use Rattle.enclosures.specs.Ways.{ways};
ghost use Rattle.enclosures.specs.Differences.{IsPart, IsJoinTo, IsDifference, LeavesOnPart, LeavesAt, LeavesInDifference};

use crate::ways::{one_of, ways};
use cons_sys::ConsSys;
use lattice_ops::hull;
use poly_pair::{Poly, Topology};
use row_core::{ConvErr, Steps};
use std::alloc::Global;
use std::sync::ledger::Ledger;

/// The points of a polyhedron at which constraint `index` holds.
fn part<L: Ledger>(
    alloc: Global,
    p: &Poly,
    cons: &ConsSys,
    index: usize,
    steps: &mut Steps<L>,
) -> Result<Poly, ConvErr>
    requires topology { p.now.topology ≡ Nnc }
    requires dim { cons.now.dim ≡ p.now.cons.dim }
    requires index { index < length cons.now.list }
    ensures points { IfOk result (IsPart p.now (constraint_at cons.now.list index)) }
    ensures kept { IfOk result IsKept }
    ensures overflow { IfErr result
        (IsOverflowIn (LeavesOnPart p.now (constraint_at cons.now.list index))) }
{
    let one = one_of(alloc, cons, index)?;
    let made = p.add_cons(&one, steps)?;
    let _kept = made.dim();
    Ok(made)
}

/// The smallest polyhedron that has the points so far and those of a part.
fn joined<L: Ledger>(
    alloc: Global,
    p: &Poly,
    ways: &ConsSys,
    index: usize,
    made: &Poly,
    steps: &mut Steps<L>,
) -> Result<Poly, ConvErr>
    requires topology { p.now.topology ≡ Nnc }
    requires dim { ways.now.dim ≡ p.now.cons.dim }
    requires index { index < length ways.now.list }
    requires made { IsJoinTo p.now ways.now.list index made.now }
    ensures points { IfOk result (IsJoinTo p.now ways.now.list (index + 1)) }
    ensures overflow { IfErr result (IsOverflowIn (LeavesAt p.now ways.now.list index)) }
{
    let _kept = made.dim();
    let part = part(alloc, p, ways, index, steps)?;
    hull(alloc, made, &part, steps)
}

/// The smallest polyhedron that has each point of `p` at which some of the constraints doesn't
/// hold. For each way in which one can fail it has the points of `p` at which it fails so.
///
/// # Errors
///
/// An overflow is one of the conversion of the constraint list of such points, or of the generator
/// list of those of some ways and of the next, or of a second list.
pub fn difference<L: Ledger>(
    alloc: Global,
    p: &Poly,
    cons: &ConsSys,
    steps: &mut Steps<L>,
) -> Result<Poly, ConvErr>
    requires topology { p.now.topology ≡ Nnc }
    requires dim { cons.now.dim ≡ p.now.cons.dim }
    ensures points { IfOk result (IsDifference p.now cons.now) }
    ensures overflow { IfErr result (IsOverflowIn (LeavesInDifference p.now cons.now)) }
{
    let ways = ways(alloc, cons)?;
    let mut made = Poly::empty(alloc, Topology::Nnc, p.dim())?;
    for index in 0..ways.len() {
        made = joined(alloc, p, &ways, index, &made, steps)?;
    }
    Ok(made)
}
