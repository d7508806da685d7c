//! What a transition does to a set.
ghost use Rattle.std.specs.Prelude.{◌≡◌, ◌+◌, ◌*◌, ◌≤◌, IfOk, IfErr};
ghost use Rattle.poly_pair.specs.declared.topology.TheConstants.{MAX_DIM};
ghost use Rattle.poly_pair.specs.ClosedPolyhedra.{IsClosedOver};
ghost use Rattle.row_core.specs.Refusals.{IsOverflowIn};
ghost use Rattle.hybrid.specs.Steps.{IsJumpPost, LeavesOnJump};
ghost use Rattle.hybrid.specs.Conversions.{ConvertsJump};

use crate::parts::part_in;
use crate::posts::post;
use poly_pair::Poly;
use row_core::{ConvErr, Steps};
use std::alloc::Global;
use std::sync::ledger::Ledger;

/// The successors, in the target's invariant, of the states of the set in the source's.
pub(crate) fn jump_post<L: Ledger>(
    alloc: Global,
    set: &Poly,
    inv: &Poly,
    relation: &Poly,
    target_inv: &Poly,
    steps: &mut Steps<L>,
) -> Result<Poly, ConvErr>
    requires narrow { target_inv.now.cons.dim + target_inv.now.cons.dim ≤ MAX_DIM }
    requires set { IsClosedOver target_inv.now.cons.dim set.now }
    requires inv { IsClosedOver target_inv.now.cons.dim inv.now }
    requires relation { IsClosedOver (2 * target_inv.now.cons.dim) relation.now }
    requires target_inv { IsClosedOver target_inv.now.cons.dim target_inv.now }
    ensures post { IfOk result (IsJumpPost set.now inv.now relation.now target_inv.now) }
    ensures overflow { IfErr result
        (IsOverflowIn (LeavesOnJump set.now inv.now relation.now target_inv.now)) }
    ensures no_fewer { steps.old ≤ steps.new }
    ensures conversion { ConvertsJump set.now inv.now relation.now target_inv.now steps.old
        steps.new result }
{
    let start = match part_in(alloc, set, inv, steps) {
        Ok(start) => start,
        Err(cause) => return Err(cause),
    };
    let successors = match post(alloc, &start, relation, steps) {
        Ok(successors) => successors,
        Err(cause) => return Err(cause),
    };
    let _kept = successors.dim();
    part_in(alloc, target_inv, &successors, steps)
}
