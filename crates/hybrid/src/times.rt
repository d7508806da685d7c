//! What time does to a set.
ghost use Rattle.std.specs.Prelude.{◌≡◌, ◌≤◌, IfOk, IfErr};
ghost use Rattle.poly_pair.specs.Polyhedra.{HasNoPoint};
ghost use Rattle.poly_pair.specs.ClosedPolyhedra.{IsClosedOver};
ghost use Rattle.row_core.specs.Refusals.{IsOverflowIn};
ghost use Rattle.hybrid.specs.Steps.{IsFlown, IsTimePost, LeavesOnFlow, LeavesOnTime};
ghost use Rattle.hybrid.specs.Conversions.{ConvertsFlow, ConvertsTime};

use crate::parts::part_in;
use elapse::time_elapse;
use poly_pair::Poly;
use row_core::{ConvErr, Steps};
use std::alloc::Global;
use std::sync::ledger::Ledger;

/// The states of the invariant that those of the set come to as time passes.
fn flown<L: Ledger>(
    alloc: Global,
    start: &Poly,
    inv: &Poly,
    flow: &Poly,
    steps: &mut Steps<L>,
) -> Result<Poly, ConvErr>
    requires start { IsClosedOver inv.now.cons.dim start.now }
    requires inv { IsClosedOver inv.now.cons.dim inv.now }
    requires flow { IsClosedOver inv.now.cons.dim flow.now }
    ensures flown { IfOk result (IsFlown start.now inv.now flow.now) }
    ensures overflow { IfErr result (IsOverflowIn (LeavesOnFlow start.now inv.now flow.now)) }
    ensures no_fewer { steps.old ≤ steps.new }
    ensures conversion { ConvertsFlow start.now inv.now flow.now steps.old steps.new result }
{
    let elapsed = match time_elapse(alloc, start, flow, steps) {
        Ok(elapsed) => elapsed,
        Err(cause) => return Err(cause),
    };
    let _kept = elapsed.dim();
    part_in(alloc, inv, &elapsed, steps)
}

/// The states that those of the set in the invariant come to inside the invariant as time passes.
pub(crate) fn time_post<L: Ledger>(
    alloc: Global,
    set: &Poly,
    inv: &Poly,
    flow: &Poly,
    steps: &mut Steps<L>,
) -> Result<Poly, ConvErr>
    requires set { IsClosedOver inv.now.cons.dim set.now }
    requires inv { IsClosedOver inv.now.cons.dim inv.now }
    requires flow { IsClosedOver inv.now.cons.dim flow.now }
    ensures post { IfOk result (IsTimePost set.now inv.now flow.now) }
    ensures overflow { IfErr result (IsOverflowIn (LeavesOnTime set.now inv.now flow.now)) }
    ensures no_fewer { steps.old ≤ steps.new }
    ensures conversion { ConvertsTime set.now inv.now flow.now steps.old steps.new result }
{
    let start = match part_in(alloc, set, inv, steps) {
        Ok(start) => start,
        Err(cause) => return Err(cause),
    };
    if flow.is_empty() {
        return Ok(start);
    }
    flown(alloc, &start, inv, flow, steps)
}
