//! Parts of sets in invariants.
ghost use Rattle.std.specs.Prelude.{◌≡◌, IfOk, IfErr};
ghost use Rattle.row_core.specs.Refusals.{IsOverflowIn};
ghost use Rattle.poly_pair.specs.Work.{Converts};
ghost use Rattle.lattice_ops.specs.Sets.{meet_work};
ghost use Rattle.hybrid.specs.Steps.{IsPartIn, LeavesOnMeet};

use lattice_ops::meet;
use poly_pair::Poly;
use row_core::{ConvErr, Steps};
use std::alloc::Global;
use std::sync::ledger::Ledger;

/// The polyhedron of the points that are in both.
pub(crate) fn part_in<L: Ledger>(
    alloc: Global,
    p: &Poly,
    q: &Poly,
    steps: &mut Steps<L>,
) -> Result<Poly, ConvErr>
    requires topology { p.now.topology ≡ q.now.topology }
    requires dim { p.now.cons.dim ≡ q.now.cons.dim }
    ensures part { IfOk result (IsPartIn p.now q.now) }
    ensures overflow { IfErr result (IsOverflowIn (LeavesOnMeet p.now q.now)) }
    ensures conversion { Converts (meet_work p.now q.now) steps.old steps.new result }
{
    match meet(alloc, p, q, steps) {
        Ok(part) => {
            let _kept = part.dim();
            Ok(part)
        }
        Err(cause) => Err(cause),
    }
}
