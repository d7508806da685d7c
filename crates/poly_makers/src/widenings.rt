//! The command that makes the widening.
ghost use Rattle.std.specs.Prelude.{◌≡◌, false};
ghost use Rattle.poly_pair.specs.declared.topology.Topology.{Topology};
ghost use Rattle.poly_makers.specs.Widening.{widen as make_widening};
ghost use Rattle.line_values.specs.Performed.{IsPerformed};

use lattice_ops::laws::one_answer;
use line_values::{StepErr, refusal_of_pair};
use poly_pair::{Poly, Topology};
use reply_text::Fault;
use row_core::Steps;
use std::alloc::Global;
use std::sync::ledger::Ledger;

/// The widening of the first by the second, which includes it.
pub fn widen<L: Ledger>(
    alloc: Global,
    p: &Poly,
    q: &Poly,
    full: bool,
    steps: &mut Steps<L>,
) -> Result<Poly, StepErr>
    ensures { IsPerformed (make_widening full p.now q.now) result }
{
    if p.topology() != q.topology() {
        return Err(StepErr::Input(Fault::TopologyMismatch));
    }
    if p.topology() != Topology::Closed {
        return Err(StepErr::Input(Fault::NotClosed));
    }
    if p.dim() != q.dim() {
        return Err(StepErr::Input(Fault::DimMismatch));
    }
    if full {
        return Err(StepErr::Input(Fault::TooManyNames));
    }
    widen_if_nested(alloc, p, q, steps)
}

/// The widening of the one by the other, where the test of pairs in order comes to no refusal and
/// there is room.
fn widen_if_nested<L: Ledger>(
    alloc: Global,
    p: &Poly,
    q: &Poly,
    steps: &mut Steps<L>,
) -> Result<Poly, StepErr>
    requires topology { p.now.topology ≡ q.now.topology }
    requires closed { p.now.topology ≡ Topology.Closed }
    requires dim { p.now.cons.dim ≡ q.now.cons.dim }
    ensures { IsPerformed (make_widening false p.now q.now) result }
{
    one_answer();
    let holds = match lattice_ops::contains(q, p) {
        Ok(holds) => holds,
        Err(pair) => return Err(refusal_of_pair(alloc, q.cons(), p.gens(), pair)),
    };
    if !holds {
        return Err(StepErr::Input(Fault::NotNested));
    }
    widening::widen(alloc, p, q, steps).map_err(StepErr::from)
}
