//! The commands that make a polyhedron of two others, or of one and further variables.
ghost use Rattle.std.specs.Prelude.{◌≡◌, ◌+◌, ◌<◌, ◌≤◌, MatchOption, IfOk, IfErr, Bool};
ghost use Rattle.row_core.specs.Refusals.{IsOverflowIn};
ghost use Rattle.poly_pair.specs.declared.topology.TheConstants.{MAX_DIM};
ghost use Rattle.line_values.specs.Meaning.{room};
ghost use Rattle.line_values.specs.Order.{IsFirst};
ghost use Rattle.poly_makers.specs.Operators.{operated, fitting, Fits, IsSetBy, IsStoredBy, LeavesBy, extended, IsExtensionBy, IsStoredOfExtension, LeavesInExtension};
ghost use Rattle.line_values.specs.Performed.{IsPerformed};

use line_values::StepErr;
use poly_pair::{MAX_DIM, Poly};
use reply_text::Fault;
use row_core::{ConvErr, Steps};
use script_text::{Extension, Operator};
use std::alloc::Global;
use std::sync::ledger::Ledger;

/// The set that the operator makes of two others, where they fit it.
pub fn of_two<L: Ledger>(
    alloc: Global,
    op: Operator,
    p: &Poly,
    q: &Poly,
    full: bool,
    steps: &mut Steps<L>,
) -> Result<Poly, StepErr>
    ensures { IsPerformed (operated op full p.now q.now) result }
{
    if let Some(fault) = misfit(op, p, q) {
        return Err(StepErr::Input(fault));
    }
    if full {
        return Err(StepErr::Input(Fault::TooManyNames));
    }
    operate(alloc, op, p, q, steps).map_err(StepErr::from)
}

/// The first fault of two operands, if they don't fit the operator.
fn misfit(op: Operator, p: &Poly, q: &Poly) -> Option<Fault>
    ensures { MatchOption result (Fits op p.now q.now)
        (λ fault. (full : Bool) → IsFirst (fitting op p.now q.now (room full)) fault) }
{
    if p.topology() != q.topology() {
        return Some(Fault::TopologyMismatch);
    }
    match op {
        Operator::Concat => {
            if p.dim() + q.dim() > MAX_DIM {
                return Some(Fault::TooManyDims);
            }
        }
        Operator::Meet | Operator::Hull | Operator::Elapse => {
            if p.dim() != q.dim() {
                return Some(Fault::DimMismatch);
            }
        }
    }
    None
}

/// The set that the operator makes of two others.
fn operate<L: Ledger>(
    alloc: Global,
    op: Operator,
    p: &Poly,
    q: &Poly,
    steps: &mut Steps<L>,
) -> Result<Poly, ConvErr>
    requires { Fits op p.now q.now }
    ensures points { IfOk result (IsSetBy op p.now q.now) }
    ensures stored { IfOk result (IsStoredBy op p.now q.now) }
    ensures overflow { IfErr result (IsOverflowIn (LeavesBy op p.now q.now)) }
{
    match op {
        Operator::Meet => lattice_ops::meet(alloc, p, q, steps),
        Operator::Hull => lattice_ops::hull(alloc, p, q, steps),
        Operator::Concat => dimensions::concat(alloc, p, q, steps),
        Operator::Elapse => elapse::time_elapse(alloc, p, q, steps),
    }
}

/// The number of further variables, where the dimension with them is within the limit.
fn more_dims(dim: usize, n: u64) -> Option<usize>
    requires { dim ≤ MAX_DIM }
    ensures { MatchOption result (MAX_DIM < dim + n)
        (λ count. (count ≡ n) × (dim + count ≤ MAX_DIM)) }
{
    if n > (MAX_DIM - dim) as u64 {
        return None;
    }
    Some(n as usize)
}

/// The polyhedron with further variables, which are free or 0.
pub fn extend<L: Ledger>(
    alloc: Global,
    by: Extension,
    p: &Poly,
    n: u64,
    full: bool,
    steps: &mut Steps<L>,
) -> Result<Poly, StepErr>
    ensures { IsPerformed (extended by full n p.now) result }
{
    let Some(count) = more_dims(p.dim(), n) else {
        return Err(StepErr::Input(Fault::TooManyDims));
    };
    if full {
        return Err(StepErr::Input(Fault::TooManyNames));
    }
    extension(alloc, by, p, count, steps).map_err(StepErr::from)
}

/// The polyhedron with so many further variables.
fn extension<L: Ledger>(
    alloc: Global,
    by: Extension,
    p: &Poly,
    count: usize,
    steps: &mut Steps<L>,
) -> Result<Poly, ConvErr>
    requires { p.now.cons.dim + count ≤ MAX_DIM }
    ensures points { IfOk result (IsExtensionBy by count p.now) }
    ensures stored { IfOk result (IsStoredOfExtension by count p.now) }
    ensures overflow { IfErr result (IsOverflowIn (LeavesInExtension by count p.now)) }
{
    match by {
        Extension::Embed => dimensions::embed(alloc, p, count, steps),
        Extension::Project => dimensions::project(alloc, p, count, steps),
    }
}
