//! Systems of constraints whose rows are mapped.
ghost use Rattle.std.specs.Prelude.{◌≡◌, ◌+◌, ◌-◌, ◌^◌, ◌<◌, ◌≤◌, length, IfOk, IfErr};
ghost use Rattle.row_core.specs.Range.{InRange, AllInRange};
ghost use Rattle.cons_sys.specs.Constraints.{FitDimension};
ghost use Rattle.mapped_systems.specs.Maps.{pulled_back, with_zeros};
ghost use Rattle.mapped_systems.specs.MappedLists.{IsPulledSystem, IsJoinedSystem};
ghost use Rattle.row_core.specs.Refusals.{IsOverflowIn};
ghost use Rattle.mapped_systems.specs.Refusals.{SomeLeavesInPullback};

use crate::columns::put_with_zeros;
use crate::substitution::put_pulled;
use cons_sys::ConsSys;
use row_core::{ConvErr, Memory, Steps};
use std::alloc::Global;
use std::sync::ledger::Ledger;

/// The constraints that hold at a vector where the given ones hold with the variable replaced.
pub fn preimage_constraints<L: Ledger>(
    alloc: Global,
    cons: &ConsSys,
    var: usize,
    expr: &[i128],
    den: i128,
    steps: &mut Steps<L>,
) -> Result<ConsSys, ConvErr>
    requires var { var < cons.now.dim }
    requires wide { length expr.now ≡ cons.now.dim + 1 }
    requires expr_in_range { AllInRange expr.now }
    requires den_in_range { InRange den }
    ensures fit { FitDimension cons.now }
    ensures system { IfOk result (IsPulledSystem (pulled_back var expr.now den)
        cons.now.dim cons.now) }
    ensures overflow { IfErr result
        (IsOverflowIn (SomeLeavesInPullback var expr.now den cons.now.list)) }
    ensures no_fewer { steps.old ≤ steps.new }
    ensures counted { steps.new ≤ steps.old + length cons.now.list }
{
    let mut pulled = ConsSys::with_room(alloc, cons.dim(), cons.len())?;
    let mut buffer = Vec::with_capacity(alloc, cons.dim() + 1)?;
    for index in 0..cons.len() {
        match put_pulled(&mut buffer, var, expr, den, cons.row(index), steps) {
            Ok(()) => {}
            Err(cause) => return Err(cause),
        }
        pulled.push(&buffer, cons.kind(index))?;
    }
    Ok(pulled)
}

/// The constraints with more variables before a column.
pub fn padded_constraints(
    alloc: Global,
    cons: &ConsSys,
    column: usize,
    count: usize,
) -> Result<ConsSys, Memory>
    requires column { column ≤ cons.now.dim }
    requires narrow { cons.now.dim + count < 2 ^ 32 - 2 }
    ensures { IfOk result (IsPulledSystem (with_zeros column count)
        (cons.now.dim + count) cons.now) }
{
    let mut padded = ConsSys::with_room(alloc, cons.dim() + count, cons.len())?;
    let mut buffer = Vec::with_capacity(alloc, cons.dim() + count + 1)?;
    for index in 0..cons.len() {
        put_with_zeros(&mut buffer, column, count, cons.row(index))?;
        padded.push_primitive(&buffer, cons.kind(index))?;
    }
    Ok(padded)
}

/// The constraints of the one system on the first variables, and those of the other on the
/// variables behind.
pub fn joined_constraints(
    alloc: Global,
    first: &ConsSys,
    second: &ConsSys,
) -> Result<ConsSys, Memory>
    requires narrow { first.now.dim + second.now.dim < 2 ^ 32 - 2 }
    ensures { IfOk result (IsJoinedSystem first.now second.now) }
{
    let front = padded_constraints(alloc, first, first.dim(), second.dim())?;
    let back = padded_constraints(alloc, second, 0, first.dim())?;
    front.followed_by(&back)
}
