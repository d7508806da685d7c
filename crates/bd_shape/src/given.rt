//! The shape of constraints.
ghost use Rattle.std.specs.Prelude.{◌≡◌, ◌↔◌, ◌+◌, ◌<◌, ◌≤◌, List, ℤ, length, pos, ◌<ℤ◌, Err, MatchBool, IfOk, IfErr, OnOk};
ghost use Rattle.row_core.specs.Points.{IsPoint};
ghost use Rattle.row_core.specs.Range.{InRange};
ghost use Rattle.row_core.specs.Refusals.{IsOverflowIn};
ghost use Rattle.cons_sys.specs.Constraints.{In, constraint_at, row_at};
ghost use Rattle.stored_systems.specs.PointSets.{AreClosed};
ghost use Rattle.poly_pair.specs.declared.topology.TheConstants.{MAX_DIM};
ghost use Rattle.difference_bounds.specs.Tables.{bounds_of};
ghost use Rattle.bd_shape.specs.Shapes.{IsIn};
ghost use Rattle.bd_shape.specs.Forms.{IsDifference};
ghost use Rattle.bd_shape.specs.Given.{IsLowered, HasOther, AreDifferences, HoldsNowhere, IsReading};
ghost use Rattle.bd_shape.specs.Refusals.{LeavesInTaking, LeavesInTwoGiven, LeavesInConstraints, IsRefusalOf};

use crate::forms::{Form, form_of};
use crate::refusal::ShapeErr;
use crate::shape::{Shape, closed};
use cons_sys::{ConKind, ConsSys};
use difference_bounds::{BoundTable, lowest};
use row_core::ConvErr;
use std::alloc::Global;

/// Lowers the bound of place `i` less place `j` to a fraction.
fn take(
    alloc: Global,
    bounds: &mut BoundTable,
    i: usize,
    j: usize,
    num: i128,
    den: i128,
) -> Result<(), ConvErr>
    requires first { i < bounds.old.places }
    requires second { j < bounds.old.places }
    requires num { InRange num }
    requires den { InRange den }
    requires positive { pos 0 <ℤ den }
    ensures places { bounds.new.places ≡ bounds.old.places }
    ensures lowered { OnOk result
        (IsLowered bounds.old bounds.new i j (record { num = num; den = den })) }
    ensures overflow { IfErr result
        (IsOverflowIn
        (LeavesInTaking (bounds_of bounds.old) i j (record { num = num; den = den }))) }
{
    let bound = lowest(num, den);
    bounds.lower(alloc, i, j, bound)
}

/// Takes the bounds that constraint `k` gives, which is that of a difference.
fn take_difference(
    bounds: &mut BoundTable,
    cons: &ConsSys,
    k: usize,
    plus: usize,
    minus: usize,
    factor: i128,
) -> Result<(), ConvErr>
    requires index { k < length cons.now.list }
    requires factor { InRange factor }
    requires difference { IsDifference cons.now.dim (row_at cons.now.list k) plus minus factor }
    requires reading { IsReading cons.now k bounds.old }
    ensures reading { OnOk result (IsReading cons.now (k + 1) bounds.new) }
    ensures overflow { IfErr result (IsOverflowIn (LeavesInTwoGiven cons.now)) }
{
    let alloc = cons.allocator();
    let _old = bounds.places();
    let constant = cons.row(k)[cons.dim()];
    take(alloc, bounds, minus, plus, constant, factor)?;
    let _upper = bounds.places();
    match cons.kind(k) {
        ConKind::Eq => take(alloc, bounds, plus, minus, -constant, factor),
        ConKind::Ge => Ok(()),
        ConKind::Gt => Ok(()),
    }
}

/// Takes the bounds that constraint `k` gives, and answers whether it holds at a point at all.
fn take_constraint(bounds: &mut BoundTable, cons: &ConsSys, k: usize) -> Result<bool, ConvErr>
    requires index { k < length cons.now.list }
    requires differences { AreDifferences cons.now }
    requires reading { IsReading cons.now k bounds.old }
    ensures read { IfOk result
        (λ r. MatchBool r (IsReading cons.now (k + 1) bounds.new)
        (HoldsNowhere cons.now.dim (constraint_at cons.now.list k))) }
    ensures overflow { IfErr result (IsOverflowIn (LeavesInTwoGiven cons.now)) }
{
    let dim = cons.dim();
    let row = cons.row(k);
    match form_of(row, dim) {
        Form::Constant => Ok(cons.kind(k).allows(row[dim])),
        Form::Difference {
            plus,
            minus,
            factor,
        } => {
            take_difference(bounds, cons, k, plus, minus, factor)?;
            Ok(true)
        }
        Form::Other => unreachable!(),
    }
}

/// The shape of constraints of which each bounds a difference or has no variable.
fn shape_of_differences(alloc: Global, cons: &ConsSys) -> Result<Shape, ConvErr>
    requires closed { AreClosed cons.now }
    requires narrow { cons.now.dim ≤ MAX_DIM }
    requires differences { AreDifferences cons.now }
    ensures dim { IfOk result (λ s. s.dim ≡ cons.now.dim) }
    ensures points { IfOk result
        (λ s. (p : List ℤ) → IsIn s p ↔ (IsPoint cons.now.dim p × In cons.now p)) }
    ensures overflow { IfErr result (IsOverflowIn (LeavesInConstraints cons.now)) }
{
    let dim = cons.dim();
    let mut bounds = BoundTable::new(alloc, dim + 1)?;
    for k in 0..cons.len() {
        if !take_constraint(&mut bounds, cons, k)? {
            return Ok(Shape { dim, bounds: None });
        }
    }
    let _kept = bounds.places();
    closed(alloc, dim, bounds)
}

/// Whether each constraint bounds a difference or has no variable.
fn are_differences(cons: &ConsSys) -> bool
    ensures { MatchBool result (AreDifferences cons.now) (HasOther cons.now) }
{
    for k in 0..cons.len() {
        if form_of(cons.row(k), cons.dim()).is_other() {
            return false;
        }
    }
    true
}

/// The shape of the points at which constraints hold, none of which is strict.
///
/// # Errors
///
/// [`ShapeErr::NotDifference`] exactly where a constraint has three or more variables, or
/// two whose coefficients aren't each other's negative. Otherwise two bounds of the same
/// places that constraints give, whose comparison leaves the range, or two least totals
/// whose sum or comparison does.
pub fn shape_from(alloc: Global, cons: &ConsSys) -> Result<Shape, ShapeErr>
    requires closed { AreClosed cons.now }
    requires narrow { cons.now.dim ≤ MAX_DIM }
    ensures dim { IfOk result (λ s. s.dim ≡ cons.now.dim) }
    ensures points { IfOk result
        (λ s. (p : List ℤ) → IsIn s p ↔ (IsPoint cons.now.dim p × In cons.now p)) }
    ensures not_difference { (result ≡ Err ShapeErr.NotDifference) ↔ HasOther cons.now }
    ensures refusal { IfErr result (IsRefusalOf cons.now) }
{
    if !are_differences(cons) {
        return Err(ShapeErr::NotDifference);
    }
    Ok(shape_of_differences(alloc, cons)?)
}
