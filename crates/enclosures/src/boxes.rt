//! The bounds of each variable on a polyhedron.
ghost use Rattle.std.specs.Prelude.{◌≡◌, ◌+◌, ◌^◌, ◌<◌, ◌≤◌, ℕ, List, ℤ, pos, ◌<ℤ◌, length, true, false, IfOk, IfErr, OnOk};
ghost use Rattle.row_core.specs.Range.{InRange, AllInRange};
ghost use Rattle.row_core.specs.Refusals.{IsOverflowIn};
ghost use Rattle.cons_sys.specs.Constraints.{In};
ghost use Rattle.stored_systems.specs.PointSets.{IsWithin};
ghost use Rattle.poly_pair.specs.declared.topology.TheConstants.{MAX_DIM};
ghost use Rattle.optimum.specs.Search.{SeekLeaves};
ghost use Rattle.optimum.specs.Suprema.{IsTrueSup};
ghost use Rattle.enclosures.specs.Boxes.{variable_row, sparse_row, bound_row, bound_kind, IsFractionOf, GainsBound, GainsBounds, IsBox, LeavesInBound, LeavesInBox};

use cons_sys::{ConKind, ConsSys};
use optimum::{Sup, inf, shown, sup};
use poly_pair::Poly;
use row_core::{ConvErr, Memory, PairOver, RowBuf};
use std::alloc::Global;

/// The row of the variable alone.
fn variable_row(alloc: Global, dim: usize, variable: usize) -> Result<RowBuf, Memory>
    requires narrow { dim ≤ MAX_DIM }
    requires variable { variable < dim }
    ensures { IfOk result (λ row. row ≡ variable_row dim variable) }
{
    let mut entries = vec![in alloc; 0i128; dim + 1]?;
    entries[variable] = 1;
    Ok(RowBuf::from_vec(entries))
}

/// The row with a factor of the variable and a constant.
#[tactic(auto, using(crate::proofs::RowValues::sparse_in_range))]
fn sparse_row(
    alloc: Global,
    dim: usize,
    variable: usize,
    factor: i128,
    constant: i128,
) -> Result<RowBuf, Memory>
    requires narrow { dim ≤ MAX_DIM }
    requires variable { variable < dim }
    requires factor { InRange factor }
    requires constant { InRange constant }
    ensures { IfOk result (λ row. row ≡ sparse_row dim variable factor constant) }
{
    let mut entries = vec![in alloc; 0i128; dim + 1]?;
    entries[dim] = constant;
    entries[variable] = factor;
    Ok(RowBuf::from_vec(entries))
}

/// The row that is at least 0 where the variable is at least the fraction, or at most it.
fn bound_row(
    alloc: Global,
    up: bool,
    dim: usize,
    variable: usize,
    num: i128,
    den: i128,
) -> Result<RowBuf, Memory>
    requires narrow { dim ≤ MAX_DIM }
    requires variable { variable < dim }
    requires num { InRange num }
    requires den { InRange den }
    ensures { IfOk result (λ row. row ≡ bound_row up dim variable num den) }
{
    if up {
        sparse_row(alloc, dim, variable, -den, num)
    } else {
        sparse_row(alloc, dim, variable, den, -num)
    }
}

/// The bound of an expression, above or below.
#[tactic(auto, using(crate::proofs::BoxLemmas::answers_in_range))]
fn extremum(up: bool, p: &Poly, row: &[i128]) -> Result<Sup, PairOver>
    requires { length row.now ≡ p.now.cons.dim + 1 }
    ensures bound { IfOk result (IsTrueSup up row.now p.now) }
    ensures in_range { IfOk result IsFractionOf }
    ensures over { IfErr result (SeekLeaves up row.now p.now.gens.dim p.now.gens.list) }
{
    let _kept = (p.dim(), p.gens().dim());
    if up { sup(p, row) } else { inf(p, row) }
}

/// The bound of a variable, above or below.
fn bound(alloc: Global, up: bool, p: &Poly, variable: usize) -> Result<Sup, ConvErr>
    requires { variable < p.now.cons.dim }
    ensures bound { IfOk result (IsTrueSup up (variable_row p.now.cons.dim variable) p.now) }
    ensures in_range { IfOk result IsFractionOf }
    ensures overflow { IfErr result (IsOverflowIn (LeavesInBound up p.now variable)) }
{
    let row = variable_row(alloc, p.dim(), variable)?;
    let gens = p.gens();
    let _dim = gens.dim();
    match extremum(up, p, row.cells()) {
        Ok(answer) => Ok(answer),
        Err(pair) => Err(ConvErr::Overflow(shown(alloc, row, gens, pair)?)),
    }
}

/// What a bound asks of its row.
fn bound_kind(attained: bool) -> ConKind
    ensures { result ≡ bound_kind attained }
{
    if attained { ConKind::Ge } else { ConKind::Gt }
}

/// Appends what an answer says of a variable, if anything.
fn push_bound(
    alloc: Global,
    up: bool,
    variable: usize,
    answer: Sup,
    bounds: &mut ConsSys,
) -> Result<(), Memory>
    requires narrow { bounds.old.dim ≤ MAX_DIM }
    requires variable { variable < bounds.old.dim }
    requires in_range { IsFractionOf answer }
    ensures dim { bounds.new.dim ≡ bounds.old.dim }
    ensures list { OnOk result (GainsBound up bounds.old.dim variable answer bounds.old.list
        bounds.new.list) }
{
    match answer {
        Sup::Empty => Ok(()),
        Sup::Unbounded => Ok(()),
        Sup::At {
            num,
            den,
            attained,
            index: _,
        } => {
            let row = bound_row(alloc, up, bounds.dim(), variable, num, den)?;
            bounds.push_row(row, bound_kind(attained))
        }
    }
}

/// Appends the bounds of a variable: the greatest lower one, and then the least upper one.
fn push_bounds(
    alloc: Global,
    p: &Poly,
    variable: usize,
    bounds: &mut ConsSys,
) -> Result<(), ConvErr>
    requires variable { variable < p.now.cons.dim }
    requires dim { bounds.old.dim ≡ p.now.cons.dim }
    ensures dim { bounds.new.dim ≡ bounds.old.dim }
    ensures list { OnOk result (GainsBounds p.now variable bounds.old.list bounds.new.list) }
    ensures overflow { IfErr result (IsOverflowIn (LeavesInBox p.now)) }
{
    let _narrow = p.dim();
    let low = bound(alloc, false, p, variable)?;
    push_bound(alloc, false, variable, low, bounds)?;
    let high = bound(alloc, true, p, variable)?;
    push_bound(alloc, true, variable, high, bounds)?;
    Ok(())
}

/// The smallest box that includes a polyhedron: of each variable in order the greatest lower bound
/// and then the least upper one, where there are. A bound that no point has is strict. Of the empty
/// set it is the constraint that holds nowhere.
///
/// # Errors
///
/// An overflow shows two generators whose values of a variable can't be compared in the range.
pub fn bounding_box(alloc: Global, p: &Poly) -> Result<ConsSys, ConvErr>
    ensures bounds { IfOk result (IsBox p.now) }
    ensures includes { IfOk result (λ bounds. (v : List ℤ) → IsWithin p.now.cons v → In bounds v) }
    ensures overflow { IfErr result (IsOverflowIn (LeavesInBox p.now)) }
{
    if p.is_empty() {
        return Ok(p.cons().clone()?);
    }
    let mut bounds = ConsSys::new(alloc, p.dim());
    for variable in 0..p.dim() {
        push_bounds(alloc, p, variable, &mut bounds)?;
    }
    Ok(bounds)
}
