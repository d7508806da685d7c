//! Polyhedra of two systems in minimal form, which are brought to canonical form.
ghost use Rattle.std.specs.Prelude.{◌≡◌, ◌+◌, ◌*◌, ◌≤◌, length, None, Ok, IfOk, IfSome, MatchBool};
ghost use Rattle.poly_pair.specs.DoubleDescriptions.{IsOfBoth};
ghost use Rattle.affine_maps.specs.Carrying.{HaveNoLine, IsMinimalPair, IsForming, LeavesInPair, ConvertsForms};
ghost use Rattle.affine_maps.specs.FormedPairs.{AreFormedConstraints, AreFormedGenerators, ConstraintsLeave, GeneratorsLeave, IsFormedPair, IsOfForms};
ghost use Rattle.poly_pair.specs.declared.topology.TheConstants.{MAX_DIM};

use crate::orders::{in_order, moved_table};
use cons_sys::ConsSys;
use gens_sys::{GenKind, GensSys};
use minimise::reduced_parts;
use poly_pair::{Poly, Topology};
use row_core::{Memory, RowList, Steps};
use sat_matrix::SatMatrix;
use std::alloc::Global;
use std::sync::ledger::Ledger;
use stored_systems::{constraint_rows, generator_rows, stored_constraints, stored_generators};

/// Lines or equalities in reduced echelon form, and the other rows reduced by them.
type Forms = (RowList, RowList);

/// The closed polyhedron of constraints and of generators, each in minimal form for what the other
/// admits. Both are brought to reduced echelon form and sorted, and the table, which tells which
/// constraints are 0 on which generators, is moved with them; nothing is converted. Where a
/// combination leaves the range there is no answer of a set with a line, and that of
/// [`Poly::from_both`] of another.
pub(crate) fn from_carried<L: Ledger>(
    alloc: Global,
    cons: &ConsSys,
    gens: &GensSys,
    zeros: &SatMatrix,
    steps: &mut Steps<L>,
) -> Result<Option<Poly>, Memory>
    requires narrow { cons.now.dim ≤ MAX_DIM }
    requires pair { IsMinimalPair cons.now gens.now zeros.now }
    ensures both { IfOk result (λ found. IfSome found (IsOfBoth cons.now gens.now)) }
    ensures conversion { ConvertsForms cons.now gens.now steps.old steps.new result }
{
    let _dim = gens.dim();
    if let Some(made) = carried(alloc, cons, gens, zeros, steps)? {
        return Ok(Some(made));
    }
    if has_line(gens) {
        return Ok(None);
    }
    Poly::from_both(alloc, cons, gens, zeros, steps)
}

/// Whether some generator is a line.
fn has_line(gens: &GensSys) -> bool
    ensures { MatchBool result (¬ (HaveNoLine gens.now.list)) (HaveNoLine gens.now.list) }
{
    for index in 0..gens.len() {
        if gens.kind(index) == GenKind::Line {
            return true;
        }
    }
    false
}

/// The closed polyhedron of constraints and generators in minimal form, which are brought to
/// canonical form, their table with them. There is no answer where a combination leaves the range.
fn carried<L: Ledger>(
    alloc: Global,
    cons: &ConsSys,
    gens: &GensSys,
    zeros: &SatMatrix,
    steps: &mut Steps<L>,
) -> Result<Option<Poly>, Memory>
    requires narrow { cons.now.dim ≤ MAX_DIM }
    requires pair { IsMinimalPair cons.now gens.now zeros.now }
    ensures both { IfOk result (λ found. IfSome found (IsOfBoth cons.now gens.now)) }
    ensures forming { IsForming cons.now gens.now steps.old steps.new }
    ensures left { result ≡ Ok None → LeavesInPair cons.now gens.now }
{
    let dim = cons.dim();
    prove!(gens.dim() == dim);
    let Some(bounds) = formed_constraints(alloc, cons, steps)? else {
        return Ok(None);
    };
    let Some(spans) = formed_generators(alloc, gens, steps)? else {
        return Ok(None);
    };
    let made = pair_of_forms(alloc, dim, bounds, spans, zeros)?;
    prove!(made.dim() == dim);
    Ok(Some(made))
}

/// The equalities of constraints in reduced echelon form, and the other rows reduced by them, if no
/// combination leaves the range.
fn formed_constraints<L: Ledger>(
    alloc: Global,
    cons: &ConsSys,
    steps: &mut Steps<L>,
) -> Result<Option<Forms>, Memory>
    ensures formed { IfOk result (λ found. IfSome found (AreFormedConstraints cons.now)) }
    ensures left { result ≡ Ok None → ConstraintsLeave cons.now }
    ensures no_fewer { steps.old ≤ steps.new }
    ensures counted { steps.new ≤
        steps.old + 2 * (length cons.now.list * (cons.now.dim + 1)) }
{
    let _dim = cons.dim();
    let equalities = constraint_rows(alloc, cons, true)?;
    let inequalities = constraint_rows(alloc, cons, false)?;
    reduced_parts(alloc, equalities, inequalities, steps)
}

/// The lines of generators in reduced echelon form, and the others reduced by them, if no
/// combination leaves the range.
fn formed_generators<L: Ledger>(
    alloc: Global,
    gens: &GensSys,
    steps: &mut Steps<L>,
) -> Result<Option<Forms>, Memory>
    ensures formed { IfOk result (λ found. IfSome found (AreFormedGenerators gens.now)) }
    ensures left { result ≡ Ok None → GeneratorsLeave gens.now }
    ensures no_fewer { steps.old ≤ steps.new }
    ensures counted { steps.new ≤
        steps.old + 2 * (length gens.now.list * (gens.now.dim + 1)) }
{
    let _dim = gens.dim();
    let lines = generator_rows(alloc, gens, true)?;
    let rays = generator_rows(alloc, gens, false)?;
    reduced_parts(alloc, lines, rays, steps)
}

/// The closed polyhedron of two systems that are canonical but for order, and of the table of their
/// zeros.
fn pair_of_forms(
    alloc: Global,
    dim: usize,
    bounds: Forms,
    spans: Forms,
    zeros: &SatMatrix,
) -> Result<Poly, Memory>
    requires narrow { dim ≤ MAX_DIM }
    requires pair { IsFormedPair dim bounds.0 bounds.1 spans.0 spans.1 zeros.now }
    ensures { IfOk result (IsOfForms dim bounds.0 bounds.1 spans.0 spans.1) }
{
    let (_height, _breadth) = (zeros.len(), zeros.columns());
    let (equalities, inequalities) = bounds;
    let (lines, rays) = spans;
    let (inequalities, rows) = in_order(alloc, 1 + equalities.len(), inequalities)?;
    let (rays, columns) = in_order(alloc, lines.len(), rays)?;
    let table = moved_table(alloc, zeros, &rows, &columns)?;
    let cons = stored_constraints(alloc, dim, equalities, inequalities)?;
    let gens = stored_generators(alloc, dim, lines, rays)?;
    Ok(Poly::from_pair(Topology::Closed, cons, gens, table))
}
