//! Stored pairs with more variables, which are 0 or free.
ghost use Rattle.std.specs.Prelude.{◌≡◌, ◌+◌, ◌-◌, ◌^◌, ◌<◌, ◌≤◌, IfOk, IfSome};
ghost use Rattle.gens_sys.specs.Generators.{FitDimension};
ghost use Rattle.poly_pair.specs.Parts.{AreStoredOfRows, AreStoredOfGenerators};
ghost use Rattle.poly_pair.specs.Polyhedra.{IsOfConstraints, IsOfGenerators};
ghost use Rattle.poly_pair.specs.TopologyLists.{constraints_of};
ghost use Rattle.poly_pair.specs.declared.topology.TheConstants.{MAX_DIM};
ghost use Rattle.mapped_systems.specs.Maps.{with_zeros};
ghost use Rattle.mapped_systems.specs.MappedLists.{IsMappedSystem, IsPulledSystem};
ghost use Rattle.dimensions.specs.AddedVariables.{AreZeroBehind, AreFreeBehind, HasTrueRows, HasTrueColumns, zero_equalities, axis_lines};
ghost use Rattle.dimensions.specs.PairConversions.{ConvertsZeroPair, ConvertsFreePair};

use cons_sys::{ConKind, ConsSys};
use gens_sys::{GenKind, GensSys};
use mapped_systems::{padded_constraints, padded_generators};
use poly_pair::{MAX_DIM, Poly};
use row_core::{Memory, Steps};
use sat_matrix::SatMatrix;
use std::alloc::Global;
use std::sync::ledger::Ledger;
use stored_systems::axis;

/// The equalities that say of the variables behind the first `dim`, `count` in number, that they
/// are 0.
fn zero_equalities(alloc: Global, dim: usize, count: usize) -> Result<ConsSys, Memory>
    requires narrow { dim + count < 2 ^ 32 - 2 }
    ensures dim { IfOk result (λ cons. cons.dim ≡ dim + count) }
    ensures list { IfOk result (λ cons. cons.list ≡ zero_equalities dim count) }
{
    let mut cons = ConsSys::with_room(alloc, dim + count, count)?;
    for place in 0..count {
        cons.push_primitive(&axis(alloc, dim + count, dim + place)?, ConKind::Eq)?;
    }
    Ok(cons)
}

/// The axes of the variables behind the first `dim`, `count` in number, as lines.
fn axis_lines(alloc: Global, dim: usize, count: usize) -> Result<GensSys, Memory>
    requires narrow { dim + count < 2 ^ 32 - 2 }
    ensures dim { IfOk result (λ gens. gens.dim ≡ dim + count) }
    ensures list { IfOk result (λ gens. gens.list ≡ axis_lines dim count) }
{
    let mut gens = GensSys::with_room(alloc, dim + count, count)?;
    for place in 0..count {
        gens.push_primitive(&axis(alloc, dim + count, dim + place)?, GenKind::Line)?;
    }
    Ok(gens)
}

/// The constraints with more variables behind, which are 0.
fn zero_behind(alloc: Global, cons: &ConsSys, count: usize) -> Result<ConsSys, Memory>
    requires narrow { cons.now.dim + count < 2 ^ 32 - 2 }
    ensures { IfOk result (AreZeroBehind count cons.now) }
{
    let front = padded_constraints(alloc, cons, cons.dim(), count)?;
    let back = zero_equalities(alloc, cons.dim(), count)?;
    front.followed_by(&back)
}

/// The generators with more variables behind, which are free.
fn free_behind(alloc: Global, gens: &GensSys, count: usize) -> Result<GensSys, Memory>
    requires narrow { gens.now.dim + count < 2 ^ 32 - 2 }
    ensures fit { FitDimension gens.now }
    ensures system { IfOk result (AreFreeBehind count gens.now) }
{
    let front = padded_generators(alloc, gens, count)?;
    let back = axis_lines(alloc, gens.dim(), count)?;
    front.followed_by(&back)
}

/// The table with more rows, all true.
fn with_true_rows(table: &SatMatrix, count: usize) -> Result<SatMatrix, Memory>
    ensures { IfOk result (HasTrueRows count table.now) }
{
    let mut longer = table.clone()?;
    longer.reserve(count)?;
    for _row in 0..count {
        longer.push_reserved(true);
    }
    Ok(longer)
}

/// The table with more columns, all true.
fn with_true_columns(table: &SatMatrix, count: usize) -> Result<SatMatrix, Memory>
    ensures { IfOk result (HasTrueColumns count table.now) }
{
    let _columns = table.columns();
    let turned = table.transpose()?;
    with_true_rows(&turned, count)?.transpose()
}

/// The polyhedron of the generators of a closed set with a point that have more variables behind,
/// all 0. Its constraints are those of the set, and that these variables are 0. There is no answer
/// elsewhere, or where a number leaves the range.
pub(crate) fn projected_pair<L: Ledger>(
    alloc: Global,
    p: &Poly,
    count: usize,
    gens: &GensSys,
    steps: &mut Steps<L>,
) -> Result<Option<Poly>, Memory>
    requires narrow { p.now.cons.dim + count ≤ MAX_DIM }
    requires mapped { IsMappedSystem (with_zeros p.now.cons.dim count) (p.now.cons.dim + count)
        p.now.gens gens.now }
    ensures points { IfOk result (λ found.
        IfSome found (IsOfGenerators p.now.topology gens.now)) }
    ensures stored { IfOk result (λ found.
        IfSome found (AreStoredOfGenerators p.now.topology gens.now)) }
    ensures conversion { ConvertsZeroPair count p.now steps.old steps.new result }
{
    let _dim = p.dim();
    let _vectors = p.gens().dim();
    if !p.can_start() {
        return Ok(None);
    }
    let cons = zero_behind(alloc, p.cons(), count)?;
    let zeros = with_true_rows(p.zeros(), count)?;
    Poly::from_both(alloc, &cons, gens, &zeros, steps)
}

/// The polyhedron of the constraints of a closed set with a point that have more variables behind,
/// which are free. Its generators are those of the set, and the axes of these variables. There is
/// no answer elsewhere, or where a number leaves the range.
pub(crate) fn embedded_pair<L: Ledger>(
    alloc: Global,
    p: &Poly,
    count: usize,
    cons: &ConsSys,
    steps: &mut Steps<L>,
) -> Result<Option<Poly>, Memory>
    requires narrow { p.now.cons.dim + count ≤ MAX_DIM }
    requires pulled { IsPulledSystem (with_zeros p.now.cons.dim count) (p.now.cons.dim + count)
        p.now.cons cons.now }
    ensures points { IfOk result (λ found.
        IfSome found (IsOfConstraints p.now.topology cons.now)) }
    ensures stored { IfOk result (λ found. IfSome found
        (AreStoredOfRows p.now.topology cons.now.dim (constraints_of p.now.topology cons.now))) }
    ensures conversion { ConvertsFreePair p.now cons.now steps.old steps.new result }
{
    let _dim = p.dim();
    if !p.can_start() {
        return Ok(None);
    }
    let gens = free_behind(alloc, p.gens(), count)?;
    let zeros = with_true_columns(p.zeros(), count)?;
    Poly::from_both(alloc, cons, &gens, &zeros, steps)
}
