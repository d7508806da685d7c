//! Images by maps that give a variable's value up, from the stored pair.
ghost use Rattle.std.specs.Prelude.{◌≡◌, ◌+◌, ◌*◌, ◌^◌, ◌<◌, ◌≤◌, ◌++◌, ◌∷◌, [], true, length, pos, ◌<ℤ◌, None, Ok, IfOk, IfSome, MatchBool};
ghost use Rattle.row_core.specs.Vectors.{cell};
ghost use Rattle.row_core.specs.Range.{InRange, AllInRange};
ghost use Rattle.chernikova.specs.Conversion.{IsConverted};
ghost use Rattle.minimise.specs.MinimalForms.{LeavesInForm};
ghost use Rattle.poly_pair.specs.declared.topology.Topology.TheVariants.{Closed};
ghost use Rattle.poly_pair.specs.declared.topology.TheConstants.{MAX_DIM};
ghost use Rattle.poly_pair.specs.Conversions.{cone_rows};
ghost use Rattle.poly_pair.specs.Parts.{AreStoredOfGenerators};
ghost use Rattle.poly_pair.specs.Polyhedra.{IsOfGenerators};
ghost use Rattle.poly_pair.specs.Work.{ConvertsFirst};
ghost use Rattle.mapped_systems.specs.Maps.{substituted};
ghost use Rattle.mapped_systems.specs.MappedLists.{IsMappedSystem};
ghost use Rattle.affine_maps.specs.Collapsing.{CanCollapse, CollapsesImage, GainsPlane, IsCollapse, IsFormOf, IsListOfClosed, IsStoredOfList, LeavesInSecond, collapsed_list, freed_list, freed_work};
ghost use Rattle.affine_maps.specs.PairConversions.{PairsImage};

use crate::inverse_maps::carried_image;
use crate::orders::{Order, in_order, moved_table};
use chernikova::{Cone, add_rows_from};
use gens_sys::GensSys;
use minimise::{Simplified, reduced_parts, simplify};
use poly_pair::{Poly, closed_of_vectors, start_of_vectors};
use row_core::{ConvErr, Memory, RowBuf, RowList, Steps};
use std::alloc::Global;
use std::sync::ledger::Ledger;
use stored_systems::{axis, generator_list};

/// The polyhedron of the mapped generators of a closed set with a point, from its stored pair: its
/// constraints are mapped the other way where the map can be undone, and freed of the variable
/// where this gives its value up. There is no answer elsewhere, or where a number leaves the range.
pub(crate) fn paired_image<L: Ledger>(
    p: &Poly,
    var: usize,
    expr: &[i128],
    den: i128,
    gens: &GensSys,
    steps: &mut Steps<L>,
) -> Result<Option<Poly>, Memory>
    requires var { var < p.now.cons.dim }
    requires wide { length expr.now ≡ p.now.cons.dim + 1 }
    requires in_range { AllInRange expr.now }
    requires den_in_range { InRange den }
    requires positive { pos 0 <ℤ den }
    requires mapped { IsMappedSystem (substituted var expr.now den) p.now.cons.dim
        p.now.gens gens.now }
    ensures points { IfOk result (λ found.
        IfSome found (IsOfGenerators p.now.topology gens.now)) }
    ensures stored { IfOk result (λ found.
        IfSome found (AreStoredOfGenerators p.now.topology gens.now)) }
    ensures conversion { PairsImage var expr.now den p.now gens.now
        steps.old steps.new result }
{
    let _dim = p.dim();
    if expr[var] == 0 {
        return collapsed_image(p, var, expr, den, gens, steps);
    }
    carried_image(p, var, expr, den, gens, steps)
}

/// The polyhedron of the mapped generators of a closed set with a point, where the variable gives
/// its value up and no generator became 0. The rows that are valid on the set freed of the variable
/// and the equality of the variable's new value are brought to canonical form, and the generators
/// are thinned by them. There is no answer elsewhere, or where a number leaves the range.
fn collapsed_image<L: Ledger>(
    p: &Poly,
    var: usize,
    expr: &[i128],
    den: i128,
    gens: &GensSys,
    steps: &mut Steps<L>,
) -> Result<Option<Poly>, Memory>
    requires var { var < p.now.cons.dim }
    requires wide { length expr.now ≡ p.now.cons.dim + 1 }
    requires in_range { AllInRange expr.now }
    requires den_in_range { InRange den }
    requires positive { pos 0 <ℤ den }
    requires part { cell expr.now var ≡ pos 0 }
    requires mapped { IsMappedSystem (substituted var expr.now den) p.now.cons.dim
        p.now.gens gens.now }
    ensures points { IfOk result (λ found.
        IfSome found (IsOfGenerators p.now.topology gens.now)) }
    ensures stored { IfOk result (λ found.
        IfSome found (AreStoredOfGenerators p.now.topology gens.now)) }
    ensures conversion { CollapsesImage var expr.now den p.now gens.now
        steps.old steps.new result }
{
    let dim = p.dim();
    let _vectors = p.gens().dim();
    let _mapped = gens.dim();
    if !can_collapse(p, gens) {
        return Ok(None);
    }
    let alloc = p.cons().allocator();
    let freed = match freed_system(alloc, p, var, steps) {
        Ok(freed) => freed,
        Err(ConvErr::Overflow(_)) => return Ok(None),
        Err(ConvErr::Memory) => return Err(Memory),
    };
    let form = with_plane(alloc, freed, var, expr, den)?;
    let list = collapsed_rows(alloc, gens)?;
    pair_of_form(alloc, dim, &list, form, steps)
}

/// Whether the set has a stored pair, and as many mapped generators as generators: none became 0.
fn can_collapse(p: &Poly, gens: &GensSys) -> bool
    ensures { MatchBool result (CanCollapse p.now gens.now) (¬ (CanCollapse p.now gens.now)) }
{
    if gens.len() != p.gens().len() {
        return false;
    }
    p.can_start()
}

/// The system of the rows that are valid on a closed polyhedron with a point freed of a variable,
/// from its stored pair.
fn freed_system<L: Ledger>(
    alloc: Global,
    p: &Poly,
    var: usize,
    steps: &mut Steps<L>,
) -> Result<Cone, ConvErr>
    requires closed { p.now.topology ≡ Closed }
    requires some { ¬ (p.now.gens.list ≡ []) }
    requires var { var < p.now.cons.dim }
    ensures cone { IfOk result (IsConverted (p.now.cons.dim + 1) (freed_list var p.now)) }
    ensures conversion { ConvertsFirst (freed_work var p.now) steps.old steps.new result }
{
    let start = start_of_vectors(alloc, p)?;
    let list = freed_rows(alloc, p, var)?;
    prove!(list.width() == p.dim() + 1);
    let from = p.gens().len();
    let added = add_rows_from(alloc, start, &list, from, steps)?;
    Ok(added.cone)
}

/// The generator list of a polyhedron, and the axis of a variable behind it, as a line.
fn freed_rows(alloc: Global, p: &Poly, var: usize) -> Result<RowList, Memory>
    requires { var < p.now.cons.dim }
    ensures width { IfOk result (λ list. list.width ≡ p.now.cons.dim + 1) }
    ensures rows { IfOk result (λ list. list.rows ≡ freed_list var p.now) }
{
    let dim = p.dim();
    let mut list = generator_list(alloc, p.gens())?;
    list.push(&axis(alloc, dim, var)?, true)?;
    Ok(list)
}

/// The system with the equality of a variable's value behind its lines.
fn with_plane(
    alloc: Global,
    freed: Cone,
    var: usize,
    expr: &[i128],
    den: i128,
) -> Result<Cone, Memory>
    requires var { var < length expr.now }
    requires wide { length expr.now ≡ freed.lines.width }
    requires narrow { length expr.now < 2 ^ 32 }
    requires in_range { AllInRange expr.now }
    requires den_in_range { InRange den }
    ensures { IfOk result (GainsPlane var expr.now den freed) }
{
    let Cone { lines, rays, sat } = freed;
    let mut lines = lines;
    let mut plane = RowBuf::negated(alloc, expr)?.into_vec();
    plane[var] = den;
    lines.push(&plane, true)?;
    Ok(Cone { lines, rays, sat })
}

/// The generator list, and a row of zeros behind it.
fn collapsed_rows(alloc: Global, gens: &GensSys) -> Result<RowList, Memory>
    ensures width { IfOk result (λ list. list.width ≡ gens.now.dim + 1) }
    ensures rows { IfOk result (λ list. list.rows ≡ collapsed_list gens.now) }
{
    let zeros = vec![in alloc; 0i128; gens.dim() + 1]?;
    let mut list = generator_list(alloc, gens)?;
    list.push(&zeros, true)?;
    Ok(list)
}

/// The closed polyhedron of the two systems of a list, from a minimal form of its own. There is no
/// answer where a combination leaves the range.
fn pair_of_form<L: Ledger>(
    alloc: Global,
    dim: usize,
    list: &RowList,
    form: Cone,
    steps: &mut Steps<L>,
) -> Result<Option<Poly>, Memory>
    requires narrow { dim ≤ MAX_DIM }
    requires width { list.now.width ≡ dim + 1 }
    requires form { IsFormOf list.now form }
    requires closed { IsListOfClosed dim list.now.rows }
    ensures stored { IfOk result (λ found. IfSome found (IsStoredOfList dim list.now.rows)) }
    ensures collapse { IsCollapse list.now.width list.now.rows form.lines.rows form.rays.rows
        steps.old steps.new result }
{
    let Some(first) = canonical(alloc, list, form, steps)? else {
        return Ok(None);
    };
    let Some(second) = second_system(alloc, list, &first, steps)? else {
        return Ok(None);
    };
    let pair = closed_of_vectors(alloc, dim, first, second)?;
    let _kept = pair.dim();
    Ok(Some(pair))
}

/// The canonical system of a list from a minimal form of it, if no combination leaves the range.
fn canonical<L: Ledger>(
    alloc: Global,
    list: &RowList,
    form: Cone,
    steps: &mut Steps<L>,
) -> Result<Option<Cone>, Memory>
    requires { IsFormOf list.now form }
    ensures system { IfOk result (λ found.
        IfSome found (IsConverted list.now.width list.now.rows)) }
    ensures left { result ≡ Ok None → LeavesInForm form.lines.rows form.rays.rows }
    ensures no_fewer { steps.old ≤ steps.new }
    ensures counted { steps.new ≤ steps.old
        + 2 * ((length form.lines.rows + length form.rays.rows) * form.lines.width) }
{
    let Cone { lines, rays, sat } = form;
    let Some(parts) = reduced_parts(alloc, lines, rays, steps)? else {
        return Ok(None);
    };
    let (lines, rays) = parts;
    let _height = sat.len();
    let (rays, order) = in_order(alloc, 0, rays)?;
    let sat = moved_table(alloc, &sat, &order, &Order::Listed)?;
    Ok(Some(Cone { lines, rays, sat }))
}

/// The canonical system of the rows that are valid on the cone of a list, from the list's own, if
/// no combination leaves the range.
fn second_system<L: Ledger>(
    alloc: Global,
    list: &RowList,
    first: &Cone,
    steps: &mut Steps<L>,
) -> Result<Option<Cone>, Memory>
    requires { IsConverted list.now.width list.now.rows first.now }
    ensures system { IfOk result (λ found.
        IfSome found (IsConverted list.now.width (cone_rows first.now))) }
    ensures left { result ≡ Ok None → LeavesInSecond list.now.width list.now.rows }
    ensures no_fewer { steps.old ≤ steps.new }
    ensures counted { steps.new ≤ steps.old + 2 * (length list.now.rows * list.now.width) }
{
    match simplify(alloc, list, &first.lines, &first.rays, &first.sat, steps)? {
        Simplified::Done { lines, rays, sat } => Ok(Some(Cone { lines, rays, sat })),
        Simplified::Left { .. } => Ok(None),
    }
}
