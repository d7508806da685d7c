//! Images and preimages under a map that can be undone, from the stored pair.
ghost use Rattle.std.specs.Prelude.{◌≡◌, ◌+◌, ◌<◌, length, pos, ◌<ℤ◌, IfOk, IfSome, MatchBool};
ghost use Rattle.row_core.specs.Vectors.{cell};
ghost use Rattle.row_core.specs.Range.{InRange, AllInRange};
ghost use Rattle.poly_pair.specs.Polyhedra.{IsOfConstraints, IsOfGenerators};
ghost use Rattle.poly_pair.specs.Parts.{AreStoredOfRows, AreStoredOfGenerators};
ghost use Rattle.poly_pair.specs.TopologyLists.{constraints_of};
ghost use Rattle.mapped_systems.specs.Maps.{substituted, pulled_back};
ghost use Rattle.mapped_systems.specs.MappedLists.{IsMappedSystem, IsPulledSystem};
ghost use Rattle.affine_maps.specs.CarriedPairs.{CanBeCarried};
ghost use Rattle.affine_maps.specs.PairConversions.{CarriesImage, CarriesPreimage};

use crate::carrying::from_carried;
use cons_sys::ConsSys;
use gens_sys::GensSys;
use mapped_systems::{image_generators, inverse_row, preimage_constraints};
use poly_pair::Poly;
use row_core::{ConvErr, Memory, Steps};
use std::sync::ledger::Ledger;

/// Whether the map can be undone, and the set has a stored pair to be mapped.
fn can_be_carried(p: &Poly, var: usize, expr: &[i128]) -> bool
    requires var { var < length expr.now }
    requires in_range { AllInRange expr.now }
    ensures { MatchBool result
        (CanBeCarried p.now (cell expr.now var)) (¬ (CanBeCarried p.now (cell expr.now var))) }
{
    if expr[var] == 0 {
        return false;
    }
    p.can_start()
}

/// The polyhedron of the mapped generators of a closed set with a point, where the map can be
/// undone. Its constraints are mapped the other way, and nothing is converted. There is no answer
/// elsewhere, or where a number leaves the range.
pub(crate) fn carried_image<L: Ledger>(
    p: &Poly,
    var: usize,
    expr: &[i128],
    den: i128,
    gens: &GensSys,
    steps: &mut Steps<L>,
) -> Result<Option<Poly>, Memory>
    requires var { var < p.now.cons.dim }
    requires wide { length expr.now ≡ p.now.cons.dim + 1 }
    requires in_range { AllInRange expr.now }
    requires den_in_range { InRange den }
    requires positive { pos 0 <ℤ den }
    requires mapped { IsMappedSystem (substituted var expr.now den) p.now.cons.dim
        p.now.gens gens.now }
    ensures points { IfOk result (λ found.
        IfSome found (IsOfGenerators p.now.topology gens.now)) }
    ensures stored { IfOk result (λ found.
        IfSome found (AreStoredOfGenerators p.now.topology gens.now)) }
    ensures conversion { CarriesImage var expr.now den p.now gens.now
        steps.old steps.new result }
{
    let _dim = p.dim();
    let _vectors = p.gens().dim();
    let _mapped = gens.dim();
    if !can_be_carried(p, var, expr) {
        return Ok(None);
    }
    let rows = p.cons();
    let alloc = rows.allocator();
    let row = inverse_row(alloc, var, expr, den)?;
    let cons = match preimage_constraints(alloc, rows, var, &row, expr[var].abs(), steps) {
        Ok(cons) => cons,
        Err(ConvErr::Overflow(_)) => return Ok(None),
        Err(ConvErr::Memory) => return Err(Memory),
    };
    from_carried(alloc, &cons, gens, p.zeros(), steps)
}

/// The polyhedron of the mapped constraints of a closed set with a point, where the map can be
/// undone. Its generators are mapped the other way, and nothing is converted. There is no answer
/// elsewhere, or where a number leaves the range.
pub(crate) fn carried_preimage<L: Ledger>(
    p: &Poly,
    var: usize,
    expr: &[i128],
    den: i128,
    cons: &ConsSys,
    steps: &mut Steps<L>,
) -> Result<Option<Poly>, Memory>
    requires var { var < p.now.cons.dim }
    requires wide { length expr.now ≡ p.now.cons.dim + 1 }
    requires in_range { AllInRange expr.now }
    requires den_in_range { InRange den }
    requires positive { pos 0 <ℤ den }
    requires pulled { IsPulledSystem (pulled_back var expr.now den) p.now.cons.dim
        p.now.cons cons.now }
    ensures points { IfOk result (λ found.
        IfSome found (IsOfConstraints p.now.topology cons.now)) }
    ensures stored { IfOk result (λ found. IfSome found
        (AreStoredOfRows p.now.topology cons.now.dim (constraints_of p.now.topology cons.now))) }
    ensures conversion { CarriesPreimage var expr.now den p.now cons.now
        steps.old steps.new result }
{
    let _dim = p.dim();
    let _rows = p.cons().dim();
    if !can_be_carried(p, var, expr) {
        return Ok(None);
    }
    let alloc = cons.allocator();
    let row = inverse_row(alloc, var, expr, den)?;
    let gens = match image_generators(alloc, p.gens(), var, &row, expr[var].abs()) {
        Ok(gens) => gens,
        Err(ConvErr::Overflow(_)) => return Ok(None),
        Err(ConvErr::Memory) => return Err(Memory),
    };
    let _mapped = gens.dim();
    from_carried(alloc, cons, &gens, p.zeros(), steps)
}
