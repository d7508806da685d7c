//! The commands that map polyhedra, and those that change the dimension.
ghost use Rattle.std.specs.Prelude.{◌≡◌, ℕ, ◌+◌, ◌<◌, length, pos, ◌<ℤ◌, All, IfOk, IfErr, MatchResult};
ghost use Rattle.row_core.specs.Range.{InRange};
ghost use Rattle.row_core.specs.Refusals.{IsOverflowIn};
ghost use Rattle.affine_maps.specs.Relations.{IsRelationFor};
ghost use Rattle.grammar.specs.Form.{Matches};
ghost use Rattle.grammar.specs.Grammar.{alone};
ghost use Rattle.grammar.specs.Cases.{frac_cases};
ghost use Rattle.poly_makers.specs.Affine.{remove as make_removed, mapped_by as make_mapped, image_rel, IsSetOfMap, IsStoredOfMap, LeavesInMap, variables_fault};
ghost use Rattle.line_values.specs.Texts.{IsTextRefusal};
ghost use Rattle.line_values.specs.Performed.{IsPerformed};

use affine_maps::ImageRel;
use line_values::{StepErr, fraction_of};
use poly_pair::Poly;
use reply_text::Fault;
use row_core::{ConvErr, Steps};
use script_text::{Mapping, Part, Rel, VarList};
use std::alloc::Global;
use std::sync::ledger::Ledger;
use term_text::Frac;

/// The relation of a line, as one of images.
fn image_rel(rel: Rel) -> ImageRel
    ensures { result ≡ image_rel rel }
{
    match rel {
        Rel::Eq => ImageRel::Eq,
        Rel::Ge => ImageRel::Ge,
        Rel::Le => ImageRel::Le,
        Rel::Gt => ImageRel::Gt,
        Rel::Lt => ImageRel::Lt,
    }
}

/// Which variable is mapped, which way, and how it stands to its fraction.
#[derive(Drop)]
pub struct VariableMap {
    pub by: Mapping,
    pub v: u64,
    pub rel: Rel,
}

/// The image or the preimage.
fn image_of<L: Ledger>(
    alloc: Global,
    map: VariableMap,
    p: &Poly,
    frac: &Frac,
    steps: &mut Steps<L>,
) -> Result<Poly, ConvErr>
    requires var { map.v < p.now.cons.dim }
    requires rel { IsRelationFor p.now.topology (image_rel map.rel) }
    requires wide { length frac.now.expr ≡ p.now.cons.dim + 1 }
    requires den_in_range { InRange frac.now.den }
    requires positive { pos 0 <ℤ frac.now.den }
    ensures points { IfOk result
        (IsSetOfMap map.by (image_rel map.rel) map.v frac.now.expr frac.now.den p.now) }
    ensures stored { IfOk result
        (IsStoredOfMap map.by (image_rel map.rel) map.v frac.now.expr frac.now.den p.now) }
    ensures overflow { IfErr result (IsOverflowIn
        (LeavesInMap map.by (image_rel map.rel) map.v frac.now.expr frac.now.den p.now)) }
{
    let rel = image_rel(map.rel);
    let expr = frac.expr.cells();
    let var = map.v as usize;
    match map.by {
        Mapping::Image => affine_maps::image(alloc, p, var, rel, expr, frac.den, steps),
        Mapping::Preimage => affine_maps::preimage(alloc, p, var, rel, expr, frac.den, steps),
    }
}

/// The image or the preimage of the polyhedron by the relation between the variable and the
/// fraction.
pub fn mapped_by<L: Ledger>(
    alloc: Global,
    map: VariableMap,
    p: &Poly,
    part: &Part,
    full: bool,
    steps: &mut Steps<L>,
) -> Result<Poly, StepErr>
    requires form { Matches (alone frac_cases) part.now.text }
    ensures { IsPerformed (make_mapped map.by full map.v map.rel part.now p.now) result }
{
    let frac = match fraction_of(alloc, p, map.v, map.rel, part) {
        Ok(frac) => frac,
        Err(cause) => return Err(cause),
    };
    if full {
        return Err(StepErr::Input(Fault::TooManyNames));
    }
    image_of(alloc, map, p, &frac, steps).map_err(StepErr::from)
}

/// The variables of a list as columns, each of them below the dimension.
fn columns_of(alloc: Global, dim: usize, vars: &VarList) -> Result<Vec<usize>, StepErr>
    ensures { MatchResult result
        (λ columns. (columns.items ≡ vars.now) × All (λ (i : ℕ). i < dim) vars.now)
        (IsTextRefusal (variables_fault dim vars.now)) }
{
    let mut columns = Vec::new(alloc);
    for index in 0..vars.len() {
        let number = vars.get(index);
        if number >= dim as u64 {
            return Err(StepErr::Input(Fault::OutOfRange));
        }
        match columns.push(number as usize) {
            Ok(()) => (),
            Err(_) => return Err(StepErr::Memory),
        }
    }
    Ok(columns)
}

/// The points that those of the polyhedron become without the variables of the list.
pub fn remove<L: Ledger>(
    alloc: Global,
    p: &Poly,
    vars: &VarList,
    full: bool,
    steps: &mut Steps<L>,
) -> Result<Poly, StepErr>
    ensures { IsPerformed (make_removed full vars.now p.now) result }
{
    let columns = match columns_of(alloc, p.dim(), vars) {
        Ok(columns) => columns,
        Err(cause) => return Err(cause),
    };
    if full {
        return Err(StepErr::Input(Fault::TooManyNames));
    }
    dimensions::remove_dims(alloc, p, columns.as_slice(), steps).map_err(StepErr::from)
}
