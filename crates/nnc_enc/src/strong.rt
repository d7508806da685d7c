//! Which rows and which vectors of a canonical system are kept.
ghost use Rattle.std.specs.Prelude.{◌≡◌, ℕ, ◌+◌, ◌-◌, ◌^◌, ◌<◌, ◌≤◌, List, length, All, IfOk, IsTrue, ◌↔◌, ℤ};
ghost use Rattle.std.specs.List.{Contains};
ghost use Rattle.sat_matrix.specs.Tables.{bits_of};
ghost use Rattle.row_core.specs.Lists.{row_at, vectors};
ghost use Rattle.cone_laws.specs.Cones.{Upto};
ghost use Rattle.cons_sys.specs.Constraints.{Constraint};
ghost use Rattle.gens_sys.specs.Generators.{Generator};
ghost use Rattle.nnc_enc.specs.Decoding.{AreDecodedRows, AreDecodedVectors, FitKinds};
ghost use Rattle.nnc_enc.specs.Forms.{AreStoredConstraints, AreStoredGenerators};
ghost use Rattle.nnc_enc.specs.Kept.{IsNeededConstraint};
ghost use Rattle.nnc_enc.specs.NeededGenerators.{IsNeededGenerator};
ghost use Rattle.nnc_enc.specs.Results.{AreRowListsOf, AreVectorListsOf, HoldAtCoded, SpanCoded};
ghost use Rattle.nnc_enc.specs.StrongRows.{HasVariable, IsAdmittedVector};
ghost use Rattle.sat_matrix.specs.ZeroTables.{IsZeroTable};
ghost use Rattle.nnc_enc.specs.Marks.{flag};
ghost use Rattle.nnc_enc.specs.Passes.{IsClear};
ghost use Rattle.nnc_enc.specs.Sorting.{AreStrongRows, AreStrongVectors};
ghost use Rattle.nnc_enc.specs.Strong.{StaysAtFirst, AreFirstRows, AreFirstVectors, IsStrictPass, IsPointPass};

use crate::decoding::{constraints_of, generators_of, kept, variables};
use crate::marks::{Mark, has_variable, marks};
use crate::passes::{drop_covered, is_clear};
use crate::sorting::ordered;
use cons_sys::ConsSys;
use gens_sys::GensSys;
use row_core::{Memory, RowList};
use sat_matrix::SatMatrix;
use std::alloc::{AllocError, Global};

/// Whether the marked row is true at none of the marked columns.
fn is_marked_clear(marked: &[bool], columns: &[bool], sat: &SatMatrix, i: usize) -> bool
    requires wide { length columns.now ≡ sat.now.columns }
    requires marks { length marked.now ≡ length sat.now.rows }
    requires row { i < length sat.now.rows }
    ensures { IsTrue result ↔ (IsTrue (flag marked.now i)
        × IsClear columns.now (bits_of sat.now.rows i) (length columns.now)) }
{
    marked[i] && is_clear(columns, sat, i)
}

/// Whether a row is kept at first.
fn stays_at_first(
    dim: usize,
    rays: &RowList,
    strict: &[bool],
    places: &[bool],
    sat: &SatMatrix,
    i: usize,
) -> bool
    requires width { rays.now.width ≡ dim + 2 }
    requires wide { length places.now ≡ sat.now.columns }
    requires marks { length strict.now ≡ length sat.now.rows }
    requires row { i < length sat.now.rows }
    requires ray { i < length rays.now.rows }
    ensures { IsTrue result ↔ StaysAtFirst dim rays.now.rows strict.now places.now sat.now.rows i }
{
    has_variable(dim, rays.row(i)) && !is_marked_clear(strict, places, sat, i)
}

/// The rows that are kept at first: those with a variable, but for the strict ones that exclude no
/// place.
fn first_rows(
    alloc: Global,
    dim: usize,
    rays: &RowList,
    strict: &[bool],
    places: &[bool],
    sat: &SatMatrix,
) -> Result<Vec<bool>, AllocError>
    requires width { rays.now.width ≡ dim + 2 }
    requires wide { length places.now ≡ sat.now.columns }
    requires marks { length strict.now ≡ length sat.now.rows }
    requires as_many { length rays.now.rows ≡ length sat.now.rows }
    ensures { IfOk result (λ v. AreFirstRows dim rays.now.rows strict.now places.now sat.now.rows
        v.items (length sat.now.rows)) }
{
    let mut keep = Vec::with_capacity(alloc, sat.len())?;
    for index in 0..sat.len() {
        keep.push_reserved(stays_at_first(dim, rays, strict, places, sat, index));
    }
    Ok(keep)
}

/// The vectors that are kept at first: all but the closure points on which no strict row is 0.
fn first_vectors(
    alloc: Global,
    places: &[bool],
    strict: &[bool],
    sat: &SatMatrix,
) -> Result<Vec<bool>, AllocError>
    requires wide { length strict.now ≡ sat.now.columns }
    requires marks { length places.now ≡ length sat.now.rows }
    ensures { IfOk result
        (λ v. AreFirstVectors places.now strict.now sat.now.rows v.items (length sat.now.rows)) }
{
    let mut keep = Vec::with_capacity(alloc, sat.len())?;
    for index in 0..sat.len() {
        keep.push_reserved(!is_marked_clear(places, strict, sat, index));
    }
    Ok(keep)
}

/// The rows that a strong pass keeps.
fn strict_pass(
    alloc: Global,
    dim: usize,
    rays: &RowList,
    gens: &RowList,
    sat: &SatMatrix,
) -> Result<Vec<bool>, Memory>
    requires rays_width { rays.now.width ≡ dim + 2 }
    requires gens_width { gens.now.width ≡ dim + 2 }
    requires table { IsZeroTable gens.now.rows (length gens.now.rows)
        (vectors rays.now.rows) sat.now }
    ensures { IfOk result (λ v. IsStrictPass dim gens.now.rows (vectors rays.now.rows) v.items) }
{
    let strict = marks(alloc, dim, rays, Mark::Strict)?;
    let level = marks(alloc, dim, gens, Mark::Level)?;
    let places = marks(alloc, dim, gens, Mark::Place)?;
    let mut keep = first_rows(alloc, dim, rays, &strict, &places, sat)?;
    drop_covered(&level, &strict, sat, &mut keep)?;
    Ok(keep)
}

/// The vectors that a strong pass keeps.
fn point_pass(
    alloc: Global,
    dim: usize,
    rays: &RowList,
    cons: &RowList,
    sat: &SatMatrix,
) -> Result<Vec<bool>, Memory>
    requires rays_width { rays.now.width ≡ dim + 2 }
    requires cons_width { cons.now.width ≡ dim + 2 }
    requires table { IsZeroTable cons.now.rows (length cons.now.rows)
        (vectors rays.now.rows) sat.now }
    ensures { IfOk result (λ v. IsPointPass dim cons.now.rows (vectors rays.now.rows) v.items) }
{
    let points = marks(alloc, dim, rays, Mark::Point)?;
    let places = marks(alloc, dim, rays, Mark::Place)?;
    let level = marks(alloc, dim, cons, Mark::Level)?;
    let strict = marks(alloc, dim, cons, Mark::Strict)?;
    let mut keep = first_vectors(alloc, &places, &strict, sat)?;
    drop_covered(&level, &points, sat, &mut keep)?;
    Ok(keep)
}

/// The constraints of what a strong pass keeps, in order.
pub(crate) fn strong_rows(
    alloc: Global,
    dim: usize,
    lines: &RowList,
    rays: &RowList,
    gens: &RowList,
    sat: &SatMatrix,
) -> Result<ConsSys, Memory>
    requires narrow { dim < 2 ^ 32 - 2 }
    requires lines_width { lines.now.width ≡ dim + 2 }
    requires rays_width { rays.now.width ≡ dim + 2 }
    requires gens_width { gens.now.width ≡ dim + 2 }
    requires table { IsZeroTable gens.now.rows (length gens.now.rows)
        (vectors rays.now.rows) sat.now }
    ensures dim { IfOk result (λ cons. cons.dim ≡ dim) }
    ensures list { IfOk result
        (λ cons. AreStrongRows dim gens.now.rows lines.now.rows rays.now.rows cons.list) }
{
    let keep = strict_pass(alloc, dim, rays, gens, sat)?;
    let kept = kept(alloc, &keep)?;
    let order = ordered(alloc, dim, rays, &kept)?;
    constraints_of(alloc, dim, lines, rays, &order)
}

/// Some of the constraints that a canonical system stands for, with the same points, of which none
/// can be left out.
pub fn strong_cons(
    alloc: Global,
    lines: &RowList,
    rays: &RowList,
    gens: &RowList,
    sat: &SatMatrix,
) -> Result<ConsSys, Memory>
    requires rows { AreRowListsOf gens.now lines.now rays.now }
    requires table { IsZeroTable gens.now.rows (length gens.now.rows)
        (vectors rays.now.rows) sat.now }
    ensures dim { IfOk result (λ cons. lines.now.width ≡ cons.dim + 2) }
    ensures list { IfOk result (λ cons.
        AreStrongRows cons.dim gens.now.rows lines.now.rows rays.now.rows cons.list) }
    ensures points { IfOk result (HoldAtCoded (IsAdmittedVector gens.now.width gens.now.rows)) }
    ensures needed { IfOk result (λ cons.
        (i : ℕ) → i < length cons.list → IsNeededConstraint cons.dim cons.list i) }
    ensures part { IfOk result (λ cons.
        (decoded : List Constraint) →
        AreDecodedRows cons.dim lines.now.rows rays.now.rows decoded →
        All (Contains decoded) cons.list) }
    ensures stored { IfOk result (λ cons. AreStoredConstraints (length lines.now.rows) cons.list) }
{
    strong_rows(alloc, variables(lines), lines, rays, gens, sat)
}

/// The generators of what a strong pass keeps, in order.
fn strong_vectors(
    alloc: Global,
    dim: usize,
    lines: &RowList,
    rays: &RowList,
    cons: &RowList,
    sat: &SatMatrix,
) -> Result<GensSys, Memory>
    requires narrow { dim < 2 ^ 32 - 2 }
    requires lines_width { lines.now.width ≡ dim + 2 }
    requires rays_width { rays.now.width ≡ dim + 2 }
    requires cons_width { cons.now.width ≡ dim + 2 }
    requires fit { FitKinds dim lines.now.rows rays.now.rows }
    requires table { IsZeroTable cons.now.rows (length cons.now.rows)
        (vectors rays.now.rows) sat.now }
    ensures dim { IfOk result (λ gens. gens.dim ≡ dim) }
    ensures list { IfOk result
        (λ gens. AreStrongVectors dim cons.now.rows lines.now.rows rays.now.rows gens.list) }
{
    let keep = point_pass(alloc, dim, rays, cons, sat)?;
    let kept = kept(alloc, &keep)?;
    let order = ordered(alloc, dim, rays, &kept)?;
    generators_of(alloc, dim, lines, rays, &order)
}

/// Some of the generators that a canonical system stands for, with the same points, of which
/// none can be left out.
pub fn strong_gens(
    alloc: Global,
    lines: &RowList,
    rays: &RowList,
    cons: &RowList,
    sat: &SatMatrix,
) -> Result<GensSys, Memory>
    requires vectors { AreVectorListsOf cons.now lines.now rays.now }
    requires table { IsZeroTable cons.now.rows (length cons.now.rows)
        (vectors rays.now.rows) sat.now }
    ensures dim { IfOk result (λ gens. lines.now.width ≡ gens.dim + 2) }
    ensures list { IfOk result (λ gens.
        AreStrongVectors gens.dim cons.now.rows lines.now.rows rays.now.rows gens.list) }
    ensures points { IfOk result (SpanCoded
        (Upto cons.now.width cons.now.rows (length cons.now.rows))) }
    ensures needed { IfOk result (λ gens.
        (i : ℕ) → i < length gens.list → IsNeededGenerator gens.dim gens i) }
    ensures part { IfOk result (λ gens.
        (decoded : List Generator) →
        AreDecodedVectors gens.dim lines.now.rows rays.now.rows decoded →
        All (Contains decoded) gens.list) }
    ensures stored { IfOk result (λ gens. AreStoredGenerators (length lines.now.rows) gens.list) }
{
    strong_vectors(alloc, variables(lines), lines, rays, cons, sat)
}
