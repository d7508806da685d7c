//! The constraints and generators that a canonical system stands for.
ghost use Rattle.std.specs.Prelude.{◌≡◌, ℕ, ◌+◌, ◌-◌, ◌^◌, ◌<◌, ◌≤◌, ◌↔◌, ◌++◌, ◌∷◌, if◌then◌else◌, [], true, Bool, List, length, remove, replicate, All, IfOk, OnOk, IsTrue, ℤ};
ghost use Rattle.row_core.specs.Vectors.{cell};
ghost use Rattle.row_core.specs.Range.{AllInRange};
ghost use Rattle.row_core.specs.Lists.{row_at, vectors, system_rows};
ghost use Rattle.cone_laws.specs.Members.{ConeOf};
ghost use Rattle.nnc_enc.specs.Encoding.{lowered};
ghost use Rattle.nnc_enc.specs.StrongRows.{IsAdmittedVector};
ghost use Rattle.nnc_enc.specs.DecodedVectors.{kind_of, vector_kind, place_kind};
ghost use Rattle.cons_sys.specs.Constraints.{Gains as ConGains};
ghost use Rattle.gens_sys.specs.Generators.{Gains as GenGains};
ghost use Rattle.nnc_enc.specs.Results.{AreRowLists, AreVectorLists, HoldAtCoded, SpanCoded};
ghost use Rattle.cons_sys.specs.declared.kind.ConKind.TheVariants.{Eq};
ghost use Rattle.gens_sys.specs.declared.kind.GenKind.TheVariants.{Line};
ghost use Rattle.nnc_enc.specs.Decoding.{con_kind, index_at, Grew, AreConstraintsOf, AreGeneratorsOf, AreKept, Rise, HaveVariables, AreDecodedRows, AreDecodedVectors, FitsKind, FitKinds};

use crate::marks::has_variable;
use cons_sys::{ConKind, ConsSys};
use gens_sys::{GenKind, GenPushErr, GensSys};
use row_core::{Memory, RowList};
use std::alloc::{AllocError, Global};

/// The number of variables of an encoded list, which has two columns more.
pub(crate) fn variables(list: &RowList) -> usize
    requires { 2 ≤ list.now.width }
    ensures columns { list.now.width ≡ result + 2 }
    ensures narrow { result < 2 ^ 32 - 2 }
{
    list.width() - 2
}

/// Puts the row without column e in a buffer, in place of what is there.
pub(crate) fn put_lowered(
    buffer: &mut Vec<i128>,
    dim: usize,
    row: &[i128],
) -> Result<(), AllocError>
    requires wide { length row.now ≡ dim + 2 }
    requires in_range { AllInRange row.now }
    ensures items { OnOk result (buffer.new.items ≡ lowered dim row.now) }
    ensures wide { OnOk result (length buffer.new.items ≡ dim + 1) }
    ensures in_range { OnOk result (AllInRange buffer.new.items) }
{
    buffer.clear();
    buffer.extend_from_slice(&row[..dim])?;
    buffer.extend_from_slice(&row[dim + 1..])?;
    Ok(())
}

/// Appends an index where it is kept.
fn push_if(keep: bool, kept: &mut Vec<usize>, index: usize) -> Result<(), AllocError>
    ensures { OnOk result
        (kept.new.items ≡ (if keep then kept.old.items ++ index ∷ [] else kept.old.items)) }
{
    if keep {
        kept.push(index)?;
    }
    Ok(())
}

/// The indices of the kept rows, in order.
pub(crate) fn kept(alloc: Global, keep: &[bool]) -> Result<Vec<usize>, AllocError>
    ensures kept { IfOk result (λ v. AreKept keep.now v.items (length keep.now)) }
    ensures rising { IfOk result (λ v. Rise v.items) }
{
    let mut kept = Vec::with_capacity(alloc, keep.len())?;
    for index in 0..keep.len() {
        push_if(keep[index], &mut kept, index)?;
    }
    Ok(kept)
}

/// Which rows have a variable.
fn with_variables(alloc: Global, dim: usize, rays: &RowList) -> Result<Vec<bool>, AllocError>
    requires { rays.now.width ≡ dim + 2 }
    ensures { IfOk result (λ v. HaveVariables dim rays.now.rows v.items (length rays.now.rows)) }
{
    let mut keep = Vec::with_capacity(alloc, rays.len())?;
    for index in 0..rays.len() {
        keep.push_reserved(has_variable(dim, rays.row(index)));
    }
    Ok(keep)
}

/// Appends the constraint of a row.
fn push_con(
    buffer: &mut Vec<i128>,
    dim: usize,
    cons: &mut ConsSys,
    row: &[i128],
    kind: ConKind,
) -> Result<(), Memory>
    requires dim { cons.old.dim ≡ dim }
    requires wide { length row.now ≡ dim + 2 }
    requires in_range { AllInRange row.now }
    ensures dim { cons.new.dim ≡ cons.old.dim }
    ensures list { OnOk result (ConGains cons.old.list cons.new.list (lowered dim row.now) kind) }
{
    put_lowered(buffer, dim, row)?;
    cons.push(buffer, kind)
}

/// Appends the constraints of all lines.
fn push_con_lines(
    buffer: &mut Vec<i128>,
    dim: usize,
    cons: &mut ConsSys,
    lines: &RowList,
) -> Result<(), Memory>
    requires dim { cons.old.dim ≡ dim }
    requires width { lines.now.width ≡ dim + 2 }
    ensures dim { cons.new.dim ≡ cons.old.dim }
    ensures list { OnOk result (Grew ([], Eq) dim cons.old.list cons.new.list
        (length lines.now.rows) (λ i. row_at lines.now.rows i) (λ i. Eq)) }
{
    for index in 0..lines.len() {
        push_con(buffer, dim, cons, lines.row(index), ConKind::Eq)?;
    }
    Ok(())
}

/// The kind of a row with the number in column e.
fn kind_at(height: i128) -> ConKind
    ensures { result ≡ con_kind height }
{
    if height < 0 { ConKind::Gt } else { ConKind::Ge }
}

/// The kind of a row.
fn kind_of_row(dim: usize, row: &[i128]) -> ConKind
    requires { length row.now ≡ dim + 2 }
    ensures { result ≡ con_kind (cell row.now dim) }
{
    kind_at(row[dim])
}

/// Appends the constraints of the rays at the indices.
fn push_con_rays(
    buffer: &mut Vec<i128>,
    dim: usize,
    cons: &mut ConsSys,
    rays: &RowList,
    order: &[usize],
) -> Result<(), Memory>
    requires dim { cons.old.dim ≡ dim }
    requires width { rays.now.width ≡ dim + 2 }
    requires within { (i : ℕ) → i < length order.now → index_at order.now i < length rays.now.rows }
    ensures dim { cons.new.dim ≡ cons.old.dim }
    ensures list { OnOk result (Grew ([], Eq) dim cons.old.list cons.new.list (length order.now)
        (λ i. row_at rays.now.rows (index_at order.now i))
        (λ i. con_kind (cell (row_at rays.now.rows (index_at order.now i)) dim))) }
{
    for index in 0..order.len() {
        let row = rays.row(order[index]);
        push_con(buffer, dim, cons, row, kind_of_row(dim, row))?;
    }
    Ok(())
}

/// The constraints of the lines, and of the rays at the indices.
pub(crate) fn constraints_of(
    alloc: Global,
    dim: usize,
    lines: &RowList,
    rays: &RowList,
    order: &[usize],
) -> Result<ConsSys, Memory>
    requires narrow { dim < 2 ^ 32 - 2 }
    requires lines_width { lines.now.width ≡ dim + 2 }
    requires rays_width { rays.now.width ≡ dim + 2 }
    requires within { (i : ℕ) → i < length order.now → index_at order.now i < length rays.now.rows }
    ensures dim { IfOk result (λ cons. cons.dim ≡ dim) }
    ensures list { IfOk result
        (λ cons. AreConstraintsOf dim lines.now.rows rays.now.rows order.now cons.list) }
{
    let mut buffer = Vec::with_capacity(alloc, dim + 1)?;
    let mut cons = ConsSys::with_room(alloc, dim, lines.len().saturating_add(order.len()))?;
    push_con_lines(&mut buffer, dim, &mut cons, lines)?;
    push_con_rays(&mut buffer, dim, &mut cons, rays, order)?;
    Ok(cons)
}

/// The constraints of the lines, and of the rays with a variable, in their order.
fn decoded_rows(
    alloc: Global,
    dim: usize,
    lines: &RowList,
    rays: &RowList,
) -> Result<ConsSys, Memory>
    requires narrow { dim < 2 ^ 32 - 2 }
    requires lines_width { lines.now.width ≡ dim + 2 }
    requires rays_width { rays.now.width ≡ dim + 2 }
    ensures dim { IfOk result (λ cons. cons.dim ≡ dim) }
    ensures list { IfOk result (λ cons. AreDecodedRows dim lines.now.rows rays.now.rows cons.list) }
{
    let keep = with_variables(alloc, dim, rays)?;
    let order = kept(alloc, &keep)?;
    constraints_of(alloc, dim, lines, rays, &order)
}

/// The constraints that a canonical system of valid rows stands for, in its order: they hold at the
/// points that are coded by the vectors on which the lines are 0 and the rays at least 0.
pub fn decode_cons(alloc: Global, lines: &RowList, rays: &RowList) -> Result<ConsSys, Memory>
    requires rows { AreRowLists lines.now rays.now }
    ensures dim { IfOk result (λ cons. lines.now.width ≡ cons.dim + 2) }
    ensures list { IfOk result (λ cons.
        AreDecodedRows cons.dim lines.now.rows rays.now.rows cons.list) }
    ensures points { let system = system_rows (vectors lines.now.rows) (vectors rays.now.rows) in
        IfOk result (HoldAtCoded (ConeOf lines.now.width system)) }
{
    decoded_rows(alloc, variables(lines), lines, rays)
}

/// Appends the generator of a vector.
fn push_gen(
    buffer: &mut Vec<i128>,
    dim: usize,
    gens: &mut GensSys,
    row: &[i128],
    kind: GenKind,
) -> Result<(), Memory>
    requires dim { gens.old.dim ≡ dim }
    requires wide { length row.now ≡ dim + 2 }
    requires in_range { AllInRange row.now }
    requires fits { FitsKind dim row.now kind }
    ensures dim { gens.new.dim ≡ gens.old.dim }
    ensures list { OnOk result (GenGains gens.old.list gens.new.list (lowered dim row.now) kind) }
{
    put_lowered(buffer, dim, row)?;
    match gens.push(buffer, kind) {
        Ok(()) => Ok(()),
        Err(GenPushErr::Memory) => Err(Memory),
        Err(GenPushErr::ZeroVector | GenPushErr::BadDivisor) => unreachable!(),
    }
}

/// Appends the generators of all lines.
fn push_gen_lines(
    buffer: &mut Vec<i128>,
    dim: usize,
    gens: &mut GensSys,
    lines: &RowList,
) -> Result<(), Memory>
    requires dim { gens.old.dim ≡ dim }
    requires width { lines.now.width ≡ dim + 2 }
    requires fit { (i : ℕ) → i < length lines.now.rows
        → FitsKind dim (row_at lines.now.rows i) Line }
    ensures dim { gens.new.dim ≡ gens.old.dim }
    ensures list { OnOk result (Grew ([], Line) dim gens.old.list gens.new.list
        (length lines.now.rows) (λ i. row_at lines.now.rows i) (λ i. Line)) }
{
    for index in 0..lines.len() {
        push_gen(buffer, dim, gens, lines.row(index), GenKind::Line)?;
    }
    Ok(())
}

/// The kind of a vector with the numbers in columns e and d.
fn vector_kind(height: i128, divisor: i128) -> GenKind
    ensures { result ≡ vector_kind height divisor }
{
    if height > 0 {
        GenKind::Point
    } else if divisor > 0 {
        GenKind::ClosurePoint
    } else {
        GenKind::Ray
    }
}

/// The kind of a vector.
fn kind_of_vector(dim: usize, row: &[i128]) -> GenKind
    requires { length row.now ≡ dim + 2 }
    ensures { result ≡ kind_of dim row.now }
{
    vector_kind(row[dim], row[dim + 1])
}

/// Appends the generators of the rays at the indices.
fn push_gen_rays(
    buffer: &mut Vec<i128>,
    dim: usize,
    gens: &mut GensSys,
    rays: &RowList,
    order: &[usize],
) -> Result<(), Memory>
    requires dim { gens.old.dim ≡ dim }
    requires width { rays.now.width ≡ dim + 2 }
    requires fit { (i : ℕ) → i < length rays.now.rows
        → FitsKind dim (row_at rays.now.rows i) (kind_of dim (row_at rays.now.rows i)) }
    requires within { (i : ℕ) → i < length order.now → index_at order.now i < length rays.now.rows }
    ensures dim { gens.new.dim ≡ gens.old.dim }
    ensures list { OnOk result (Grew ([], Line) dim gens.old.list gens.new.list (length order.now)
        (λ i. row_at rays.now.rows (index_at order.now i))
        (λ i. kind_of dim (row_at rays.now.rows (index_at order.now i)))) }
{
    for index in 0..order.len() {
        let row = rays.row(order[index]);
        push_gen(buffer, dim, gens, row, kind_of_vector(dim, row))?;
    }
    Ok(())
}

/// The generators of the lines, and of the rays at the indices.
pub(crate) fn generators_of(
    alloc: Global,
    dim: usize,
    lines: &RowList,
    rays: &RowList,
    order: &[usize],
) -> Result<GensSys, Memory>
    requires narrow { dim < 2 ^ 32 - 2 }
    requires lines_width { lines.now.width ≡ dim + 2 }
    requires rays_width { rays.now.width ≡ dim + 2 }
    requires fit { FitKinds dim lines.now.rows rays.now.rows }
    requires within { (i : ℕ) → i < length order.now → index_at order.now i < length rays.now.rows }
    ensures dim { IfOk result (λ gens. gens.dim ≡ dim) }
    ensures list { IfOk result
        (λ gens. AreGeneratorsOf dim lines.now.rows rays.now.rows order.now gens.list) }
{
    let mut buffer = Vec::with_capacity(alloc, dim + 1)?;
    let mut gens = GensSys::with_room(alloc, dim, lines.len().saturating_add(order.len()))?;
    push_gen_lines(&mut buffer, dim, &mut gens, lines)?;
    push_gen_rays(&mut buffer, dim, &mut gens, rays, order)?;
    Ok(gens)
}

/// As many marks that are true.
fn all_marked(alloc: Global, count: usize) -> Result<Vec<bool>, AllocError>
    ensures { IfOk result (λ v. v.items ≡ replicate count true) }
{
    vec![in alloc; true; count]
}

/// The generators of the lines, and of all rays, in their order.
fn decoded_vectors(
    alloc: Global,
    dim: usize,
    lines: &RowList,
    rays: &RowList,
) -> Result<GensSys, Memory>
    requires narrow { dim < 2 ^ 32 - 2 }
    requires lines_width { lines.now.width ≡ dim + 2 }
    requires rays_width { rays.now.width ≡ dim + 2 }
    requires fit { FitKinds dim lines.now.rows rays.now.rows }
    ensures dim { IfOk result (λ gens. gens.dim ≡ dim) }
    ensures list { IfOk result
        (λ gens. AreDecodedVectors dim lines.now.rows rays.now.rows gens.list) }
{
    let keep = all_marked(alloc, rays.len())?;
    let order = kept(alloc, &keep)?;
    generators_of(alloc, dim, lines, rays, &order)
}

/// The generators that a canonical system of vectors stands for, in its order: they span the points
/// that are coded by what the lines and rays span.
pub fn decode_gens(alloc: Global, lines: &RowList, rays: &RowList) -> Result<GensSys, Memory>
    requires vectors { AreVectorLists lines.now rays.now }
    ensures dim { IfOk result (λ gens. lines.now.width ≡ gens.dim + 2) }
    ensures list { IfOk result (λ gens.
        AreDecodedVectors gens.dim lines.now.rows rays.now.rows gens.list) }
    ensures points { let system = system_rows (vectors lines.now.rows) (vectors rays.now.rows) in
        IfOk result (SpanCoded (IsAdmittedVector lines.now.width system)) }
{
    decoded_vectors(alloc, variables(lines), lines, rays)
}
