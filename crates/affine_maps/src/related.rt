//! Images and preimages by a relation that isn't an equation, by one more variable.
ghost use Rattle.std.specs.Prelude.{◌≡◌, ◌+◌, ◌-◌, ◌^◌, ◌<◌, ◌≤◌, length, IfOk};
ghost use Rattle.std.specs.List.{range_with_len};
ghost use Rattle.row_core.specs.Range.{InRange, AllInRange};
ghost use Rattle.cons_sys.specs.Constraints.{Gains, FitDimension};
ghost use Rattle.mapped_systems.specs.Maps.{with_zeros};
ghost use Rattle.mapped_systems.specs.MappedLists.{IsPulledSystem};
ghost use Rattle.affine_maps.specs.Relations.{with_entry, moved, relation_row, relation_kind, image_columns, IsRelationFor, IsImageBy, IsPreimageBy, IsStoredOfRelation, ConvertsRelation};

use crate::relations::ImageRel;
use crate::shadows::shadow;
use cons_sys::{ConKind, ConsSys};
use mapped_systems::padded_constraints;
use poly_pair::Poly;
use row_core::{ConvErr, Memory, RowBuf, Steps};
use std::alloc::Global;
use std::sync::ledger::Ledger;

/// The row with the entry before a column.
fn with_entry(alloc: Global, column: usize, row: &[i128], entry: i128) -> Result<RowBuf, Memory>
    requires column { column ≤ length row.now }
    requires narrow { length row.now + 1 < 2 ^ 32 }
    requires in_range { AllInRange row.now }
    requires entry_in_range { InRange entry }
    ensures row { IfOk result (λ longer. longer ≡ with_entry column row.now entry) }
    ensures wide { IfOk result (λ longer. length longer ≡ length row.now + 1) }
{
    let mut entries = Vec::from_slice(alloc, &row[..column])?;
    entries.push(entry)?;
    entries.extend_from_slice(&row[column..])?;
    Ok(RowBuf::from_vec(entries))
}

/// What is asked of the row that says how the new variable stands.
fn relation_kind(rel: ImageRel) -> ConKind
    ensures { result ≡ relation_kind rel }
{
    match rel {
        ImageRel::Eq => ConKind::Eq,
        ImageRel::Ge | ImageRel::Le => ConKind::Ge,
        ImageRel::Gt | ImageRel::Lt => ConKind::Gt,
    }
}

/// The row that says how the new variable stands to the expression over the divisor.
fn relation_row(
    alloc: Global,
    rel: ImageRel,
    dim: usize,
    expr: &[i128],
    den: i128,
) -> Result<RowBuf, Memory>
    requires wide { length expr.now ≡ dim + 1 }
    requires narrow { dim < 2 ^ 32 - 3 }
    requires in_range { AllInRange expr.now }
    requires den_in_range { InRange den }
    ensures row { IfOk result (λ row. row ≡ relation_row rel dim expr.now den) }
    ensures wide { IfOk result (λ row. length row ≡ dim + 2) }
{
    match rel {
        ImageRel::Eq | ImageRel::Le | ImageRel::Lt => with_entry(alloc, dim, expr, -den),
        ImageRel::Ge | ImageRel::Gt => {
            let negated = RowBuf::negated(alloc, expr)?;
            with_entry(alloc, dim, negated.cells(), den)
        }
    }
}

/// The constraints, and then that of the last variable.
fn extended(
    alloc: Global,
    mut front: ConsSys,
    dim: usize,
    rel: ImageRel,
    expr: &[i128],
    den: i128,
) -> Result<ConsSys, Memory>
    requires dim { front.dim ≡ dim + 1 }
    requires wide { length expr.now ≡ dim + 1 }
    requires narrow { dim < 2 ^ 32 - 3 }
    requires in_range { AllInRange expr.now }
    requires den_in_range { InRange den }
    ensures dim { IfOk result (λ all. all.dim ≡ front.dim) }
    ensures list { IfOk result (λ all.
        Gains front.list all.list (relation_row rel dim expr.now den) (relation_kind rel)) }
{
    let row = relation_row(alloc, rel, dim, expr, den)?;
    front.push_row(row, relation_kind(rel))?;
    Ok(front)
}

/// The variables in order, with the new one in the place of a variable.
fn image_columns(alloc: Global, dim: usize, var: usize) -> Result<Vec<usize>, Memory>
    requires { var < dim }
    ensures { IfOk result (λ columns. columns.items ≡ image_columns dim var) }
{
    let mut columns = Vec::new(alloc);
    for column in 0..dim {
        columns.push(column)?;
    }
    columns[var] = dim;
    Ok(columns)
}

/// The points that have the values of some point of a set in all variables but one, whose value
/// stands in the relation to that of the expression over the divisor at the point of the set.
///
/// # Errors
///
/// An overflow is one of the conversion of the list of the constraints with one more variable, or
/// of that of their generators where this variable has taken the place of the one, or of the second
/// list of the latter.
pub(crate) fn related_image<L: Ledger>(
    p: &Poly,
    var: usize,
    rel: ImageRel,
    expr: &[i128],
    den: i128,
    steps: &mut Steps<L>,
) -> Result<Poly, ConvErr>
    requires var { var < p.now.cons.dim }
    requires rel { IsRelationFor p.now.topology rel }
    requires wide { length expr.now ≡ p.now.cons.dim + 1 }
    requires in_range { AllInRange expr.now }
    requires den_in_range { InRange den }
    ensures points { IfOk result (IsImageBy rel var expr.now den p.now) }
    ensures stored { IfOk result (IsStoredOfRelation (with_zeros p.now.cons.dim 1)
        (image_columns p.now.cons.dim var) rel expr.now den p.now) }
    ensures conversion { ConvertsRelation (with_zeros p.now.cons.dim 1)
        (image_columns p.now.cons.dim var) rel expr.now den p.now steps.old steps.new result }
{
    let dim = p.dim();
    let cons = p.cons();
    let alloc = cons.allocator();
    let front = padded_constraints(alloc, cons, dim, 1)?;
    let all = extended(alloc, front, dim, rel, expr, den)?;
    let columns = image_columns(alloc, dim, var)?;
    shadow(alloc, p.topology(), &all, &columns, steps)
}

/// The row with the variable's entry as that of one more variable, and 0 in its place.
fn moved_row(alloc: Global, dim: usize, var: usize, row: &[i128]) -> Result<RowBuf, Memory>
    requires var { var < dim }
    requires wide { length row.now ≡ dim + 1 }
    requires narrow { dim < 2 ^ 32 - 3 }
    requires in_range { AllInRange row.now }
    ensures row { IfOk result (λ other. other ≡ moved dim var row.now) }
    ensures wide { IfOk result (λ other. length other ≡ dim + 2) }
{
    let entry = row[var];
    let mut entries = Vec::from_slice(alloc, row)?;
    entries[var] = 0;
    with_entry(alloc, dim, &entries, entry)
}

/// The constraints with one more variable behind, which takes the entries of a variable.
fn moved_constraints(alloc: Global, cons: &ConsSys, var: usize) -> Result<ConsSys, Memory>
    requires var { var < cons.now.dim }
    requires narrow { cons.now.dim < 2 ^ 32 - 3 }
    ensures fit { FitDimension cons.now }
    ensures system { IfOk result (IsPulledSystem (moved cons.now.dim var)
        (cons.now.dim + 1) cons.now) }
{
    let dim = cons.dim();
    let mut all = ConsSys::new(alloc, dim + 1);
    for index in 0..cons.len() {
        let row = moved_row(alloc, dim, var, cons.row(index))?;
        all.push_row(row, cons.kind(index))?;
    }
    Ok(all)
}

/// The variables in order.
fn front_columns(alloc: Global, dim: usize) -> Result<Vec<usize>, Memory>
    ensures { IfOk result (λ columns. columns.items ≡ range_with_len 0 dim) }
{
    let mut columns = Vec::new(alloc);
    for column in 0..dim {
        columns.push(column)?;
    }
    Ok(columns)
}

/// The points that are in a set once a variable is replaced by some fraction that stands in the
/// relation to the expression over the divisor.
///
/// # Errors
///
/// An overflow is one of the conversion of the list of the constraints with one more variable in
/// the place of the one, or of that of their generators without it, or of the second list of the
/// latter.
pub(crate) fn related_preimage<L: Ledger>(
    p: &Poly,
    var: usize,
    rel: ImageRel,
    expr: &[i128],
    den: i128,
    steps: &mut Steps<L>,
) -> Result<Poly, ConvErr>
    requires var { var < p.now.cons.dim }
    requires rel { IsRelationFor p.now.topology rel }
    requires wide { length expr.now ≡ p.now.cons.dim + 1 }
    requires in_range { AllInRange expr.now }
    requires den_in_range { InRange den }
    ensures points { IfOk result (IsPreimageBy rel var expr.now den p.now) }
    ensures stored { IfOk result (IsStoredOfRelation (moved p.now.cons.dim var)
        (range_with_len 0 p.now.cons.dim) rel expr.now den p.now) }
    ensures conversion { ConvertsRelation (moved p.now.cons.dim var)
        (range_with_len 0 p.now.cons.dim) rel expr.now den p.now steps.old steps.new result }
{
    let dim = p.dim();
    let cons = p.cons();
    let alloc = cons.allocator();
    let front = moved_constraints(alloc, cons, var)?;
    let all = extended(alloc, front, dim, rel, expr, den)?;
    let columns = front_columns(alloc, dim)?;
    shadow(alloc, p.topology(), &all, &columns, steps)
}
