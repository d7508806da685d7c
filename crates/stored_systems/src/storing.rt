//! The constraints that a canonical system stands for.
ghost use Rattle.std.specs.Prelude.{◌≡◌, ◌+◌, ◌-◌, ◌^◌, ◌<◌, ◌∷◌, [], not, length, filter, All, IfOk, pos};
ghost use Rattle.std.specs.Ordering.{int_eq};
ghost use Rattle.row_core.specs.Range.{AllInRange};
ghost use Rattle.row_core.specs.Content.{IsPrimitive};
ghost use Rattle.row_core.specs.Lists.{vectors};
ghost use Rattle.row_core.specs.MarkedLists.{AreLists};
ghost use Rattle.cons_sys.specs.declared.kind.ConKind.TheVariants.{Ge};
ghost use Rattle.stored_systems.specs.Entries.{is_zero, is_last_one};
ghost use Rattle.stored_systems.specs.StoredForms.{stored_constraints, false_row, is_divisor_row};

use cons_sys::{ConKind, ConsSys};
use row_core::{Memory, RowList};
use std::alloc::Global;

/// The constraints that a canonical system of rows stands for: its lines as equalities, and its
/// rays but `(0, .., 0, 1)` as inequalities. The rows are taken over without a copy.
pub fn stored_constraints(
    alloc: Global,
    dim: usize,
    lines: RowList,
    rays: RowList,
) -> Result<ConsSys, Memory>
    requires narrow { dim < 2 ^ 32 - 2 }
    requires lists { AreLists (dim + 1) lines rays }
    requires primitive_lines { All IsPrimitive (vectors lines.rows) }
    requires primitive_rays { All IsPrimitive (vectors rays.rows) }
    ensures dim { IfOk result (λ cons. cons.dim ≡ dim) }
    ensures list { IfOk result
        (λ cons. cons.list ≡ stored_constraints dim (vectors lines.rows) (vectors rays.rows)) }
{
    let mut rows = lines;
    rows.append(without_divisor(dim, rays))?;
    ConsSys::of_rows(alloc, dim, rows)
}

/// The constraint that holds at no point.
pub fn false_constraints(alloc: Global, dim: usize) -> Result<ConsSys, Memory>
    requires { dim < 2 ^ 32 - 2 }
    ensures dim { IfOk result (λ cons. cons.dim ≡ dim) }
    ensures list { IfOk result (λ cons. cons.list ≡ (false_row dim, Ge) ∷ []) }
{
    let mut cons = ConsSys::new(alloc, dim);
    cons.push(&false_row(alloc, dim)?, ConKind::Ge)?;
    Ok(cons)
}

/// Whether the row is `(0, .., 0, 1)`.
pub(crate) fn is_divisor(dim: usize, row: &[i128]) -> bool
    requires { length row.now ≡ dim + 1 }
    ensures { result ≡ is_last_one dim row.now }
{
    is_one(row[dim]) && all_zero(&row[..dim])
}

/// Whether all entries are 0.
fn all_zero(entries: &[i128]) -> bool
    ensures { result ≡ is_zero entries.now }
{
    entries.iter().all(|entry| *entry == 0)
}

/// Whether the entry is 1.
fn is_one(entry: i128) -> bool
    ensures { result ≡ int_eq entry (pos 1) }
{
    entry == 1
}

/// The rows without `(0, .., 0, 1)`.
fn without_divisor(dim: usize, rays: RowList) -> RowList
    requires { rays.width ≡ dim + 1 }
    ensures width { result.width ≡ dim + 1 }
    ensures rows { result.rows ≡ filter (λ row. not (is_divisor_row dim row.0)) rays.rows }
{
    let mut rows = rays;
    let mut index = rows.len();
    while index > 0 {
        index -= 1;
        if is_divisor(dim, rows.row(index)) {
            rows.remove(index);
        }
    }
    rows
}

/// The row `(0, .., 0, -1)`.
fn false_row(alloc: Global, dim: usize) -> Result<Vec<i128>, Memory>
    requires { dim < 2 ^ 32 - 2 }
    ensures row { IfOk result (λ v. v.items ≡ false_row dim) }
    ensures wide { IfOk result (λ v. length v.items ≡ dim + 1) }
    ensures in_range { IfOk result (λ v. AllInRange v.items) }
{
    let mut row = vec![in alloc; 0i128; dim]?;
    row.push(-1)?;
    Ok(row)
}
