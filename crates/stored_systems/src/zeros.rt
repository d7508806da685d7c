//! Which constraints of a closed set with a point are 0 on which of its generators.
ghost use Rattle.std.specs.Prelude.{◌≡◌, ◌+◌, ◌<◌, ◌≤◌, ◌++◌, ◌∷◌, [], not, true, List, length, map, drop, replicate, IfOk, OnOk, ℤ};
ghost use Rattle.row_core.specs.Lists.{Row, vectors, system_rows};
ghost use Rattle.flat_rows.specs.Flat.{marked};
ghost use Rattle.sat_matrix.specs.Tables.{bits_of};
ghost use Rattle.sat_matrix.specs.ZeroTables.{IsZeroTable};
ghost use Rattle.row_core.specs.MarkedLists.{AreLists};
ghost use Rattle.stored_systems.specs.WorkLists.{divisor_row, generator_list};
ghost use Rattle.stored_systems.specs.StoredForms.{is_divisor_row};
ghost use Rattle.stored_systems.specs.Zeros.{TellsFrom, AreZeroOn, kept_inequalities};

use crate::storing::is_divisor;
use gens_sys::GensSys;
use row_core::{Memory, RowList};
use sat_matrix::SatMatrix;
use std::alloc::Global;

/// The zeros of the constraint list on the generators of a closed set with a point, from those of
/// the inequalities, whose rows begin at one of the given table.
pub fn pair_zeros(
    alloc: Global,
    gens: &GensSys,
    lines: &RowList,
    rays: &RowList,
    zeros: &SatMatrix,
    from: usize,
) -> Result<SatMatrix, Memory>
    requires lists { AreLists (gens.now.dim + 1) lines.now rays.now }
    requires equalities { AreZeroOn (generator_list gens.now) (vectors lines.now.rows) }
    requires inequalities { TellsFrom from (generator_list gens.now) (vectors rays.now.rows)
        zeros.now }
    ensures { let list = generator_list gens.now in
        let kept = kept_inequalities gens.now.dim (vectors rays.now.rows) in
        IfOk result (IsZeroTable list (length list)
        (divisor_row gens.now.dim ∷ vectors lines.now.rows ++ kept)) }
{
    let more = lines.len().saturating_add(rays.len());
    let mut table = zeros_with_room(alloc, gens, more)?;
    push_full_rows(&mut table, lines.len())?;
    push_kept_rows(&mut table, gens.dim(), rays, zeros, from)?;
    Ok(table)
}

/// The table of a system whose rays the rows of another table tell: its columns as rows, with so
/// many places that are true in front, for the lines.
pub fn turned_zeros(alloc: Global, lines: usize, sat: &SatMatrix) -> Result<SatMatrix, Memory>
    ensures { IfOk result
        (λ turned. (list : List Row) (first rest : List (List ℤ)) → length first ≡ lines
        → AreZeroOn list first → IsZeroTable list (length list) rest sat.now
        → IsZeroTable (system_rows first rest) (length (system_rows first rest)) (vectors list)
        turned) }
{
    if lines == 0 {
        return sat.transpose();
    }
    let mut whole = SatMatrix::new(alloc, sat.columns());
    whole.reserve(lines.saturating_add(sat.len()))?;
    push_full_rows(&mut whole, lines)?;
    push_rows_of(&mut whole, sat)?;
    whole.transpose()
}

/// The table of one row: the generators on which `(0, .., 0, 1)` is 0.
pub fn divisor_zeros(alloc: Global, gens: &GensSys) -> Result<SatMatrix, Memory>
    ensures { IfOk result
        (IsZeroTable (generator_list gens.now) (length (generator_list gens.now))
        (divisor_row gens.now.dim ∷ [])) }
{
    zeros_with_room(alloc, gens, 0)
}

/// The table of one row: the generators on which `(0, .., 0, 1)` is 0. There is room for some more
/// rows.
fn zeros_with_room(alloc: Global, gens: &GensSys, more: usize) -> Result<SatMatrix, Memory>
    ensures { IfOk result
        (IsZeroTable (generator_list gens.now) (length (generator_list gens.now))
        (divisor_row gens.now.dim ∷ [])) }
{
    let mut table = SatMatrix::new(alloc, gens.len());
    table.reserve(more.saturating_add(1))?;
    table.push_reserved(false);
    for index in 0..gens.len() {
        table.set(0, index, gens.row(index)[gens.dim()] == 0);
    }
    Ok(table)
}

/// Appends so many rows that are true throughout.
fn push_full_rows(table: &mut SatMatrix, count: usize) -> Result<(), Memory>
    ensures columns { table.new.columns ≡ table.old.columns }
    ensures rows { OnOk result
        (table.new.rows ≡ table.old.rows ++ replicate count (replicate table.old.columns true)) }
{
    table.reserve(count)?;
    for _row in 0..count {
        table.push_reserved(true);
    }
    Ok(())
}

/// Appends all rows of another table.
fn push_rows_of(table: &mut SatMatrix, other: &SatMatrix) -> Result<(), Memory>
    requires { other.now.columns ≡ table.old.columns }
    ensures columns { table.new.columns ≡ table.old.columns }
    ensures rows { OnOk result (table.new.rows ≡ table.old.rows ++ other.now.rows) }
{
    table.reserve(other.len())?;
    for row in 0..other.len() {
        table.push_row_of(other, row);
    }
    Ok(())
}

/// Appends a row of another table, that of a ray, where the ray isn't `(0, .., 0, 1)`.
fn push_kept_row(table: &mut SatMatrix, dim: usize, ray: &[i128], zeros: &SatMatrix, row: usize)
    requires spare { 0 < table.old.spare }
    requires wide { length ray.now ≡ dim + 1 }
    requires columns { zeros.now.columns ≡ table.old.columns }
    requires row { row < length zeros.now.rows }
    ensures columns { table.new.columns ≡ table.old.columns }
    ensures rows { table.new.rows ≡ table.old.rows
        ++ marked (not (is_divisor_row dim ray.now) ∷ []) (bits_of zeros.now.rows row ∷ []) }
    ensures spare { table.old.spare ≤ table.new.spare + 1 }
{
    if is_divisor(dim, ray) {
        return;
    }
    table.push_row_of(zeros, row);
}

/// Appends the rows of another table, from one on, of the rays that aren't `(0, .., 0, 1)`.
fn push_kept_rows(
    table: &mut SatMatrix,
    dim: usize,
    rays: &RowList,
    zeros: &SatMatrix,
    from: usize,
) -> Result<(), Memory>
    requires wide { rays.now.width ≡ dim + 1 }
    requires columns { zeros.now.columns ≡ table.old.columns }
    requires rows { from + length rays.now.rows ≡ length zeros.now.rows }
    ensures columns { table.new.columns ≡ table.old.columns }
    ensures rows { OnOk result
        (table.new.rows ≡ table.old.rows ++ marked
        (map (λ r. not (is_divisor_row dim r)) (vectors rays.now.rows))
        (drop from zeros.now.rows)) }
{
    prove!(rays.len() <= zeros.len());
    table.reserve(rays.len())?;
    for index in 0..rays.len() {
        push_kept_row(table, dim, rays.row(index), zeros, from + index);
    }
    Ok(())
}
