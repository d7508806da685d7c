//! The table of the second system.
ghost use Rattle.std.specs.Prelude.{◌≡◌, ℕ, ◌+◌, ◌<◌, [], ◌∷◌, ◌++◌, length, map, All, IfOk, slice_index_or};
ghost use Rattle.sat_matrix.specs.Tables.{bits_of};
ghost use Rattle.minimise.specs.SecondSystems.{behind_lines};

use row_core::Memory;
use sat_matrix::SatMatrix;
use std::alloc::Global;

/// Appends a row of another table behind so many places that are true.
#[inline]
fn push_behind(table: &mut SatMatrix, lines: usize, zeros: &SatMatrix, row: usize)
    requires spare { 0 < table.old.spare }
    requires columns { table.old.columns ≡ lines + zeros.now.columns }
    requires row { row < length zeros.now.rows }
    ensures columns { table.new.columns ≡ table.old.columns }
    ensures rows { table.new.rows ≡ table.old.rows
        ++ behind_lines lines (bits_of zeros.now.rows row) ∷ [] }
    ensures spare { table.new.spare + 1 ≡ table.old.spare }
{
    if lines == 0 {
        table.push_row_of(zeros, row);
    } else {
        table.push_row_behind(lines, zeros, row);
    }
}

/// The rows at the places that the indices name, in that order, each behind one true place for each
/// line.
pub(crate) fn second_table(
    alloc: Global,
    lines: usize,
    zeros: &SatMatrix,
    places: &[usize],
    order: &[usize],
) -> Result<SatMatrix, Memory>
    requires places { All (λ p. p < length zeros.now.rows) places.now }
    requires order { All (λ i. i < length places.now) order.now }
    ensures columns { IfOk result (λ table. table.columns ≡ lines + zeros.now.columns) }
    ensures rows { let row = λ (i : ℕ). bits_of zeros.now.rows (slice_index_or places.now i 0) in
        IfOk result (λ table. table.rows ≡ map (λ i. behind_lines lines (row i)) order.now) }
{
    let Some(columns) = lines.checked_add(zeros.columns()) else {
        return Err(Memory);
    };
    let mut table = SatMatrix::new(alloc, columns);
    table.reserve(order.len())?;
    for index in 0..order.len() {
        push_behind(&mut table, lines, zeros, places[order[index]]);
    }
    Ok(table)
}
