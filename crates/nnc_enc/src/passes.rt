//! The pass over the table that leaves out what another row covers.
ghost use Rattle.std.specs.Prelude.{◌≡◌, ℕ, ◌+◌, ◌<◌, ◌≤◌, length, IfOk, OnOk, IsTrue, ◌↔◌};
ghost use Rattle.sat_matrix.specs.Tables.{bits_of};
ghost use Rattle.nnc_enc.specs.Passes.{HasMarksRow, IsClear, IsCoveredRow, IsStep, IsPassed};

use row_core::Memory;
use sat_matrix::SatMatrix;

/// Whether row `i` of the table is true at none of the marked columns.
pub(crate) fn is_clear(columns: &[bool], sat: &SatMatrix, i: usize) -> bool
    requires wide { length columns.now ≡ sat.now.columns }
    requires row { i < length sat.now.rows }
    ensures { IsTrue result ↔ IsClear columns.now (bits_of sat.now.rows i) (length columns.now) }
{
    for place in 0..columns.len() {
        if columns[place] && sat.get(i, place) {
            return false;
        }
    }
    true
}

/// A copy of a table with one more row, which is true at the marked columns alone.
fn with_marks(sat: &SatMatrix, marks: &[bool]) -> Result<SatMatrix, Memory>
    requires wide { length marks.now ≡ sat.now.columns }
    ensures { IfOk result (λ table. HasMarksRow marks.now sat.now.rows table.rows) }
{
    let row = sat.len();
    let mut table = sat.clone()?;
    table.reserve(1)?;
    table.push_reserved(false);
    for column in 0..marks.len() {
        if marks[column] {
            table.set(row, column, true);
        }
    }
    Ok(table)
}

/// Whether some other row that is marked and kept is true at each column at which row `i` and the
/// row of the level are.
fn is_covered(table: &SatMatrix, level: usize, marks: &[bool], keep: &[bool], i: usize) -> bool
    requires level { level < length table.now.rows }
    requires marks { length marks.now ≡ length keep.now }
    requires keep { length keep.now ≤ length table.now.rows }
    requires row { i < length keep.now }
    ensures { IsTrue result ↔ (let rows = table.now.rows in
        IsCoveredRow (bits_of rows level) marks.now rows keep.now i) }
{
    for t in 0..keep.len() {
        if t != i && marks[t] && keep[t] && table.covers(level, i, t) {
            return true;
        }
    }
    false
}

/// Leaves row `i` out if it is marked, kept and covered.
fn drop_if_covered(table: &SatMatrix, level: usize, marks: &[bool], keep: &mut [bool], i: usize)
    requires level { level < length table.now.rows }
    requires marks { length marks.now ≡ length keep.old }
    requires keep { length keep.old ≤ length table.now.rows }
    requires row { i < length keep.old }
    ensures length { length keep.new ≡ length keep.old }
    ensures step { let rows = table.now.rows in
        IsStep (bits_of rows level) marks.now rows keep.old keep.new i }
{
    if marks[i] && keep[i] && is_covered(table, level, marks, keep, i) {
        keep[i] = false;
    }
}

/// Leaves out each marked row that another marked row covers that is still kept; the level columns
/// are those of a row of the table.
fn drop_in_order(table: &SatMatrix, level: usize, marks: &[bool], keep: &mut [bool])
    requires level { level < length table.now.rows }
    requires marks { length marks.now ≡ length keep.old }
    requires keep { length keep.old ≤ length table.now.rows }
    ensures length { length keep.new ≡ length keep.old }
    ensures passed { let rows = table.now.rows in
        IsPassed (bits_of rows level) marks.now rows keep.old keep.new (length keep.old) }
{
    for i in 0..keep.len() {
        drop_if_covered(table, level, marks, keep, i);
    }
}

/// Leaves out each marked row that another marked row covers that is still kept.
pub(crate) fn drop_covered(
    level: &[bool],
    marks: &[bool],
    sat: &SatMatrix,
    keep: &mut [bool],
) -> Result<(), Memory>
    requires wide { length level.now ≡ sat.now.columns }
    requires marks { length marks.now ≡ length sat.now.rows }
    requires keep { length keep.old ≡ length sat.now.rows }
    ensures length { length keep.new ≡ length keep.old }
    ensures passed { OnOk result (let rows = sat.now.rows in
        IsPassed level.now marks.now rows keep.old keep.new (length rows)) }
{
    let table = with_marks(sat, level)?;
    drop_in_order(&table, sat.len(), marks, keep);
    Ok(())
}
