//! Rows of words.
ghost use Rattle.std.specs.Prelude.{◌≡◌, ◌≢◌, ◌+◌, ◌<◌, ◌∷◌, [], ◌++◌, length, map, slice_set, IfOk};
ghost use Rattle.flat_rows.specs.Flat.{entries_at, fitted, HasOneWidth};
ghost use Rattle.flat_rows.specs.Words.{and_words};

use crate::rows::FlatRows;
use std::alloc::{AllocError, Global};

/// Appends the conjunction of rows `i` and `j`, for which room was made.
pub fn push_and(rows: &mut FlatRows<u64>, i: usize, j: usize)
    requires spare { 0 < rows.old.spare }
    requires first { i < length rows.old.rows }
    requires second { j < length rows.old.rows }
    ensures rectangular { HasOneWidth rows.old }
    ensures width { rows.new.width ≡ rows.old.width }
    ensures rows { rows.new.rows ≡ rows.old.rows ++
        and_words (entries_at rows.old.rows i) (entries_at rows.old.rows j) ∷ [] }
    ensures spare { rows.new.spare + 1 ≡ rows.old.spare }
{
    let _width = rows.width();
    let last = rows.len();
    rows.push_copy(i);
    and_onto(rows, last, j);
}

/// Writes the conjunction of two rows over the first of them.
fn and_onto(rows: &mut FlatRows<u64>, to: usize, from: usize)
    requires to { to < length rows.old.rows }
    requires from { from < length rows.old.rows }
    requires other { to ≢ from }
    ensures { rows.new ≡ record rows.old {
      rows = slice_set rows.old.rows to
          (and_words (entries_at rows.old.rows to) (entries_at rows.old.rows from));
    } }
{
    for word in 0..rows.width() {
        let both = rows.row(to)[word] & rows.row(from)[word];
        rows.put(to, word, both);
    }
}

/// Returns a copy with further words of 0 in each row, at least one, and a quarter as many as there
/// are, so that a table that grows column by column is seldom copied; nothing is reserved.
pub fn widened(rows: &FlatRows<u64>, alloc: Global) -> Result<FlatRows<u64>, AllocError>
    ensures width { IfOk result (λ wider. rows.now.width < wider.width) }
    ensures rows { IfOk result (λ wider. wider.rows ≡ map (fitted wider.width 0) rows.now.rows) }
    ensures spare { IfOk result (λ wider. wider.spare ≡ 0) }
{
    let more = (rows.width() / 4).max(1);
    let width = rows.width().checked_add(more).ok_or(AllocError)?;
    let mut wider = FlatRows::new(alloc, width);
    wider.reserve(rows.len())?;
    for i in 0..rows.len() {
        wider.push_fitted(rows.row(i), 0);
    }
    Ok(wider)
}
