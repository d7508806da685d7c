//! Searches among rows of as many words each, one after another in one list of cells. Their loops
//! are compiled for each of the small widths.
ghost use Rattle.std.specs.Prelude.{◌≡◌, ◌↔◌, ℕ, ◌+◌, ◌*◌, ◌^◌, ◌<◌, ◌≤◌, IsTrue, length};
ghost use Rattle.std.specs.Prelude.{slice_index_or};
ghost use Rattle.sat_bits.specs.Searches.{row_words, HasCoveringRow, HasThirdRow, IsWithinSome};
ghost use Rattle.sat_bits.specs.Searches.{IsFirstFrom, SharesPlaces, shared_by};
ghost use Rattle.sat_bits.specs.Searches.{HaveCommonBit, HasOtherRow};

use crate::counts::count_and;
use crate::kernels::{is_subset_of_and, some_other_covers};

/// The first position from `from` on at which the list names a row that shares at least `least`
/// places with row `i`, or the list's length where there is none.
#[inline]
pub fn next_sharing(
    cells: &[u64],
    width: usize,
    i: usize,
    among: &[usize],
    from: usize,
    least: usize,
) -> usize
    requires row { i * width + width ≤ length cells.now }
    requires among { (q : ℕ) → q < length among.now →
        slice_index_or among.now q 0 * width + width ≤ length cells.now }
    requires few { (q : ℕ) → q < length among.now →
        shared_by cells.now width i (slice_index_or among.now q 0) < 2 ^ 64 }
    requires from { from ≤ length among.now }
    ensures { IsFirstFrom (SharesPlaces cells.now width i among.now least) from
        (length among.now) result }
{
    match width {
        1 => next_sharing_as_wide(cells, 1, i, among, from, least),
        2 => next_sharing_as_wide(cells, 2, i, among, from, least),
        3 => next_sharing_as_wide(cells, 3, i, among, from, least),
        4 => next_sharing_as_wide(cells, 4, i, among, from, least),
        5 => next_sharing_as_wide(cells, 5, i, among, from, least),
        6 => next_sharing_as_wide(cells, 6, i, among, from, least),
        7 => next_sharing_as_wide(cells, 7, i, among, from, least),
        8 => next_sharing_as_wide(cells, 8, i, among, from, least),
        width => next_sharing_as_wide(cells, width, i, among, from, least),
    }
}

/// Whether some row of so many, other than `i` and `j`, has each bit that both have.
#[inline]
pub fn has_third_row(cells: &[u64], width: usize, rows: usize, i: usize, j: usize) -> bool
    requires rows { length cells.now ≡ rows * width }
    requires first { i < rows }
    requires second { j < rows }
    ensures { IsTrue result ↔ HasThirdRow cells.now width rows i j }
{
    match width {
        1 => some_other_covers(cells, i, j),
        2 => has_third_as_wide(cells, 2, rows, i, j),
        3 => has_third_as_wide(cells, 3, rows, i, j),
        4 => has_third_as_wide(cells, 4, rows, i, j),
        width => has_third_as_wide(cells, width, rows, i, j),
    }
}

/// Whether another row that the list names has each bit of row `i`.
#[inline]
pub fn has_covering_row(cells: &[u64], width: usize, i: usize, among: &[usize]) -> bool
    requires row { i * width + width ≤ length cells.now }
    requires among { (q : ℕ) → q < length among.now →
        slice_index_or among.now q 0 * width + width ≤ length cells.now }
    ensures { IsTrue result ↔ HasCoveringRow cells.now width i among.now }
{
    match width {
        1 => has_covering_as_wide(cells, 1, i, among),
        2 => has_covering_as_wide(cells, 2, i, among),
        3 => has_covering_as_wide(cells, 3, i, among),
        4 => has_covering_as_wide(cells, 4, i, among),
        width => has_covering_as_wide(cells, width, i, among),
    }
}

/// Whether some row that the list names has each bit of row `i`.
#[inline]
pub fn is_within_some(cells: &[u64], width: usize, i: usize, among: &[usize]) -> bool
    requires row { i * width + width ≤ length cells.now }
    requires among { (q : ℕ) → q < length among.now →
        slice_index_or among.now q 0 * width + width ≤ length cells.now }
    ensures { IsTrue result ↔ IsWithinSome cells.now width i among.now }
{
    match width {
        1 => is_within_as_wide(cells, 1, i, among),
        2 => is_within_as_wide(cells, 2, i, among),
        3 => is_within_as_wide(cells, 3, i, among),
        4 => is_within_as_wide(cells, 4, i, among),
        width => is_within_as_wide(cells, width, i, among),
    }
}

/// The same as `next_sharing`, compiled for the width where the caller knows it.
#[inline(always)]
fn next_sharing_as_wide(
    cells: &[u64],
    width: usize,
    i: usize,
    among: &[usize],
    from: usize,
    least: usize,
) -> usize
    requires row { i * width + width ≤ length cells.now }
    requires among { (q : ℕ) → q < length among.now →
        slice_index_or among.now q 0 * width + width ≤ length cells.now }
    requires few { (q : ℕ) → q < length among.now →
        shared_by cells.now width i (slice_index_or among.now q 0) < 2 ^ 64 }
    requires from { from ≤ length among.now }
    ensures { IsFirstFrom (SharesPlaces cells.now width i among.now least) from
        (length among.now) result }
{
    let row = row_at(cells, width, i);
    for q in from..among.len() {
        let other = row_at(cells, width, among[q]);
        if count_and(row, other) >= least {
            return q;
        }
    }
    among.len()
}

/// The same as `has_third_row`, compiled for the width where the caller knows it. Most rows lack a
/// bit of the first word in which both have one: it is looked at before the whole row.
#[inline(always)]
fn has_third_as_wide(cells: &[u64], width: usize, rows: usize, i: usize, j: usize) -> bool
    requires rows { length cells.now ≡ rows * width }
    requires first { i < rows }
    requires second { j < rows }
    ensures { IsTrue result ↔ HasThirdRow cells.now width rows i j }
{
    let first = row_at(cells, width, i);
    let second = row_at(cells, width, j);
    let word = first_common_word(first, second);
    if word == width {
        return has_other_row(rows, i, j);
    }
    let both = first[word] & second[word];
    for k in 0..rows {
        let row = row_at(cells, width, k);
        if both & !row[word] == 0 && k != i && k != j && is_subset_of_and(first, second, row) {
            return true;
        }
    }
    false
}

/// The first word in which both rows have a bit, or the number of words where there is none.
#[inline(always)]
fn first_common_word(first: &[u64], second: &[u64]) -> usize
    requires { length second.now ≡ length first.now }
    ensures { IsFirstFrom (HaveCommonBit first.now second.now) 0 (length first.now) result }
{
    for word in 0..first.len() {
        if first[word] & second[word] != 0 {
            return word;
        }
    }
    first.len()
}

/// Whether of so many rows some is another than `i` and `j`.
#[inline]
fn has_other_row(rows: usize, i: usize, j: usize) -> bool
    requires first { i < rows }
    requires second { j < rows }
    ensures { IsTrue result ↔ HasOtherRow rows i j }
{
    rows > 2 || (rows == 2 && i == j)
}

/// The same as `has_covering_row`, compiled for the width where the caller knows it.
#[inline(always)]
fn has_covering_as_wide(cells: &[u64], width: usize, i: usize, among: &[usize]) -> bool
    requires row { i * width + width ≤ length cells.now }
    requires among { (q : ℕ) → q < length among.now →
        slice_index_or among.now q 0 * width + width ≤ length cells.now }
    ensures { IsTrue result ↔ HasCoveringRow cells.now width i among.now }
{
    let row = row_at(cells, width, i);
    for q in 0..among.len() {
        let other = row_at(cells, width, among[q]);
        if among[q] != i && is_subset_of_and(row, row, other) {
            return true;
        }
    }
    false
}

/// The same as `is_within_some`, compiled for the width where the caller knows it.
#[inline(always)]
fn is_within_as_wide(cells: &[u64], width: usize, i: usize, among: &[usize]) -> bool
    requires row { i * width + width ≤ length cells.now }
    requires among { (q : ℕ) → q < length among.now →
        slice_index_or among.now q 0 * width + width ≤ length cells.now }
    ensures { IsTrue result ↔ IsWithinSome cells.now width i among.now }
{
    let row = row_at(cells, width, i);
    for q in 0..among.len() {
        let other = row_at(cells, width, among[q]);
        if is_subset_of_and(row, row, other) {
            return true;
        }
    }
    false
}

/// Row `i` of rows of so many words each.
#[inline(always)]
fn row_at(cells: &[u64], width: usize, i: usize) -> &[u64]
    requires { i * width + width ≤ length cells.now }
    ensures value { result.now ≡ row_words cells.now width i }
    ensures wide { length result.now ≡ width }
{
    let start = i * width;
    &cells[start..start + width]
}
