//! The union of rows of words, and the rows that share enough with it.
ghost use Rattle.std.specs.Prelude.{◌≡◌, ℕ, ◌<◌, ◌≤◌, OnOk, length};
ghost use Rattle.sat_matrix.specs.Pairs.{index_at};
ghost use Rattle.sat_matrix.specs.Near.{AreRisingFrom, HasKept, IsUnionOf, SharesWords};
ghost use Rattle.sat_matrix.specs.Filters.{FitsRows};

use flat_rows::FlatRows;
use sat_bits::{count_and, or_into};
use std::alloc::AllocError;

/// Makes the list a row of words that is true wherever a row is that `outer` names from one
/// position up to another.
pub(crate) fn unite(
    rows: &FlatRows<u64>,
    outer: &[usize],
    from: usize,
    to: usize,
    union: &mut Vec<u64>,
) -> Result<(), AllocError>
    requires outer { (p : ℕ) → p < length outer.now → index_at outer.now p < length rows.now.rows }
    requires to { (from ≤ to) × (to ≤ length outer.now) }
    ensures wide { OnOk result (length union.new.items ≡ rows.now.width) }
    ensures union { OnOk result (IsUnionOf rows.now.rows outer.now from to union.new.items) }
{
    union.clear();
    union.resize(rows.width(), 0)?;
    for position in from..to {
        or_into(union, rows.row(outer[position]));
    }
    Ok(())
}

/// How many places of a list of words are true, where that is for a choice alone.
pub(crate) fn count_places(words: &[u64]) -> usize {
    let mut places: usize = 0;
    for index in 0..words.len() {
        places = places.saturating_add(words[index].count_ones() as usize);
    }
    places
}

/// Which positions of a list of rows are kept: those of rows that share enough places with a row.
#[derive(Drop)]
struct Filter<'a> {
    union: &'a [u64],
    among: &'a [usize],
    least: usize,
}

/// Appends those of a list's positions from `start` on that the filter of these parts keeps.
pub(crate) fn push_sharing(
    rows: &FlatRows<u64>,
    union: &[u64],
    among: &[usize],
    least: usize,
    list: &mut Vec<usize>,
    start: usize,
) -> Result<(), AllocError>
    requires fits { FitsRows rows.now union.now among.now }
    requires start { start ≤ length list.old.items }
    requires rising { AreRisingFrom start (length among.now) list.old.items }
    ensures { let shares = SharesWords rows.now.rows union.now among.now least in
        OnOk result (HasKept shares start (length among.now) list.old.items list.new.items) }
{
    let filter = Filter {
        union,
        among,
        least,
    };
    match rows.width() {
        1 => push_sharing_as_wide(rows, 1, &filter, list, start),
        2 => push_sharing_as_wide(rows, 2, &filter, list, start),
        3 => push_sharing_as_wide(rows, 3, &filter, list, start),
        4 => push_sharing_as_wide(rows, 4, &filter, list, start),
        width => push_sharing_as_wide(rows, width, &filter, list, start),
    }
}

/// The same as `push_sharing`, compiled for the width where the caller knows it. Each position is
/// written, and the next one over it where it isn't kept, since a branch would often be predicted
/// wrongly.
#[inline(always)]
fn push_sharing_as_wide(
    rows: &FlatRows<u64>,
    width: usize,
    filter: &Filter,
    list: &mut Vec<usize>,
    start: usize,
) -> Result<(), AllocError>
    requires width { width ≡ rows.now.width }
    requires filter { FitsRows rows.now filter.now.union.now filter.now.among.now }
    requires start { start ≤ length list.old.items }
    requires rising { AreRisingFrom start (length filter.now.among.now) list.old.items }
    ensures { let f = filter.now in
        let shares = SharesWords rows.now.rows f.union.now f.among.now f.least in
        OnOk result (HasKept shares start (length f.among.now) list.old.items list.new.items) }
{
    let end = list.len();
    list.resize(end + (end - start), 0)?;
    let mut next = end;
    for index in start..end {
        let position = list[index];
        let row = rows.row_as_wide(width, filter.among[position]);
        list[next] = position;
        next += usize::from(count_and(row, filter.union) >= filter.least);
    }
    list.truncate(next);
    Ok(())
}
