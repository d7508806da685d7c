//! The rows that aren't 0 on the whole cone, one for each greatest set of zeros.
ghost use Rattle.std.specs.Prelude.{◌≡◌, ℕ, ◌+◌, ◌<◌, ◌≤◌, [], ◌∷◌, ◌++◌, length, map, not, All, IsPermutation, IfOk, OnOk};
ghost use Rattle.flat_rows.specs.Flat.{marked};
ghost use Rattle.sat_matrix.specs.Tables.{IsWithinSome};
ghost use Rattle.minimise.specs.Facets.{AreSplit, AreUneven, AreRising, AreKept, AreGreatest, IsUneven, AreApart, counted_row, IsCounted, AreFalling, IsNoLonger};

use sat_matrix::SatMatrix;
use std::alloc::{AllocError, Global};

/// A row of the table, and how many of its places are true.
#[derive(Clone, Copy)]
pub(crate) struct CountedRow {
    ones: usize,
    place: usize,
}

/// At most so many rows are compared with each other, without a ranking.
const FEW_ROWS: usize = 40;

/// Of the rows at the places, the places of one for each greatest set of true places, in order.
pub(crate) fn facets_of(
    alloc: Global,
    table: &SatMatrix,
    mut places: Vec<usize>,
) -> Result<Vec<usize>, AllocError>
    requires uneven { AreUneven table.now.rows places.items }
    requires rising { AreRising places.items }
    ensures greatest { IfOk result (λ v. AreGreatest table.now.rows v.items) }
    ensures fewer { IfOk result (λ v. length v.items ≤ length places.items) }
{
    if places.len() <= FEW_ROWS {
        keep_greatest(table, &mut places);
        return Ok(places);
    }
    greatest_of(alloc, table, &places)
}

/// The places of the rows of the table that are true at each place, and those of the others.
pub(crate) fn full_places(
    alloc: Global,
    table: &SatMatrix,
) -> Result<(Vec<usize>, Vec<usize>), AllocError>
    ensures { IfOk result (λ places. AreSplit table.now.rows places.0.items places.1.items) }
{
    let mut full = Vec::new(alloc);
    let mut others = Vec::with_capacity(alloc, table.len())?;
    for row in 0..table.len() {
        let is_full = table.ones(row) == table.columns();
        push_place(&mut full, &mut others, row, is_full)?;
    }
    Ok((full, others))
}

/// Takes each place out at which the row is true only where one at another remaining place is. Of
/// equal rows the last stays.
fn keep_greatest(table: &SatMatrix, places: &mut Vec<usize>)
    requires uneven { AreUneven table.now.rows places.old.items }
    requires rising { AreRising places.old.items }
    ensures greatest { AreGreatest table.now.rows places.new.items }
    ensures fewer { length places.new.items ≤ length places.old.items }
{
    let mut at = 0;
    while at < places.len() {
        at = next_kept(table, places, at);
    }
}

/// Takes the place at the index out, if the row there is true only where one at another place is.
/// The index of the next place is returned.
fn next_kept(table: &SatMatrix, places: &mut Vec<usize>, at: usize) -> usize
    requires at { at < length places.old.items }
    requires kept { AreKept table.now.rows places.old.items at }
    ensures kept { AreKept table.now.rows places.new.items result }
    ensures within { result ≤ length places.new.items }
    ensures nearer { length places.new.items + (at + 1) ≡ length places.old.items + result }
    ensures fewer { length places.new.items ≤ length places.old.items }
{
    let _columns = table.columns();
    if !table.covered_among(places[at], places) {
        return at + 1;
    }
    let _place = places.remove(at);
    at
}

/// The same as [`facets_of`] for any number of rows, found by a ranking of the rows.
fn greatest_of(alloc: Global, table: &SatMatrix, places: &[usize]) -> Result<Vec<usize>, AllocError>
    requires { AreUneven table.now.rows places.now }
    ensures greatest { IfOk result (λ v. AreGreatest table.now.rows v.items) }
    ensures fewer { IfOk result (λ v. length v.items ≤ length places.now) }
{
    let ranked = ranked_rows(alloc, table, places)?;
    let mut facets = leaders(alloc, table, &ranked)?;
    facets.sort_unstable();
    Ok(facets)
}

/// Appends a place to the first list where the row is true at each place, and else to the second.
#[inline]
fn push_place(
    full: &mut Vec<usize>,
    others: &mut Vec<usize>,
    place: usize,
    is_full: bool,
) -> Result<(), AllocError>
    ensures first { OnOk result
        (full.new.items ≡ full.old.items ++ marked (is_full ∷ []) (place ∷ [])) }
    ensures second { OnOk result
        (others.new.items ≡ others.old.items ++ marked (not is_full ∷ []) (place ∷ [])) }
{
    if is_full {
        full.push(place)?;
    } else {
        others.push(place)?;
    }
    Ok(())
}

/// The rows at the places, each with the number of its true places.
fn counted_rows(
    alloc: Global,
    table: &SatMatrix,
    places: &[usize],
) -> Result<Vec<CountedRow>, AllocError>
    requires { All (λ p. p < length table.now.rows) places.now }
    ensures { let rows = table.now.rows in
        IfOk result (λ v. v.items ≡ map (counted_row rows) places.now) }
{
    let mut counted = Vec::with_capacity(alloc, places.len())?;
    for index in 0..places.len() {
        let place = places[index];
        counted.push(CountedRow {
            ones: table.ones(place),
            place,
        })?;
    }
    Ok(counted)
}

/// The same, those with more true places first, and of those with as many the last first.
fn ranked_rows(
    alloc: Global,
    table: &SatMatrix,
    places: &[usize],
) -> Result<Vec<CountedRow>, AllocError>
    requires { All (λ p. p < length table.now.rows) places.now }
    ensures same { let rows = table.now.rows in
        IfOk result (λ v. IsPermutation (map (counted_row rows) places.now) v.items) }
    ensures falling { IfOk result (λ v. AreFalling v.items) }
{
    let mut ranked = counted_rows(alloc, table, places)?;
    ranked.sort_by_key(|row| row.ones)?;
    ranked.reverse();
    Ok(ranked)
}

/// Appends the place of a row, which has at most as many true places as those at the places, unless
/// it is true only where one of them is.
fn push_leader(places: &mut Vec<usize>, table: &SatMatrix, row: usize) -> Result<(), AllocError>
    requires row { IsUneven table.now.rows row }
    requires uneven { All (IsUneven table.now.rows) places.old.items }
    requires apart { AreApart table.now.rows places.old.items }
    requires no_longer { IsNoLonger table.now.rows places.old.items row }
    ensures uneven { OnOk result (All (IsUneven table.now.rows) places.new.items) }
    ensures apart { OnOk result (AreApart table.now.rows places.new.items) }
    ensures no_longer { OnOk result (IsNoLonger table.now.rows places.new.items row) }
    ensures others { OnOk result ((m : ℕ) → IsWithinSome table.now.rows m places.old.items
        → IsWithinSome table.now.rows m places.new.items) }
    ensures led { OnOk result (IsWithinSome table.now.rows row places.new.items) }
    ensures at_most_one { OnOk result (length places.new.items ≤ length places.old.items + 1) }
{
    prove!(table.columns() == table.columns());
    if table.is_within_some(row, places) {
        return Ok(());
    }
    places.push(row)?;
    Ok(())
}

/// Of the rows one for each greatest set of true places. A row is compared with those before it
/// alone, since of two sets the greater one isn't within the lesser.
fn leaders(
    alloc: Global,
    table: &SatMatrix,
    ranked: &[CountedRow],
) -> Result<Vec<usize>, AllocError>
    requires counted { All (IsCounted table.now.rows) ranked.now }
    requires falling { AreFalling ranked.now }
    ensures uneven { IfOk result (λ v. All (IsUneven table.now.rows) v.items) }
    ensures apart { IfOk result (λ v. AreApart table.now.rows v.items) }
    ensures led { let rows = table.now.rows in
        IfOk result (λ v. All (λ row. IsWithinSome rows row.place v.items) ranked.now) }
    ensures fewer { IfOk result (λ v. length v.items ≤ length ranked.now) }
{
    let mut places = Vec::new(alloc);
    for index in 0..ranked.len() {
        push_leader(&mut places, table, ranked[index].place)?;
    }
    Ok(places)
}
