//! The values of vectors on a row.
ghost use Rattle.std.specs.Prelude.{◌≡◌, ◌≢◌, ℕ, ◌^◌, ◌<◌, true, [], ◌++◌, length, map, replicate, count_by, pos, All, MatchBool, MatchResult, MatchOption, OnOk, slice_index_or};
ghost use Rattle.row_core.specs.Vectors.{dot};
ghost use Rattle.row_core.specs.Range.{InRange};
ghost use Rattle.row_core.specs.Sizes.{HaveBits};
ghost use Rattle.row_core.specs.Signs.{stays};
ghost use Rattle.row_core.specs.Lists.{vectors};
ghost use Rattle.row_store.specs.Values.{values_on, AllSuffice, AllStay, SomeGoes};
ghost use Rattle.row_store.specs.Faults.{IsValuesFault};

use crate::fault::{Part, Place, ValueFault};
use crate::vectors::VectorList;
use row_core::{Summing, word_dot};
use smallvec::SmallVec;
use std::alloc::AllocError;

/// The values of vectors on a row: those of a small system take no memory from the heap.
pub type Values = SmallVec<i128, 16>;

/// Marks of vectors, true or false: those of a small system take no memory from the heap.
pub type Marks = SmallVec<bool, 32>;

/// Lists the value of each vector on the row, which has at most so many bits, in that place.
pub fn values(
    place: &mut Values,
    part: Part,
    list: &VectorList,
    row: &[i128],
    bits: u32,
) -> Result<(), ValueFault>
    requires wide { length row.now ≡ list.now.width }
    requires narrow { length row.now < 2 ^ 32 }
    requires row { HaveBits bits row.now }
    ensures values { let vs = vectors list.now.rows in
        MatchResult result
        (λ _. place.new.items ≡ values_on row.now vs) (IsValuesFault row.now part vs) }
    ensures in_range { OnOk result (All InRange place.new.items) }
{
    let summing = Summing::of(bits, list.bits(), row.len());
    place.clear();
    if let Summing::Words = summing {
        return Ok(word_values(place, list, row)?);
    }
    summed_values(place, part, list, row, summing)
}

/// Lists the value of each vector on the row, each in one word, in a place that is empty yet.
fn word_values(place: &mut Values, list: &VectorList, row: &[i128]) -> Result<(), AllocError>
    requires empty { place.old.items ≡ [] }
    requires wide { length row.now ≡ list.now.width }
    requires words { AllSuffice Summing.Words row.now list.now.rows }
    ensures values { OnOk result (place.new.items ≡ values_on row.now (vectors list.now.rows)) }
    ensures in_range { OnOk result (All InRange place.new.items) }
{
    place.reserve(list.len())?;
    for index in 0..list.len() {
        place.push_reserved(word_dot(row, list.row(index)));
    }
    Ok(())
}

/// Lists the value of each vector on the row, summed as it suffices, in a place that is empty yet.
fn summed_values(
    place: &mut Values,
    part: Part,
    list: &VectorList,
    row: &[i128],
    summing: Summing,
) -> Result<(), ValueFault>
    requires empty { place.old.items ≡ [] }
    requires wide { length row.now ≡ list.now.width }
    requires narrow { length row.now < 2 ^ 32 }
    requires suffices { AllSuffice summing row.now list.now.rows }
    ensures values { let vs = vectors list.now.rows in
        MatchResult result
        (λ _. place.new.items ≡ values_on row.now vs) (IsValuesFault row.now part vs) }
    ensures in_range { OnOk result (All InRange place.new.items) }
{
    for index in 0..list.len() {
        match summing.dot(row, list.row(index)) {
            Ok(value) => place.push(value)?,
            Err(column) => {
                let vector = Place { part, index };
                return Err(ValueFault::Dot { vector, column });
            }
        }
    }
    Ok(())
}

/// The index of the last value that isn't 0.
pub fn last_crossing(values: &[i128]) -> Option<usize>
    ensures { let list = values.now in let count = length list in
        MatchOption result ((k : ℕ) → k < count → slice_index_or list k (pos 0) ≡ pos 0)
        (λ i. (i < count) × (slice_index_or list i (pos 0) ≢ pos 0) ×
        ((k : ℕ) → i < k → k < count → slice_index_or list k (pos 0) ≡ pos 0)) }
{
    let mut last = None;
    for index in 0..values.len() {
        if values[index] != 0 {
            last = Some(index);
        }
    }
    last
}

/// Whether a vector with this value on a row meets it: 0 for an equality, at least 0 otherwise.
#[inline]
fn meets(eq: bool, value: i128) -> bool
    ensures { result ≡ stays eq value }
{
    if eq { value == 0 } else { value >= 0 }
}

/// Whether all vectors meet the row, from their values on it.
pub fn all_meet(eq: bool, values: &[i128]) -> bool
    ensures { MatchBool result (AllStay eq values.now) (SomeGoes eq values.now) }
{
    for index in 0..values.len() {
        if !meets(eq, values[index]) {
            return false;
        }
    }
    true
}

/// How many vectors meet the row, from their values on it.
pub fn count_meeting(eq: bool, values: &[i128]) -> usize
    ensures { result ≡ count_by (λ value. stays eq value) values.now }
{
    values.iter().filter(|value| meets(eq, **value)).count()
}

/// Appends true for each pair.
pub fn mark_pairs(marks: &mut Marks, pairs: &[(usize, usize)]) -> Result<(), AllocError>
    ensures { let more = replicate (length pairs.now) true in
        OnOk result (marks.new.items ≡ marks.old.items ++ more) }
{
    for _pair in 0..pairs.len() {
        marks.push(true)?;
    }
    Ok(())
}

/// Marks in that place which vectors meet the row, from their values on it.
pub fn marks(place: &mut Marks, eq: bool, values: &[i128]) -> Result<(), AllocError>
    ensures { OnOk result (place.new.items ≡ map (λ value. stays eq value) values.now) }
{
    place.clear();
    place.reserve(values.len())?;
    for value in values {
        place.push_reserved(meets(eq, *value));
    }
    Ok(())
}
