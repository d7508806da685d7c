//! The two rows of a generator of a relation.
ghost use Rattle.std.specs.Prelude.{◌≡◌, ◌+◌, ◌-◌, ◌*◌, ◌^◌, ◌<◌, length, neg_ℤ, ◌+ℤ◌, IfOk, IfErr, MatchResult, SomeIff};
ghost use Rattle.row_core.specs.Vectors.{cell, add};
ghost use Rattle.row_core.specs.Range.{InRange, AllInRange, IsFirstToLeave};
ghost use Rattle.row_core.specs.declared.errors.OverKind.TheVariants.{Scale};
ghost use Rattle.cone_laws.specs.Cones.{negated};
ghost use Rattle.mapped_systems.specs.Refusals.{ShowsPair};
ghost use Rattle.row_core.specs.Refusals.{IsOverflowIn};
ghost use Rattle.ranking.specs.RankingRows.{bound_row, differences, fall_row};
ghost use Rattle.ranking.specs.Refusals.{DifferenceStays, LeavesInDifferences};

use row_core::{ConvErr, Memory, OverKind, Overflow, RowBuf};
use std::alloc::Global;

/// The state, its divisor, and 0.
pub(crate) fn bound_row(alloc: Global, states: usize, pair: &[i128]) -> Result<RowBuf, Memory>
    requires wide { length pair.now ≡ states + states + 1 }
    requires narrow { states < 2 ^ 31 - 1 }
    requires in_range { AllInRange pair.now }
    ensures row { IfOk result (λ row. row ≡ bound_row states pair.now) }
    ensures wide { IfOk result (λ row. length row ≡ states + 2) }
{
    let mut entries = Vec::from_slice(alloc, &pair[..states])?;
    entries.extend_from_slice(&pair[2 * states..])?;
    entries.push(0)?;
    Ok(RowBuf::from_vec(entries))
}

/// The difference, if it is in the range.
fn difference(a: i128, b: i128) -> Option<i128>
    ensures { SomeIff result (InRange (a +ℤ neg_ℤ b)) (a +ℤ neg_ℤ b) }
{
    match a.checked_sub(b) {
        Some(difference) if difference != i128::MIN => Some(difference),
        _ => None,
    }
}

/// Subtracts the entries of the one row from those of the other.
///
/// # Errors
///
/// The first column at which a difference leaves the range.
fn subtract(row: &mut [i128], other: &[i128]) -> Result<(), u32>
    requires narrow { length row.old < 2 ^ 32 }
    requires wide { length other.now ≡ length row.old }
    ensures width { length row.new ≡ length row.old }
    ensures subtracted { MatchResult result
        (λ _. (row.new ≡ add row.old (negated other.now)) × AllInRange row.new)
        (IsFirstToLeave (λ j. InRange (cell row.old j +ℤ neg_ℤ (cell other.now j)))
        (length row.old)) }
{
    for column in 0..row.len() {
        let Some(entry) = difference(row[column], other[column]) else {
            return Err(column as u32);
        };
        row[column] = entry;
    }
    Ok(())
}

/// The overflow that shows the pair twice, and the column.
fn shown(alloc: Global, pair: &[i128], column: u32) -> Result<Overflow, Memory>
    requires narrow { length pair.now < 2 ^ 32 }
    requires in_range { AllInRange pair.now }
    ensures rows { IfOk result (ShowsPair Scale pair.now pair.now) }
    ensures column { IfOk result (λ over. over.column ≡ column) }
{
    Overflow::of_rows(alloc, OverKind::Scale, pair, pair, column)
}

/// What the state has more than the successor, in each variable.
///
/// # Errors
///
/// An overflow shows the pair twice, and the first variable whose difference leaves the range.
fn differences(alloc: Global, states: usize, pair: &[i128]) -> Result<Vec<i128>, ConvErr>
    requires wide { length pair.now ≡ states + states + 1 }
    requires narrow { states < 2 ^ 31 - 1 }
    requires in_range { AllInRange pair.now }
    ensures entries { IfOk result (λ entries. entries.items ≡ differences states pair.now) }
    ensures in_range { IfOk result (λ entries. AllInRange entries.items) }
    ensures wide { IfOk result (λ entries. length entries.items ≡ states) }
    ensures overflow { IfErr result (IsOverflowIn (LeavesInDifferences states pair.now)) }
{
    let mut entries = Vec::from_slice(alloc, &pair[..states])?;
    let successor = &pair[states..2 * states];
    if let Err(column) = subtract(&mut entries, successor) {
        let over = shown(alloc, pair, column)?;
        return Err(ConvErr::Overflow(over));
    }
    Ok(entries)
}

/// What the state has more than the successor, 0, and the negated divisor.
///
/// # Errors
///
/// An overflow shows the pair twice, and the first variable whose difference leaves the range.
pub(crate) fn fall_row(alloc: Global, states: usize, pair: &[i128]) -> Result<RowBuf, ConvErr>
    requires wide { length pair.now ≡ states + states + 1 }
    requires narrow { states < 2 ^ 31 - 1 }
    requires in_range { AllInRange pair.now }
    ensures row { IfOk result (λ row. row ≡ fall_row states pair.now) }
    ensures wide { IfOk result (λ row. length row ≡ states + 2) }
    ensures overflow { IfErr result (IsOverflowIn (LeavesInDifferences states pair.now)) }
{
    let mut entries = match differences(alloc, states, pair) {
        Ok(entries) => entries,
        Err(cause) => return Err(cause),
    };
    let divisor = pair[2 * states];
    entries.push(0)?;
    entries.push(-divisor)?;
    Ok(RowBuf::from_vec(entries))
}
