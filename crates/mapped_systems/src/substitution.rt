//! Rows in which a variable is replaced by an expression over a divisor.
ghost use Rattle.std.specs.Prelude.{◌≡◌, ◌+◌, ◌^◌, ◌<◌, ◌≤◌, ◌++◌, ◌∷◌, [], length, slice_set, IfOk, IfErr, OnOk, MatchResult};
ghost use Rattle.std.proofs.Math.IntN.{◌*ℤ◌};
ghost use Rattle.row_core.specs.Vectors.{cell, scale};
ghost use Rattle.row_core.specs.Range.{InRange, AllInRange, AllStay, IsFirstToLeave};
ghost use Rattle.row_core.specs.Sizes.{Suffices};
ghost use Rattle.mapped_systems.specs.Maps.{substituted, pulled_back};
ghost use Rattle.mapped_systems.specs.Refusals.{EntryStays, LeavesInImage, LeavesInPullback, StaysInImage, StaysInPullback, ShowsPair};
ghost use Rattle.row_core.specs.Refusals.{IsOverflowIn};
ghost use Rattle.row_core.specs.declared.errors.OverKind.TheVariants.{Scale};

use crate::refusals::shown;
use row_core::{
    ConvErr, Memory, OverKind, Overflow, Steps, Summing, bits, combine_within, product,
};
use std::alloc::Global;
use std::sync::ledger::Ledger;

/// Multiplies each entry.
///
/// # Errors
///
/// The first column at which a product leaves the range.
fn scale_all(row: &mut [i128], factor: i128) -> Result<(), u32>
    requires narrow { length row.old < 2 ^ 32 }
    ensures width { length row.new ≡ length row.old }
    ensures scaled { MatchResult result (λ _. (row.new ≡ scale factor row.old) × AllInRange row.new)
        (IsFirstToLeave (λ j. InRange (factor *ℤ cell row.old j)) (length row.old)) }
{
    for column in 0..row.len() {
        let Some(entry) = product(factor, row[column]) else {
            return Err(column as u32);
        };
        row[column] = entry;
    }
    Ok(())
}

/// Writes the value over an entry, and multiplies all others.
///
/// # Errors
///
/// The first other column at which a product leaves the range.
fn write_image(row: &mut [i128], var: usize, den: i128, value: i128) -> Result<(), u32>
    requires var { var < length row.old }
    requires narrow { length row.old < 2 ^ 32 }
    requires in_range { AllInRange row.old }
    requires value_in_range { InRange value }
    ensures width { length row.new ≡ length row.old }
    ensures written { MatchResult result (λ _. (row.new ≡ slice_set (scale den row.old) var value)
        × AllInRange row.new) (IsFirstToLeave (EntryStays var den row.old) (length row.old)) }
    ensures stays { OnOk result (AllStay (EntryStays var den row.old) (length row.old)) }
{
    if den == 1 {
        row[var] = value;
        return Ok(());
    }
    row[var] = 0;
    scale_all(row, den)?;
    row[var] = value;
    Ok(())
}

/// The expression's row with the divisor behind.
fn fraction(alloc: Global, expr: &[i128], den: i128) -> Result<Vec<i128>, Memory>
    ensures { IfOk result (λ row. row.items ≡ expr.now ++ den ∷ []) }
{
    let mut row = Vec::from_slice(alloc, expr)?;
    row.push(den)?;
    Ok(row)
}

/// The overflow that shows a row and the fraction, at a product of the divisor.
fn shown_scale(
    alloc: Global,
    row: &[i128],
    expr: &[i128],
    den: i128,
    column: u32,
) -> Result<Overflow, Memory>
    requires in_range { AllInRange row.now }
    requires narrow { length row.now < 2 ^ 32 }
    requires expr_in_range { AllInRange expr.now }
    requires expr_narrow { length expr.now + 1 < 2 ^ 32 }
    requires den_in_range { InRange den }
    ensures rows { IfOk result (ShowsPair Scale row.now (expr.now ++ den ∷ [])) }
    ensures column { IfOk result (λ over. over.column ≡ column) }
{
    let right = fraction(alloc, expr, den)?;
    shown(alloc, OverKind::Scale, row, &right, column)
}

/// Writes the vector into the buffer, in place of what it held, with its variable replaced by the
/// expression's value, which is summed so, and all else times the divisor.
///
/// # Errors
///
/// An overflow shows the expression and the vector where their dot leaves the range, or else the
/// vector and the fraction where the divisor's product with an entry does.
pub(crate) fn put_image(
    buffer: &mut Vec<i128>,
    var: usize,
    expr: &[i128],
    den: i128,
    summing: Summing,
    v: &[i128],
) -> Result<(), ConvErr>
    requires var { var < length v.now }
    requires wide { length expr.now ≡ length v.now }
    requires narrow { length v.now + 1 < 2 ^ 32 }
    requires in_range { AllInRange v.now }
    requires expr_in_range { AllInRange expr.now }
    requires den_in_range { InRange den }
    requires suffices { Suffices summing expr.now v.now }
    ensures row { OnOk result (buffer.new.items ≡ substituted var expr.now den v.now) }
    ensures in_range { OnOk result (AllInRange buffer.new.items) }
    ensures stays { OnOk result (StaysInImage var expr.now den v.now) }
    ensures overflow { IfErr result (IsOverflowIn (LeavesInImage var expr.now den v.now)) }
{
    let alloc = *buffer.allocator();
    let value = match summing.dot(expr, v) {
        Ok(value) => value,
        Err(column) => {
            let over = shown(alloc, OverKind::Dot, expr, v, column)?;
            return Err(ConvErr::Overflow(over));
        }
    };
    buffer.clear();
    buffer.extend_from_slice(v)?;
    if let Err(column) = write_image(buffer.as_mut_slice(), var, den, value) {
        let over = shown_scale(alloc, v, expr, den, column)?;
        return Err(ConvErr::Overflow(over));
    }
    Ok(())
}

/// Writes a row into the buffer, in place of what it held: the one whose value at a vector is that
/// of the given row where the vector's variable is replaced. It is one combination of the row
/// without its variable and the expression.
///
/// # Errors
///
/// An overflow shows the row and the fraction, and the first column at which a product or the sum
/// leaves the range.
pub(crate) fn put_pulled<L: Ledger>(
    buffer: &mut Vec<i128>,
    var: usize,
    expr: &[i128],
    den: i128,
    row: &[i128],
    steps: &mut Steps<L>,
) -> Result<(), ConvErr>
    requires var { var < length row.now }
    requires wide { length expr.now ≡ length row.now }
    requires narrow { length row.now + 1 < 2 ^ 32 }
    requires in_range { AllInRange row.now }
    requires expr_in_range { AllInRange expr.now }
    requires den_in_range { InRange den }
    ensures row { OnOk result (buffer.new.items ≡ pulled_back var expr.now den row.now) }
    ensures in_range { OnOk result (AllInRange buffer.new.items) }
    ensures stays { OnOk result (StaysInPullback var expr.now den row.now) }
    ensures overflow { IfErr result (IsOverflowIn (LeavesInPullback var expr.now den row.now)) }
    ensures no_fewer { steps.old ≤ steps.new }
    ensures counted { steps.new ≤ steps.old + 1 }
{
    let alloc = *buffer.allocator();
    let factor = row[var];
    buffer.clear();
    buffer.extend_from_slice(row)?;
    buffer[var] = 0;
    let cleared = buffer.as_mut_slice();
    let within = bits(cleared).max(bits(expr));
    if let Err(column) = combine_within(cleared, den, expr, factor, within, steps) {
        let over = shown_scale(alloc, row, expr, den, column)?;
        return Err(ConvErr::Overflow(over));
    }
    Ok(())
}
