//! Rows with more columns, or with fewer.
ghost use Rattle.std.specs.Prelude.{◌≡◌, ℕ, ◌+◌, ◌^◌, ◌<◌, ◌≤◌, length, All, IfOk, OnOk};
ghost use Rattle.row_core.specs.Range.{AllInRange};
ghost use Rattle.mapped_systems.specs.Maps.{with_zeros, kept_variables, picked};

use row_core::Memory;
use std::alloc::Global;

/// Writes the row with zeros before a column into the buffer, in place of what it held.
pub(crate) fn put_with_zeros(
    buffer: &mut Vec<i128>,
    column: usize,
    count: usize,
    row: &[i128],
) -> Result<(), Memory>
    requires column { column ≤ length row.now }
    requires narrow { length row.now + count < 2 ^ 32 }
    requires in_range { AllInRange row.now }
    ensures row { OnOk result (buffer.new.items ≡ with_zeros column count row.now) }
    ensures in_range { OnOk result (AllInRange buffer.new.items) }
{
    buffer.clear();
    buffer.extend_from_slice(&row[..column])?;
    buffer.resize(column + count, 0)?;
    buffer.extend_from_slice(&row[column..])?;
    Ok(())
}

/// The variables that aren't named, in order.
pub(crate) fn kept_variables(
    alloc: Global,
    dim: usize,
    named: &[usize],
) -> Result<Vec<usize>, Memory>
    ensures { IfOk result (λ kept. kept.items ≡ kept_variables dim named.now) }
{
    let mut kept = Vec::new(alloc);
    for variable in 0..dim {
        if !named.contains(&variable) {
            kept.push(variable)?;
        }
    }
    Ok(kept)
}

/// Writes the row's entries at the columns, and then that of the divisor, into the buffer, in place
/// of what it held.
pub(crate) fn put_picked(
    buffer: &mut Vec<i128>,
    columns: &[usize],
    divisor: usize,
    row: &[i128],
) -> Result<(), Memory>
    requires columns { All (λ (j : ℕ). j < length row.now) columns.now }
    requires divisor { divisor < length row.now }
    requires narrow { length columns.now + 1 < 2 ^ 32 }
    requires in_range { AllInRange row.now }
    ensures row { OnOk result (buffer.new.items ≡ picked columns.now divisor row.now) }
    ensures in_range { OnOk result (AllInRange buffer.new.items) }
{
    buffer.clear();
    buffer.reserve(columns.len() + 1)?;
    for column in columns {
        buffer.push_reserved(row[*column]);
    }
    buffer.push_reserved(row[divisor]);
    Ok(())
}
