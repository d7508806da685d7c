//! Rows reduced by the lines of a basis.
ghost use Rattle.std.specs.Prelude.{◌≡◌, ℕ, ◌+◌, ◌^◌, ◌<◌, ◌≤◌, [], length, pos, MatchOption, MatchResult, IfOk};
ghost use Rattle.row_core.specs.Vectors.{cell};
ghost use Rattle.row_core.specs.Range.{AllInRange};
ghost use Rattle.row_core.specs.Content.{IsPrimitive};
ghost use Rattle.row_core.specs.Lists.{vectors};
ghost use Rattle.cone_laws.specs.Canon.{IsPivot, IsEchelon};
ghost use Rattle.minimise.specs.Bases.{IsCleared, IsLeading, IsReduced};
ghost use Rattle.minimise.specs.Faults.{IsCombineFault, IsReduceFault};

use crate::fault::{Fault, left_of};
use row_core::{Memory, RowList, Steps, make_primitive};
use row_store::combine;
use smallvec::SmallVec;
use std::alloc::Global;
use std::sync::ledger::Ledger;

/// The first column at which the row isn't 0.
pub(crate) fn leading(row: &[i128]) -> Option<usize>
    ensures { MatchOption result ((j : ℕ) → cell row.now j ≡ pos 0) (IsLeading row.now) }
{
    for column in 0..row.len() {
        if row[column] != 0 {
            return Some(column);
        }
    }
    None
}

/// The pivot of a line.
pub(crate) fn pivot_of(line: &[i128]) -> usize
    requires { (p : ℕ) × IsPivot line.now p }
    ensures { IsPivot line.now result }
{
    leading(line).unwrap_or(0)
}

/// A row to write on. One of few columns takes no memory from the heap.
pub(crate) type Buffer = SmallVec<i128, 8>;

/// A row of zeros.
pub(crate) fn zeros(alloc: Global, width: usize) -> Result<Buffer, Memory>
    ensures { IfOk result (λ v. length v.items ≡ width) }
{
    Ok(SmallVec::from_elem(alloc, 0, width)?)
}

/// Writes over the row its primitive combination with the line that is 0 at the pivot of the line.
/// The factor of the row is positive.
///
/// # Errors
///
/// The combination, where it leaves the range.
pub(crate) fn clear<L: Ledger>(
    alloc: Global,
    row: &mut [i128],
    scratch: &mut [i128],
    line: &[i128],
    pivot: usize,
    steps: &mut Steps<L>,
) -> Result<(), Fault>
    requires same_width { (length row.old ≡ length line.now)
        × (length scratch.old ≡ length line.now) }
    requires narrow { length line.now < 2 ^ 32 }
    requires row { AllInRange row.old × IsPrimitive row.old }
    requires line { AllInRange line.now × IsPivot line.now pivot }
    ensures counted { (steps.old ≤ steps.new) × (steps.new ≤ steps.old + 1) }
    ensures widths { (length row.new ≡ length row.old) × (length scratch.new ≡ length scratch.old) }
    ensures cleared { MatchResult result (λ _. IsCleared pivot line.now row.old row.new)
        (IsCombineFault pivot line.now row.old) }
    ensures in_range { AllInRange row.new }
{
    if row[pivot] == 0 {
        return Ok(());
    }
    if let Err(column) = combine(scratch, line, line[pivot], row, row[pivot], steps) {
        return Err(left_of(alloc, line, row, column)?);
    }
    row.copy_from_slice(scratch);
    Ok(())
}

/// Writes a primitive row over `reduced`, 0 at the pivots of the lines: a positive multiple of the
/// row and multiples of the lines. The lines are taken in their order.
pub(crate) fn reduce<L: Ledger>(
    alloc: Global,
    lines: &RowList,
    row: &[i128],
    reduced: &mut [i128],
    scratch: &mut [i128],
    steps: &mut Steps<L>,
) -> Result<(), Fault>
    requires wide { length row.now ≡ lines.now.width }
    requires buffers { (length reduced.old ≡ lines.now.width)
        × (length scratch.old ≡ lines.now.width) }
    requires in_range { AllInRange row.now }
    requires echelon { IsEchelon (vectors lines.now.rows) [] }
    ensures counted { (steps.old ≤ steps.new) × (steps.new ≤ steps.old + length lines.now.rows) }
    ensures widths { (length reduced.new ≡ length reduced.old)
        × (length scratch.new ≡ length scratch.old) }
    ensures reduced { MatchResult result
        (λ _. IsReduced (vectors lines.now.rows) row.now reduced.new)
        (IsReduceFault (vectors lines.now.rows) row.now) }
    ensures in_range { AllInRange reduced.new }
{
    let _width = lines.width();
    reduced.copy_from_slice(row);
    make_primitive(reduced);
    for index in 0..lines.len() {
        let line = lines.row(index);
        clear(alloc, reduced, scratch, line, pivot_of(line), steps)?;
    }
    Ok(())
}
