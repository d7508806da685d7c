//! The reduced echelon basis of the rows that are 0 on the whole cone.
ghost use Rattle.std.specs.Prelude.{◌≡◌, ◌≢◌, ℕ, ◌+◌, ◌*◌, ◌^◌, ◌<◌, ◌≤◌, true, [], length, map, pos, All, MatchResult, IfOk, OnOk};
ghost use Rattle.row_core.specs.Vectors.{cell};
ghost use Rattle.row_core.specs.Range.{AllInRange};
ghost use Rattle.row_core.specs.Content.{IsPrimitive};
ghost use Rattle.row_core.specs.Lists.{row_at, vectors, AreMarked, vector_at};
ghost use Rattle.cone_laws.specs.Canon.{IsPivot, IsEchelon};
ghost use Rattle.minimise.specs.Bases.{IsBasis, IsPlace, HasTaken, AreCleared, IsLineCleared, IsNewLine, IsGrown, turned_up};
ghost use Rattle.minimise.specs.Buffers.{HasBuffers};
ghost use Rattle.minimise.specs.MinimalForms.{AreIndependent};
ghost use Rattle.minimise.specs.Faults.{IsCombineFault, IsClearFault, IsTakeFault, IsGrowFault, IsListFault};

use crate::fault::Fault;
use crate::reduction::{Buffer, clear, leading, pivot_of, reduce, zeros};
use row_core::{Memory, RowList, Steps, negate};
use std::alloc::Global;
use std::sync::ledger::Ledger;

/// The basis of the rows at the places, which are taken in in their order.
pub(crate) fn basis<L: Ledger>(
    alloc: Global,
    rows: &RowList,
    places: &[usize],
    steps: &mut Steps<L>,
) -> Result<RowList, Fault>
    requires within { All (λ p. p < length rows.now.rows) places.now }
    ensures counted { (steps.old ≤ steps.new)
        × (steps.new ≤ steps.old + 2 * (length places.now * rows.now.width)) }
    ensures basis { let flat = map (row_at rows.now.rows) places.now in
        MatchResult result (λ lines. IsBasis flat (vectors lines.rows))
        (IsListFault rows.now.rows flat) }
    ensures list { IfOk result
        (λ lines. (lines.width ≡ rows.now.width) × AreMarked true lines.rows) }
    ensures as_many { let flat = map (row_at rows.now.rows) places.now in
        IfOk result (λ lines. AreIndependent flat → length lines.rows ≡ length places.now) }
{
    let width = rows.width();
    if places.is_empty() {
        return Ok(RowList::new(alloc, width));
    }
    let mut basis = GrowingBasis::new(alloc, width)?;
    for index in 0..places.len() {
        basis.take(alloc, rows.row(places[index]), steps)?;
    }
    Ok(basis.lines)
}

/// How many lines have a pivot before the column, which is none of the pivots.
fn place_of(lines: &RowList, column: usize) -> usize
    requires echelon { IsEchelon (vectors lines.now.rows) [] }
    requires apart { (i : ℕ) → i < length lines.now.rows
        → ¬ (IsPivot (vector_at (vectors lines.now.rows) i) column) }
    ensures { IsPlace (vectors lines.now.rows) column result }
{
    for index in 0..lines.len() {
        if pivot_of(lines.row(index)) > column {
            return index;
        }
    }
    lines.len()
}

/// Gives the vector the sign with which it is positive at a column.
fn turn_up(vector: &mut [i128], column: usize)
    requires in_range { AllInRange vector.old }
    requires column { column < length vector.old }
    requires nonzero { cell vector.old column ≢ pos 0 }
    ensures turned { vector.new ≡ turned_up vector.old column }
    ensures in_range { AllInRange vector.new }
{
    if vector[column] > 0 {
        return;
    }
    negate(vector);
}

/// A reduced echelon basis that takes rows in, and the rows on which it works.
#[derive(Drop)]
struct GrowingBasis {
    lines: RowList,
    /// The row that is taken in, reduced by the lines.
    reduced: Buffer,
    /// A line that is cleared.
    cleared: Buffer,
    scratch: Buffer,
}

impl GrowingBasis {
    /// The basis of no row.
    fn new(alloc: Global, width: usize) -> Result<GrowingBasis, Memory>
        requires { width < 2 ^ 32 }
        ensures buffers { IfOk result HasBuffers }
        ensures width { IfOk result (λ basis. basis.lines.width ≡ width) }
        ensures empty { IfOk result (λ basis. basis.lines.rows ≡ []) }
    {
        let lines = RowList::new(alloc, width);
        let reduced = zeros(alloc, width)?;
        let cleared = zeros(alloc, width)?;
        let scratch = zeros(alloc, width)?;
        Ok(GrowingBasis {
            lines,
            reduced,
            cleared,
            scratch,
        })
    }

    /// Takes a row in.
    fn take<L: Ledger>(
        &mut self,
        alloc: Global,
        row: &[i128],
        steps: &mut Steps<L>,
    ) -> Result<(), Fault>
        requires buffers { HasBuffers self.old }
        requires echelon { IsEchelon (vectors self.old.lines.rows) [] }
        requires primitive { All IsPrimitive (vectors self.old.lines.rows) }
        requires wide { length row.now ≡ self.old.lines.width }
        requires in_range { AllInRange row.now }
        ensures counted { (steps.old ≤ steps.new)
            × (steps.new ≤ steps.old + 2 * self.old.lines.width) }
        ensures buffers { HasBuffers self.new }
        ensures width { self.new.lines.width ≡ self.old.lines.width }
        ensures grown { MatchResult result
            (λ _. IsGrown (vectors self.old.lines.rows) row.now (vectors self.new.lines.rows))
            (IsGrowFault (vectors self.old.lines.rows) row.now) }
        ensures marked { OnOk result
            (AreMarked true self.old.lines.rows → AreMarked true self.new.lines.rows) }
    {
        let _width = self.lines.width();
        reduce(
            alloc,
            &self.lines,
            row,
            &mut self.reduced,
            &mut self.scratch,
            steps,
        )?;
        let Some(pivot) = leading(&self.reduced) else {
            return Ok(());
        };
        turn_up(&mut self.reduced, pivot);
        self.take_line(alloc, pivot, steps)?;
        Ok(())
    }

    /// Takes the reduced row in, which is 0 at the pivots of the lines.
    fn take_line<L: Ledger>(
        &mut self,
        alloc: Global,
        pivot: usize,
        steps: &mut Steps<L>,
    ) -> Result<(), Fault>
        requires buffers { HasBuffers self.old }
        requires echelon { IsEchelon (vectors self.old.lines.rows) [] }
        requires primitive { All IsPrimitive (vectors self.old.lines.rows) }
        requires in_range { AllInRange self.old.reduced.items }
        requires line { IsNewLine (vectors self.old.lines.rows) self.old.reduced.items pivot }
        ensures counted { (steps.old ≤ steps.new)
            × (steps.new ≤ steps.old + length self.old.lines.rows) }
        ensures buffers { HasBuffers self.new }
        ensures width { self.new.lines.width ≡ self.old.lines.width }
        ensures taken { MatchResult result
            (λ _. HasTaken pivot (vectors self.old.lines.rows) self.old.reduced.items
            (vectors self.new.lines.rows))
            (IsTakeFault pivot (vectors self.old.lines.rows) self.old.reduced.items) }
        ensures marked { OnOk result
            (AreMarked true self.old.lines.rows → AreMarked true self.new.lines.rows) }
    {
        let place = place_of(&self.lines, pivot);
        self.clear_before(alloc, place, pivot, steps)?;
        self.lines.insert(place, &self.reduced, true)?;
        Ok(())
    }

    /// Clears the lines before an index at the pivot of the reduced row.
    fn clear_before<L: Ledger>(
        &mut self,
        alloc: Global,
        end: usize,
        pivot: usize,
        steps: &mut Steps<L>,
    ) -> Result<(), Fault>
        requires buffers { HasBuffers self.old }
        requires end { end ≤ length self.old.lines.rows }
        requires primitive { All IsPrimitive (vectors self.old.lines.rows) }
        requires in_range { AllInRange self.old.reduced.items }
        requires pivot { IsPivot self.old.reduced.items pivot }
        ensures counted { (steps.old ≤ steps.new) × (steps.new ≤ steps.old + end) }
        ensures buffers { HasBuffers self.new }
        ensures width { self.new.lines.width ≡ self.old.lines.width }
        ensures same { self.new.reduced.items ≡ self.old.reduced.items }
        ensures cleared { MatchResult result
            (λ _. AreCleared pivot self.old.reduced.items (vectors self.old.lines.rows) end
            (vectors self.new.lines.rows))
            (IsClearFault pivot self.old.reduced.items (vectors self.old.lines.rows)) }
        ensures marked { OnOk result
            (AreMarked true self.old.lines.rows → AreMarked true self.new.lines.rows) }
    {
        for index in 0..end {
            self.clear_line(alloc, index, pivot, steps)?;
        }
        Ok(())
    }

    /// Clears a line at the pivot of the reduced row. One that is 0 there stays as it is.
    fn clear_line<L: Ledger>(
        &mut self,
        alloc: Global,
        index: usize,
        pivot: usize,
        steps: &mut Steps<L>,
    ) -> Result<(), Fault>
        requires buffers { HasBuffers self.old }
        requires index { index < length self.old.lines.rows }
        requires primitive { IsPrimitive (row_at self.old.lines.rows index) }
        requires in_range { AllInRange self.old.reduced.items }
        requires pivot { IsPivot self.old.reduced.items pivot }
        ensures counted { (steps.old ≤ steps.new) × (steps.new ≤ steps.old + 1) }
        ensures buffers { HasBuffers self.new }
        ensures width { self.new.lines.width ≡ self.old.lines.width }
        ensures same { self.new.reduced.items ≡ self.old.reduced.items }
        ensures cleared { MatchResult result
            (λ _. IsLineCleared pivot self.old.reduced.items self.old.lines.rows index
            self.new.lines.rows)
            (IsCombineFault pivot self.old.reduced.items (row_at self.old.lines.rows index)) }
    {
        let _width = self.lines.width();
        if self.lines.row(index)[pivot] == 0 {
            return Ok(());
        }
        self.cleared.copy_from_slice(self.lines.row(index));
        clear(
            alloc,
            &mut self.cleared,
            &mut self.scratch,
            &self.reduced,
            pivot,
            steps,
        )?;
        self.lines.put(index, &self.cleared);
        Ok(())
    }
}
