//! Two tables of bounds for the same places.
ghost use Rattle.std.specs.Prelude.{◌≡◌, ◌⊎◌, ◌+◌, ℕ, ◌<◌, ◌↔◌, IsTrue, IfOk, IfErr, OnOk, OnErr};
ghost use Rattle.row_core.specs.Refusals.{IsOverflowIn};
ghost use Rattle.difference_bounds.specs.Fractions.{IsFraction};
ghost use Rattle.difference_bounds.specs.Walks.{Bounds};
ghost use Rattle.difference_bounds.specs.Values.{MeetBoth};
ghost use Rattle.difference_bounds.specs.Tables.{bounds_of, AreKept, HasZeros};
ghost use Rattle.difference_bounds.specs.Laws.{IsLesser, IsCovered};
ghost use Rattle.difference_bounds.specs.Overflows.{LeavesInLesser, LeavesInBoth};
ghost use Rattle.difference_bounds.specs.Combining.{IsChosen, IsChoosing, AreChosen, AreLesser, AreGreater, AreCovered, LeavesInChoice, LeavesInChoosing, LeavesInLowering, LeavesInRaising, LeavesInRow, LeavesInCovering};

use crate::choosing::{Choice, chosen, covers, lesser, picked};
use crate::fraction::Fraction;
use crate::table::BoundTable;
use crate::words::compared;
use row_core::ConvErr;
use std::alloc::Global;

impl BoundTable {
    /// Lowers the bound of place `i` less place `j` to the fraction, where it is above it.
    pub fn lower(
        &mut self,
        alloc: Global,
        i: usize,
        j: usize,
        fraction: Fraction,
    ) -> Result<(), ConvErr>
        requires row { i < self.old.places }
        requires column { j < self.old.places }
        requires fraction { IsFraction fraction }
        ensures places { self.new.places ≡ self.old.places }
        ensures here { OnOk result
            (IsLesser (bounds_of self.old i j) fraction (bounds_of self.new i j)) }
        ensures elsewhere { OnOk result
            (AreKept self.old.places i j (bounds_of self.old) (bounds_of self.new)) }
        ensures unchanged { OnErr result (self.new ≡ self.old) }
        ensures overflow { IfErr result
            (IsOverflowIn (LeavesInLesser (bounds_of self.old i j) fraction)) }
    {
        let bound = lesser(alloc, self.get(i, j), fraction)?;
        Ok(self.set(alloc, i, j, bound)?)
    }

    /// Takes in the bound of place `i` less place `j` of another table, as a fraction.
    fn combine_fractions(
        &mut self,
        alloc: Global,
        choice: Choice,
        other: &BoundTable,
        i: usize,
        j: usize,
    ) -> Result<(), ConvErr>
        requires same { other.now.places ≡ self.old.places }
        requires row { i < self.old.places }
        requires column { j < self.old.places }
        ensures places { self.new.places ≡ self.old.places }
        ensures here { OnOk result
            (IsChosen choice (bounds_of self.old i j) (bounds_of other.now i j)
            (bounds_of self.new i j)) }
        ensures elsewhere { OnOk result
            (AreKept self.old.places i j (bounds_of self.old) (bounds_of self.new)) }
        ensures overflow { IfErr result (IsOverflowIn
            (LeavesInChoice choice (bounds_of self.old i j) (bounds_of other.now i j))) }
    {
        let bound = chosen(alloc, choice, self.get(i, j), other.get(i, j))?;
        Ok(self.set(alloc, i, j, bound)?)
    }

    /// Takes in the bound of place `i` less place `j` of another table.
    #[inline]
    fn combine_at(
        &mut self,
        alloc: Global,
        choice: Choice,
        other: &BoundTable,
        i: usize,
        j: usize,
    ) -> Result<(), ConvErr>
        requires same { other.now.places ≡ self.old.places }
        requires row { i < self.old.places }
        requires column { j < self.old.places }
        ensures places { self.new.places ≡ self.old.places }
        ensures here { OnOk result
            (IsChosen choice (bounds_of self.old i j) (bounds_of other.now i j)
            (bounds_of self.new i j)) }
        ensures elsewhere { OnOk result
            (AreKept self.old.places i j (bounds_of self.old) (bounds_of self.new)) }
        ensures overflow { IfErr result (IsOverflowIn
            (LeavesInChoice choice (bounds_of self.old i j) (bounds_of other.now i j))) }
    {
        let (left, right) = self.word_pair(other, i, j);
        match picked(choice, left, right) {
            Some(true) => {
                self.put(i, j, right);
                Ok(())
            }
            Some(false) => Ok(()),
            None => self.combine_fractions(alloc, choice, other, i, j),
        }
    }

    /// Takes in the bounds of place `i` less each place of another table.
    fn combine_row(
        &mut self,
        alloc: Global,
        choice: Choice,
        other: &BoundTable,
        i: usize,
    ) -> Result<(), ConvErr>
        requires same { other.now.places ≡ self.old.places }
        requires row { i < self.old.places }
        ensures places { self.new.places ≡ self.old.places }
        ensures chosen { OnOk result
            ((old : Bounds)
            → IsChoosing choice old (bounds_of other.now) (bounds_of self.old) self.old.places i 0
            → IsChoosing choice old (bounds_of other.now) (bounds_of self.new) self.old.places
            (i + 1) 0) }
        ensures overflow { IfErr result (IsOverflowIn (λ over. (old : Bounds)
            → IsChoosing choice old (bounds_of other.now) (bounds_of self.old) self.old.places i 0
            → LeavesInChoosing choice old (bounds_of other.now) self.old.places over)) }
    {
        for j in 0..self.places() {
            self.combine_at(alloc, choice, other, i, j)?;
        }
        Ok(())
    }

    /// Takes in all bounds of another table.
    fn combine(&mut self, alloc: Global, choice: Choice, other: &BoundTable) -> Result<(), ConvErr>
        requires { other.now.places ≡ self.old.places }
        ensures places { self.new.places ≡ self.old.places }
        ensures chosen { OnOk result
            (AreChosen choice (bounds_of self.old) (bounds_of other.now) self.old.places
            (bounds_of self.new)) }
        ensures overflow { IfErr result (IsOverflowIn
            (LeavesInChoosing choice (bounds_of self.old) (bounds_of other.now) self.old.places)) }
    {
        for i in 0..self.places() {
            self.combine_row(alloc, choice, other, i)?;
        }
        Ok(())
    }

    /// Lowers each bound to that of another table, where it is above it. After an error the bounds
    /// that are left say nothing.
    pub fn lower_all(&mut self, alloc: Global, other: &BoundTable) -> Result<(), ConvErr>
        requires { other.now.places ≡ self.old.places }
        ensures places { self.new.places ≡ self.old.places }
        ensures zeros { OnOk result
            (HasZeros (bounds_of self.old) self.old.places
            → HasZeros (bounds_of other.now) self.old.places
            → HasZeros (bounds_of self.new) self.old.places) }
        ensures lesser { OnOk result
            (AreLesser (bounds_of self.old) (bounds_of other.now) self.old.places
            (bounds_of self.new)) }
        ensures meets { OnOk result
            (MeetBoth (bounds_of self.old) (bounds_of other.now)
            (bounds_of self.new) self.old.places) }
        ensures overflow { IfErr result (IsOverflowIn
            (LeavesInLowering (bounds_of self.old) (bounds_of other.now) self.old.places)) }
    {
        let _kept = self.places();
        let _others = other.places();
        self.combine(alloc, Choice::Lesser, other)
    }

    /// Raises each bound to that of another table, where it is below it. After an error the bounds
    /// that are left say nothing.
    pub fn raise_all(&mut self, alloc: Global, other: &BoundTable) -> Result<(), ConvErr>
        requires { other.now.places ≡ self.old.places }
        ensures places { self.new.places ≡ self.old.places }
        ensures greater { OnOk result
            (AreGreater (bounds_of self.old) (bounds_of other.now) self.old.places
            (bounds_of self.new)) }
        ensures overflow { IfErr result (IsOverflowIn
            (LeavesInRaising (bounds_of self.old) (bounds_of other.now) self.old.places)) }
    {
        if self.raise_words(other) {
            return Ok(());
        }
        self.combine(alloc, Choice::Greater, other)
    }

    /// Whether the bound of place `i` less place `j` of another table is at most that of this one.
    #[inline]
    fn covers_at(
        &self,
        alloc: Global,
        other: &BoundTable,
        i: usize,
        j: usize,
    ) -> Result<bool, ConvErr>
        requires same { other.now.places ≡ self.now.places }
        requires row { i < self.now.places }
        requires column { j < self.now.places }
        ensures covers { IfOk result
            (λ r. IsTrue r ↔ IsCovered (bounds_of self.now i j) (bounds_of other.now i j)) }
        ensures overflow { IfErr result
            (IsOverflowIn (LeavesInBoth (bounds_of self.now i j) (bounds_of other.now i j))) }
    {
        match compared(self.word(i, j), other.word(i, j)) {
            Some(below) => Ok(!below),
            None => covers(alloc, self.get(i, j), other.get(i, j)),
        }
    }

    /// Whether the bounds of place `i` less each place of another table are at most
    /// those of this one.
    fn covers_row(&self, alloc: Global, other: &BoundTable, i: usize) -> Result<bool, ConvErr>
        requires same { other.now.places ≡ self.now.places }
        requires row { i < self.now.places }
        ensures covers { IfOk result
            (λ r. IsTrue r
            ↔ ((j : ℕ) → j < self.now.places
            → IsCovered (bounds_of self.now i j) (bounds_of other.now i j))) }
        ensures overflow { IfErr result (IsOverflowIn
            (LeavesInRow (bounds_of self.now) (bounds_of other.now) self.now.places i)) }
    {
        for j in 0..self.places() {
            if !self.covers_at(alloc, other, i, j)? {
                return Ok(false);
            }
        }
        Ok(true)
    }

    /// Whether each bound of another table is at most that of this one.
    pub fn covers(&self, alloc: Global, other: &BoundTable) -> Result<bool, ConvErr>
        requires { other.now.places ≡ self.now.places }
        ensures covers { IfOk result
            (λ r. IsTrue r
            ↔ AreCovered (bounds_of self.now) (bounds_of other.now) self.now.places) }
        ensures overflow { IfErr result (IsOverflowIn
            (LeavesInCovering (bounds_of self.now) (bounds_of other.now) self.now.places)) }
    {
        if self.covers_words(other) {
            return Ok(true);
        }
        for i in 0..self.places() {
            if !self.covers_row(alloc, other, i)? {
                return Ok(false);
            }
        }
        Ok(true)
    }
}
