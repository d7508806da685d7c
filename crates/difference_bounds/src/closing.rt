//! The least totals of walks in the place of the bounds, by the algorithm of Floyd and Warshall.
ghost use Rattle.std.specs.Prelude.{◌≡◌, ℕ, ◌+◌, ◌<◌, true, false, MatchBool, IfOk, IfErr, OnOk};
ghost use Rattle.row_core.specs.Refusals.{IsOverflowIn};
ghost use Rattle.difference_bounds.specs.Values.{IsTight, MeetSame, HasNone};
ghost use Rattle.difference_bounds.specs.Tables.{Table, IsTable, bounds_of, AreKept, HasZeros};
ghost use Rattle.difference_bounds.specs.Laws.{IsRelaxed};
ghost use Rattle.difference_bounds.specs.Overflows.{LeavesInRelaxing, LeavesInClosing};
ghost use Rattle.difference_bounds.specs.Passes.{IsPassing, HasNegative, HasNoNegative, IsClosed};

use crate::choosing::relaxed;
use crate::table::BoundTable;
use crate::words::{ABSENT, Outcome, step};
use row_core::ConvErr;
use std::alloc::Global;

impl BoundTable {
    /// Lowers the bound of place `i` less place `j` to the sum of those by way of place
    /// `k`, as fractions.
    fn relax_fractions(
        &mut self,
        alloc: Global,
        k: usize,
        i: usize,
        j: usize,
    ) -> Result<(), ConvErr>
        requires way { k < self.old.places }
        requires row { i < self.old.places }
        requires column { j < self.old.places }
        ensures places { self.new.places ≡ self.old.places }
        ensures here { OnOk result
            (IsRelaxed (bounds_of self.old i j) (bounds_of self.old i k) (bounds_of self.old k j)
            (bounds_of self.new i j)) }
        ensures elsewhere { OnOk result
            (AreKept self.old.places i j (bounds_of self.old) (bounds_of self.new)) }
        ensures overflow { IfErr result
            (IsOverflowIn
            (LeavesInRelaxing (bounds_of self.old i j) (bounds_of self.old i k)
            (bounds_of self.old k j))) }
    {
        let bound = relaxed(alloc, self.get(i, j), self.get(i, k), self.get(k, j))?;
        Ok(self.set(alloc, i, j, bound)?)
    }

    /// Lowers the bound of place `i` less place `j` to the sum of those by way of place `k`.
    #[inline]
    fn relax(&mut self, alloc: Global, k: usize, i: usize, j: usize) -> Result<(), ConvErr>
        requires way { k < self.old.places }
        requires row { i < self.old.places }
        requires column { j < self.old.places }
        ensures places { self.new.places ≡ self.old.places }
        ensures here { OnOk result
            (IsRelaxed (bounds_of self.old i j) (bounds_of self.old i k) (bounds_of self.old k j)
            (bounds_of self.new i j)) }
        ensures elsewhere { OnOk result
            (AreKept self.old.places i j (bounds_of self.old) (bounds_of self.new)) }
        ensures overflow { IfErr result
            (IsOverflowIn
            (LeavesInRelaxing (bounds_of self.old i j) (bounds_of self.old i k)
            (bounds_of self.old k j))) }
    {
        match step(self.word(i, j), self.word(i, k), self.word(k, j)) {
            Outcome::Stays => Ok(()),
            Outcome::Falls(number) => {
                self.put(i, j, number);
                Ok(())
            }
            Outcome::Unknown => self.relax_fractions(alloc, k, i, j),
        }
    }

    /// Lowers the bounds of place `i` less each place by way of place `k`.
    fn relax_row(&mut self, alloc: Global, k: usize, i: usize) -> Result<(), ConvErr>
        requires way { k < self.old.places }
        requires row { i < self.old.places }
        ensures places { self.new.places ≡ self.old.places }
        ensures passed { OnOk result
            ((given : Table) → IsPassing given self.old.places k self.old i 0
            → IsPassing given self.old.places k self.new (i + 1) 0) }
        ensures overflow { IfErr result
            (IsOverflowIn
            (λ over. (given : Table) → IsPassing given self.old.places k self.old i 0
            → LeavesInClosing (bounds_of given) self.old.places over)) }
    {
        if self.word(i, k) == ABSENT {
            return Ok(());
        }
        for j in 0..self.places() {
            self.relax(alloc, k, i, j)?;
        }
        Ok(())
    }

    /// Lowers all bounds by way of place `k`.
    fn relax_all(&mut self, alloc: Global, k: usize) -> Result<(), ConvErr>
        requires { k < self.old.places }
        ensures places { self.new.places ≡ self.old.places }
        ensures passed { OnOk result
            ((given : Table) → IsPassing given self.old.places k self.old 0 0
            → IsPassing given self.old.places k self.new self.old.places 0) }
        ensures overflow { IfErr result
            (IsOverflowIn
            (λ over. (given : Table) → IsPassing given self.old.places k self.old 0 0
            → LeavesInClosing (bounds_of given) self.old.places over)) }
    {
        for i in 0..self.places() {
            self.relax_row(alloc, k, i)?;
        }
        Ok(())
    }

    /// Whether the bound of some place less itself is negative.
    fn has_negative(&self) -> bool
        ensures negative { MatchBool result (HasNegative self.now self.now.places)
            (HasNoNegative self.now self.now.places) }
        ensures table { IsTable self.now }
    {
        for q in 0..self.places() {
            if let Some(bound) = self.get(q, q)
                && bound.num < 0
            {
                return true;
            }
        }
        false
    }

    /// Puts the least totals of walks in the place of the bounds, and answers whether some values
    /// meet them. Where none do, and after an error, the bounds that are left say nothing.
    ///
    /// # Errors
    ///
    /// Two bounds whose sum, or comparison, leaves the range.
    pub fn close(&mut self, alloc: Global) -> Result<bool, ConvErr>
        requires { HasZeros (bounds_of self.old) self.old.places }
        ensures places { self.new.places ≡ self.old.places }
        ensures closed { IfOk result (IsClosed self.old self.new self.old.places) }
        ensures overflow { IfErr result
            (IsOverflowIn (LeavesInClosing (bounds_of self.old) self.old.places)) }
    {
        for k in 0..self.places() {
            if self.has_negative() {
                return Ok(false);
            }
            self.relax_all(alloc, k)?;
        }
        Ok(!self.has_negative())
    }
}
