//! Rows of terms, exactly.
ghost use Rattle.std.specs.Prelude.{◌≡◌, ℕ, ◌+◌, ◌-◌, ◌≤◌, ◌<◌, ◌^◌, ◌+ℤ◌, [], ◌∷◌, length, replicate, pos, ◌↔◌, true, false, IsTrue, IfOk, MatchOption, MatchResult};
ghost use Rattle.row_core.specs.Vectors.{cell};
ghost use Rattle.row_core.specs.Range.{InRange, AllInRange};
ghost use Rattle.term_text.specs.Terms.{IsWithin, column_of, value_of, part, FitsBehind};
ghost use Rattle.term_text.specs.Sums.{Sum, HasSummed, Gains};

use crate::terms::{Term, ValueErr};
use std::alloc::{AllocError, Global};
use std::marker::Model;

impl Term {
    fn is_within(self, dim: usize) -> bool
        ensures { IsTrue result ↔ IsWithin dim self }
    {
        match self.variable {
            Some(index) => index < dim as u64,
            None => true,
        }
    }

    /// The number with its sign, where it is of the range.
    fn value(self) -> Option<i128>
        ensures { MatchOption result
            (self.size < 2 ^ 127 → ⊥)
            (λ v. (self.size < 2 ^ 127) × (v ≡ value_of self) × InRange v) }
    {
        let size = i128::try_from(self.size).ok()?;
        Some(if self.negative { -size } else { size })
    }

    /// The column of a row over `dim` variables to which the term belongs.
    fn column(self, dim: usize) -> usize
        requires { IsWithin dim self }
        ensures value { result ≡ column_of dim self }
        ensures within { result ≤ dim }
    {
        match self.variable {
            Some(index) => index as usize,
            None => dim,
        }
    }

    /// The sum of a number and the term, where both are of the range.
    fn added_to(self, sum: i128) -> Option<i128>
        requires { InRange sum }
        ensures { MatchOption result
            (FitsBehind self sum → ⊥)
            (λ v. FitsBehind self sum × (v ≡ sum +ℤ value_of self) × InRange v) }
    {
        let new = sum.checked_add(self.value()?)?;
        if new == i128::MIN { None } else { Some(new) }
    }
}

/// Adds a term in its column. The answer is `None` where a number leaves the range.
fn add(cells: &mut [i128], dim: usize, term: Term) -> Option<()>
    requires wide { length cells.old ≡ dim + 1 }
    requires within { IsWithin dim term }
    requires in_range { AllInRange cells.old }
    ensures in_range { AllInRange cells.new }
    ensures value { MatchOption result
        (FitsBehind term (cell cells.old (column_of dim term)) → ⊥)
        (λ _. FitsBehind term (cell cells.old (column_of dim term))
        × ((j : ℕ) → j ≤ dim → cell cells.new j ≡ cell cells.old j +ℤ part dim term j)) }
{
    let column = term.column(dim);
    cells[column] = term.added_to(cells[column])?;
    Some(())
}

/// The row of terms that are added one after another.
#[derive(Drop)]
pub struct RowSum {
    dim: usize,
    cells: Vec<i128>,
    fits: bool,
}

impl Model for RowSum {
    ghost Value = { Sum };

    ghost view = { λ s. record { dim = s.dim; row = s.cells.items; fits = s.fits } };

    ghost invariant = { λ s. (length s.cells.items ≡ s.dim + 1)
        × AllInRange s.cells.items
        × (s.dim < 2 ^ 32 - 2) };
}

/// Zeros, with room for as many again: a list that takes them over as its first row has room for a
/// second.
fn zeros(alloc: Global, width: usize) -> Result<Vec<i128>, AllocError>
    requires { width < 2 ^ 32 }
    ensures { IfOk result (λ v. v.items ≡ replicate width (pos 0)) }
{
    let mut cells = vec![in alloc; 0i128; 2 * width]?;
    cells.truncate(width);
    Ok(cells)
}

impl RowSum {
    /// The row of no term over `dim` variables.
    ///
    /// # Errors
    /// `Memory` alone.
    pub fn new(alloc: Global, dim: usize) -> Result<RowSum, ValueErr>
        requires { dim < 2 ^ 32 - 2 }
        ensures { MatchResult result
            (λ sum. (sum.dim ≡ dim) × HasSummed [] sum)
            (λ e. e ≡ ValueErr.Memory) }
    {
        let cells = zeros(alloc, dim + 1)?;
        Ok(RowSum {
            dim,
            cells,
            fits: true,
        })
    }

    /// Adds a term, where the terms before it and their sums were of the range.
    ///
    /// # Errors
    /// `OutOfRange` exactly where the variable isn't below the dimension.
    pub fn add(&mut self, term: Term) -> Result<(), ValueErr>
        ensures { MatchResult result
            (λ _. Gains (term ∷ []) self.old self.new)
            (λ e. (e ≡ ValueErr.OutOfRange) × ¬ (IsWithin self.old.dim term)) }
    {
        if !term.is_within(self.dim) {
            return Err(ValueErr::OutOfRange);
        }
        if !self.fits {
            return Ok(());
        }
        match add(&mut self.cells, self.dim, term) {
            Some(()) => Ok(()),
            None => {
                self.fits = false;
                Ok(())
            }
        }
    }

    /// The row, where each number and each sum of the first terms of a column was of the range.
    pub fn into_cells(self) -> Option<Vec<i128>>
        ensures { MatchOption result
            (self.fits ≡ false)
            (λ row. (self.fits ≡ true) × (row.items ≡ self.row) × AllInRange row.items) }
    {
        if self.fits { Some(self.cells) } else { None }
    }
}
