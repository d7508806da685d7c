//! The rows.
ghost use Rattle.std.specs.Prelude.{◌≡◌, ◌≢◌, ℕ, ◌+◌, ◌*◌, ◌^◌, ◌<◌, ◌≤◌, List};
ghost use Rattle.std.specs.Prelude.{[], ◌∷◌, ◌++◌, length, max, take, ℤ};
ghost use Rattle.std.specs.Prelude.{OnOk, OnErr, MatchResult, IfOk, All};
ghost use Rattle.row_core.specs.Content.{IsPrimitiveOf};
ghost use Rattle.row_core.specs.Range.{AllInRange};
ghost use Rattle.row_core.specs.Sizes.{HaveBits};
ghost use Rattle.row_core.specs.MarkedCells.{IsLaid};
ghost use Rattle.flat_rows.specs.Flat.{Flat, entries_at, marked, AreCells, HasOneWidth};
ghost use Rattle.row_store.specs.Stores.{IsKept, IsNegated, IsCombinedWith, IsRefusedAt};
ghost use Rattle.row_store.specs.Stores.{IsRowChanged};

use crate::windows::{Window, combine_part, combine_parts, make_part_primitive, negate_part};
use flat_rows::FlatRows;
use row_core::{Memory, Steps, bits};
use std::alloc::Global;
use std::marker::Model;
use std::sync::ledger::Ledger;

/// Rows of one width in one buffer.
#[derive(Debug, Drop)]
pub struct RowStore {
    rows: FlatRows<i128>,
}

impl Model for RowStore {
    ghost Value = { Flat ℤ };

    ghost view = { λ m. m.rows };

    ghost invariant = { λ m. IsKept m.rows };
}

impl RowStore {
    /// Returns the empty list of that width.
    pub fn new(alloc: Global, width: usize) -> RowStore
        requires { width < 2 ^ 32 }
        ensures width { result.width ≡ width }
        ensures rows { result.rows ≡ [] }
        ensures spare { result.spare ≡ 0 }
    {
        let rows = FlatRows::new(alloc, width);
        RowStore { rows }
    }

    /// Takes the cells of so many rows over, without a copy.
    pub(crate) fn of_cells(width: usize, count: usize, cells: Vec<i128>) -> RowStore
        requires { IsLaid width count cells.items }
        ensures width { result.width ≡ width }
        ensures as_many { length result.rows ≡ count }
        ensures cells { AreCells result cells.items }
        ensures spare { result.spare ≡ 0 }
    {
        let rows = FlatRows::of_cells(width, count, cells);
        RowStore { rows }
    }

    /// Gives the cells up, one row after another, without a copy.
    pub(crate) fn into_cells(self) -> Vec<i128>
        ensures cells { AreCells self result.items }
        ensures kept { IsKept self }
    {
        self.rows.into_cells()
    }

    /// The width of each row.
    #[inline]
    pub fn width(&self) -> usize
        ensures value { result ≡ self.now.width }
        ensures narrow { self.now.width < 2 ^ 32 }
        ensures rectangular { HasOneWidth self.now }
    {
        self.rows.width()
    }

    /// The number of rows.
    #[inline]
    pub fn len(&self) -> usize
        ensures { result ≡ length self.now.rows }
    {
        self.rows.len()
    }

    /// How many bits the numbers have at most.
    pub fn bits(&self) -> u32
        ensures { All (HaveBits result) self.now.rows }
    {
        bits(self.rows.cells())
    }

    /// Makes room for `n` more rows. Out of memory, the list is as before.
    pub fn reserve(&mut self, n: usize) -> Result<(), Memory>
        ensures ok { OnOk result (self.new ≡ record self.old { spare = max self.old.spare n }) }
        ensures err { OnErr result (self.new ≡ self.old) }
    {
        Ok(self.rows.reserve(n)?)
    }

    /// Appends a row, for which room was made.
    pub fn push_reserved(&mut self, row: &[i128])
        requires spare { 0 < self.old.spare }
        requires wide { length row.now ≡ self.old.width }
        requires in_range { AllInRange row.now }
        ensures width { self.new.width ≡ self.old.width }
        ensures rows { self.new.rows ≡ self.old.rows ++ row.now ∷ [] }
        ensures spare { self.new.spare + 1 ≡ self.old.spare }
    {
        self.rows.push(row);
    }

    /// Appends a copy of row `i`, for which room was made.
    pub fn push_copy(&mut self, i: usize)
        requires spare { 0 < self.old.spare }
        requires row { i < length self.old.rows }
        ensures width { self.new.width ≡ self.old.width }
        ensures rows { self.new.rows ≡ self.old.rows ++ entries_at self.old.rows i ∷ [] }
        ensures spare { self.new.spare + 1 ≡ self.old.spare }
    {
        self.rows.push_copy(i);
    }

    /// Lends row `i`.
    #[inline]
    pub fn row(&self, i: usize) -> &[i128]
        requires { i < length self.now.rows }
        ensures value { result.now ≡ entries_at self.now.rows i }
        ensures wide { length result.now ≡ self.now.width }
        ensures in_range { AllInRange result.now }
    {
        self.rows.row(i)
    }

    /// Writes `s * row i + t * row j` over row `i`, and counts one combination.
    ///
    /// # Errors
    ///
    /// The first column at which a product or the sum leaves the range. The rows are then as
    /// before.
    pub fn combine_rows<L: Ledger>(
        &mut self,
        i: usize,
        s: i128,
        j: usize,
        t: i128,
        steps: &mut Steps<L>,
    ) -> Result<(), u32>
        requires first { i < length self.old.rows }
        requires second { j < length self.old.rows }
        requires other { i ≢ j }
        ensures counted { steps.new ≡ steps.old + 1 }
        ensures combined { let other = entries_at self.old.rows j in
            MatchResult result (λ _. IsCombinedWith s t i other self.old self.new)
            (IsRefusedAt s t i other self.old self.new) }
    {
        let bits = bits(self.row(i)).max(bits(self.row(j)));
        self.combine_rows_within(i, j, (s, t), bits, steps)?;
        Ok(())
    }

    /// What [`RowStore::combine_rows`] does with two factors, of rows with at most so many bits. It
    /// tells how many bits row `i` has then.
    ///
    /// # Errors
    ///
    /// Those of [`RowStore::combine_rows`].
    pub fn combine_rows_within<L: Ledger>(
        &mut self,
        i: usize,
        j: usize,
        factors: (i128, i128),
        bits: u32,
        steps: &mut Steps<L>,
    ) -> Result<u32, u32>
        requires first { i < length self.old.rows }
        requires second { j < length self.old.rows }
        requires other { i ≢ j }
        requires first_bits { HaveBits bits (entries_at self.old.rows i) }
        requires second_bits { HaveBits bits (entries_at self.old.rows j) }
        ensures counted { steps.new ≡ steps.old + 1 }
        ensures combined { let other = entries_at self.old.rows j in
            let s = factors.0 in let t = factors.1 in
            MatchResult result (λ _. IsCombinedWith s t i other self.old self.new)
            (IsRefusedAt s t i other self.old self.new) }
        ensures bits { IfOk result (λ bits. HaveBits bits (entries_at self.new.rows i)) }
    {
        let (to, from) = (self.part(i), self.part(j));
        combine_parts(self.rows.cells_mut(), to, from.at, factors, bits, steps)
    }

    /// Writes `s * row i + t * v` over row `i`, as [`RowStore::combine_rows_within`] does.
    ///
    /// # Errors
    ///
    /// Those of [`RowStore::combine_rows`].
    pub fn combine_with<L: Ledger>(
        &mut self,
        i: usize,
        v: &[i128],
        factors: (i128, i128),
        bits: u32,
        steps: &mut Steps<L>,
    ) -> Result<u32, u32>
        requires row { i < length self.old.rows }
        requires wide { length v.now ≡ self.old.width }
        requires bits { HaveBits bits (entries_at self.old.rows i) × HaveBits bits v.now }
        ensures counted { steps.new ≡ steps.old + 1 }
        ensures combined { let s = factors.0 in let t = factors.1 in
            MatchResult result (λ _. IsCombinedWith s t i v.now self.old self.new)
            (IsRefusedAt s t i v.now self.old self.new) }
        ensures bits { IfOk result (λ bits. HaveBits bits (entries_at self.new.rows i)) }
    {
        let part = self.part(i);
        combine_part(self.rows.cells_mut(), part, v, factors, bits, steps)
    }

    /// Divides row `i` by the greatest common divisor of its entries. It keeps all signs, and
    /// leaves an all-zero row.
    pub fn make_row_primitive(&mut self, i: usize)
        requires { i < length self.old.rows }
        ensures { IsRowChanged IsPrimitiveOf i self.old self.new }
    {
        let bits = bits(self.row(i));
        self.make_row_primitive_within(i, bits);
    }

    /// What [`RowStore::make_row_primitive`] does with a row of at most so many bits. It tells how
    /// many it has then.
    pub fn make_row_primitive_within(&mut self, i: usize, bits: u32) -> u32
        requires row { i < length self.old.rows }
        requires bits { HaveBits bits (entries_at self.old.rows i) }
        ensures primitive { IsRowChanged IsPrimitiveOf i self.old self.new }
        ensures bits { HaveBits result (entries_at self.new.rows i) }
    {
        let part = self.part(i);
        make_part_primitive(self.rows.cells_mut(), part, bits)
    }

    /// Changes all signs of row `i`.
    pub fn negate(&mut self, i: usize)
        requires { i < length self.old.rows }
        ensures { IsRowChanged IsNegated i self.old self.new }
    {
        let part = self.part(i);
        negate_part(self.rows.cells_mut(), part);
    }

    /// Keeps the marked rows, in order. No row that is reserved is lost.
    pub fn keep_rows(&mut self, keep: &[bool])
        requires { length keep.now ≡ length self.old.rows }
        ensures width { self.new.width ≡ self.old.width }
        ensures rows { self.new.rows ≡ marked keep.now self.old.rows }
        ensures spare { self.old.spare ≤ self.new.spare }
    {
        self.rows.keep_rows(keep);
    }

    /// Keeps the first `count` rows.
    pub fn truncate(&mut self, count: usize)
        requires { count ≤ length self.old.rows }
        ensures { self.new ≡ record self.old { rows = take count self.old.rows } }
    {
        self.rows.truncate(count);
    }

    /// The part of the buffer that is row `i`.
    #[inline]
    fn part(&self, i: usize) -> Window
        requires { i < length self.now.rows }
        ensures at { result.at ≡ i * self.now.width }
        ensures width { result.width ≡ self.now.width }
        ensures within { result.at + result.width ≤ length self.now.rows * self.now.width }
        ensures narrow { result.width < 2 ^ 32 }
    {
        let width = self.rows.width();
        let at = i * width;
        Window { at, width }
    }
}
