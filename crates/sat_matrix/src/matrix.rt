//! The table.
ghost use Rattle.std.specs.Prelude.{◌≡◌, ℕ, ◌+◌, ◌<◌, ◌≤◌, ◌↔◌, List, [], ◌∷◌, ◌++◌, length, map};
ghost use Rattle.std.specs.Prelude.{max, drop, replicate, Bool, true, false, ◌-◌, slice_set};
ghost use Rattle.std.specs.Prelude.{IsTrue, OnOk, OnErr, IfOk, slice_index_or};
ghost use Rattle.flat_rows.specs.Flat.{marked};
ghost use Rattle.sat_bits.specs.Places.{place};
ghost use Rattle.sat_bits.specs.Searches.{IsFirstFrom};
ghost use Rattle.sat_matrix.specs.Columns.{HasLastZeros, IsColumnMarked};
ghost use Rattle.sat_matrix.specs.Tables.{Table, bits_of, bit_at, conjunction, transposed, Covers};
ghost use Rattle.sat_matrix.specs.Tables.{HasThird, IsCoveredAmong, IsRectangular, IsWithinSome};
ghost use Rattle.sat_matrix.specs.Counts.{ones};
ghost use Rattle.sat_matrix.specs.Words.{bits_in, AreWordsOf, IsTable};
ghost use Rattle.sat_matrix.specs.Searches.{Shares};

use flat_rows::{FlatRows, push_and, widened};
use row_core::Memory;
use sat_bits::{
    count, count_and, fill_front, get, has_covering_row, has_one_more, has_third_row,
    is_subset_of_and, is_within_some, mark_column, mark_zeros, next_sharing, with_bit,
    write_behind,
};
use std::alloc::{AllocError, Global};
use std::marker::Model;

/// Rows of truth values of one width, 64 in each word; past the columns each place is false.
#[derive(Debug)]
pub struct SatMatrix {
    alloc: Global,
    columns: usize,
    words: FlatRows<u64>,
}

// Written by hand, so that a function that drops a table calls this one.
impl Drop for SatMatrix {
    fn drop(self) {
        let SatMatrix {
            alloc: _,
            columns: _,
            words: _,
        } = self;
    }
}

impl Model for SatMatrix {
    ghost Value = { Table };

    ghost view = { λ m. record {
      columns = m.columns;
      rows = map (bits_in m.columns) m.words.rows;
      spare = m.words.spare;
    } };

    ghost invariant = { λ m. IsTable m.columns m.words };
}

impl SatMatrix {
    /// Returns a table without rows, of that width.
    pub fn new(alloc: Global, columns: usize) -> SatMatrix
        ensures columns { result.columns ≡ columns }
        ensures rows { result.rows ≡ [] }
        ensures spare { result.spare ≡ 0 }
    {
        SatMatrix {
            alloc,
            columns,
            words: FlatRows::new(alloc, columns / 64 + 1),
        }
    }

    /// The number of columns.
    #[inline]
    pub fn columns(&self) -> usize
        ensures value { result ≡ self.now.columns }
        ensures rectangular { IsRectangular self.now }
    {
        self.columns
    }

    /// The number of rows.
    #[inline]
    pub fn len(&self) -> usize
        ensures { result ≡ length self.now.rows }
    {
        self.words.len()
    }

    /// The truth value at a row and a column.
    #[inline]
    pub fn get(&self, row: usize, column: usize) -> bool
        requires row { row < length self.now.rows }
        requires column { column < self.now.columns }
        ensures { result ≡ bit_at self.now.rows row column }
    {
        get(self.words.row(row), column)
    }

    /// Writes a truth value.
    #[inline]
    pub fn set(&mut self, row: usize, column: usize, bit: bool)
        requires row { row < length self.old.rows }
        requires column { column < self.old.columns }
        ensures { self.new ≡ record self.old {
          rows = slice_set self.old.rows row
              (slice_set (bits_of self.old.rows row) column bit);
        } }
    {
        let word = self.words.row(row)[column / 64];
        self.words.put(row, column / 64, with_bit(word, (column % 64) as u32, bit));
    }

    /// Makes room for `rows` more rows. Out of memory, the table is as before.
    pub fn reserve(&mut self, rows: usize) -> Result<(), Memory>
        ensures ok { OnOk result (self.new ≡ record self.old { spare = max self.old.spare rows }) }
        ensures err { OnErr result (self.new ≡ self.old) }
    {
        Ok(self.words.reserve(rows)?)
    }

    /// Appends a row whose places all are `bit`.
    pub fn push_reserved(&mut self, bit: bool)
        requires { 0 < self.old.spare }
        ensures columns { self.new.columns ≡ self.old.columns }
        ensures rows { self.new.rows ≡ self.old.rows ++ replicate self.old.columns bit ∷ [] }
        ensures spare { self.new.spare + 1 ≡ self.old.spare }
    {
        let (row, columns) = (self.len(), self.columns());
        self.push_false();
        if bit {
            self.fill_front(row, columns);
        }
    }

    // Makes the first places of a row true, so many.
    fn fill_front(&mut self, row: usize, count: usize)
        requires row { row < length self.old.rows }
        requires count { count ≤ self.old.columns }
        ensures { self.new ≡ record self.old {
          rows = slice_set self.old.rows row
              (replicate count true ++ drop count (bits_of self.old.rows row));
        } }
    {
        let width = self.words.width();
        fill_front(self.words.cells_mut(), width, row, count);
    }

    // Appends a row of false.
    fn push_false(&mut self)
        requires { 0 < self.old.spare }
        ensures columns { self.new.columns ≡ self.old.columns }
        ensures rows { self.new.rows ≡ self.old.rows ++ replicate self.old.columns false ∷ [] }
        ensures spare { self.new.spare + 1 ≡ self.old.spare }
    {
        self.words.push_fitted(&[], 0);
    }

    /// Appends the conjunction of rows `i` and `j`.
    pub fn push_and(&mut self, i: usize, j: usize)
        requires spare { 0 < self.old.spare }
        requires first { i < length self.old.rows }
        requires second { j < length self.old.rows }
        ensures columns { self.new.columns ≡ self.old.columns }
        ensures rows { self.new.rows ≡
            self.old.rows ++ conjunction (bits_of self.old.rows i) (bits_of self.old.rows j) ∷ [] }
        ensures spare { self.new.spare + 1 ≡ self.old.spare }
    {
        push_and(&mut self.words, i, j);
    }

    /// Appends a copy of row `i` of another table with as many columns.
    pub fn push_row_of(&mut self, other: &SatMatrix, i: usize)
        requires spare { 0 < self.old.spare }
        requires columns { other.now.columns ≡ self.old.columns }
        requires row { i < length other.now.rows }
        ensures columns { self.new.columns ≡ self.old.columns }
        ensures rows { self.new.rows ≡ self.old.rows ++ bits_of other.now.rows i ∷ [] }
        ensures spare { self.new.spare + 1 ≡ self.old.spare }
    {
        self.words.push_fitted(other.words.row(i), 0);
    }

    /// Appends row `i` of another table behind so many places that are true.
    pub fn push_row_behind(&mut self, front: usize, other: &SatMatrix, i: usize)
        requires spare { 0 < self.old.spare }
        requires columns { self.old.columns ≡ front + other.now.columns }
        requires row { i < length other.now.rows }
        ensures columns { self.new.columns ≡ self.old.columns }
        ensures rows { self.new.rows ≡
            self.old.rows ++ (replicate front true ++ bits_of other.now.rows i) ∷ [] }
        ensures spare { self.new.spare + 1 ≡ self.old.spare }
    {
        let (row, _columns) = (self.len(), other.columns());
        self.push_false();
        self.write_behind(row, front, other.words.row(i));
    }

    // Writes a row of words behind so many places that are true over a row of false.
    fn write_behind(&mut self, row: usize, front: usize, words: &[u64])
        requires row { row < length self.old.rows }
        requires front { front ≤ self.old.columns }
        requires none { bits_of self.old.rows row ≡ replicate self.old.columns false }
        requires within { (j : ℕ) → IsTrue (place words.now j) → front + j < self.old.columns }
        ensures { self.new ≡ record self.old {
          rows = slice_set self.old.rows row
              (replicate front true ++ bits_in (self.old.columns - front) words.now);
        } }
    {
        let (width, _columns) = (self.words.width(), self.columns());
        write_behind(self.words.cells_mut(), width, row, front, words);
    }

    /// Appends a column of false. Afterwards nothing is reserved. Out of memory, the table is as
    /// before.
    pub fn add_column(&mut self) -> Result<(), Memory>
        ensures ok { OnOk result (self.new ≡ record {
          columns = self.old.columns + 1;
          rows = map (λ row. row ++ false ∷ []) self.old.rows;
          spare = 0;
        }) }
        ensures err { OnErr result (self.new ≡ self.old) }
    {
        if self.columns == usize::MAX {
            return Err(Memory);
        }
        if self.columns / 64 < self.words.width() {
            self.words.release_spare();
            self.columns += 1;
            return Ok(());
        }
        let wider = widened(&self.words, self.alloc)?;
        self.words = wider;
        self.columns += 1;
        Ok(())
    }

    /// Keeps the marked rows, in order. No row that is reserved is lost.
    pub fn keep_rows(&mut self, keep: &[bool])
        requires { length keep.now ≡ length self.old.rows }
        ensures columns { self.new.columns ≡ self.old.columns }
        ensures rows { self.new.rows ≡ marked keep.now self.old.rows }
        ensures spare { self.old.spare ≤ self.new.spare }
    {
        self.words.keep_rows(keep);
    }

    /// Returns the table whose rows are the columns of this one, with nothing reserved.
    pub fn transpose(&self) -> Result<SatMatrix, Memory>
        ensures { IfOk result (λ turned. turned ≡ record {
          columns = length self.now.rows;
          rows = transposed self.now.columns self.now.rows;
          spare = 0;
        }) }
    {
        let mut turned = all_false(self.alloc, self.len(), self.columns())?;
        for row in 0..self.len() {
            turned.mark_column(row, self.words.row(row));
        }
        let _columns = turned.columns();
        Ok(turned)
    }

    // Makes the places of a column true at the rows that the true places of a row of words number.
    fn mark_column(&mut self, column: usize, words: &[u64])
        requires column { column < self.old.columns }
        requires within { (i : ℕ) → IsTrue (place words.now i) → i < length self.old.rows }
        ensures { IsColumnMarked column (λ i. IsTrue (place words.now i)) self.old self.new }
    {
        let width = self.words.width();
        mark_column(self.words.cells_mut(), width, column, words);
    }

    /// Makes the last column true where the values are 0, and false where they aren't.
    pub(crate) fn mark_last(&mut self, values: &[i128])
        requires columns { 0 < self.old.columns }
        requires as_many { length values.now ≡ length self.old.rows }
        ensures { HasLastZeros values.now self.old self.new }
    {
        let (width, last) = (self.words.width(), self.columns - 1);
        mark_zeros(self.words.cells_mut(), width, last, values);
    }

    /// Lends the words of the rows.
    #[inline]
    pub(crate) fn words(&self) -> &FlatRows<u64>
        ensures { AreWordsOf self.now result.now }
    {
        prove!(self.columns() / 64 <= self.words.width());
        &self.words
    }

    /// How many places of a row are true.
    #[inline]
    pub fn ones(&self, i: usize) -> usize
        requires { i < length self.now.rows }
        ensures { result ≡ ones (bits_of self.now.rows i) }
    {
        let _columns = self.columns();
        count(self.words.row(i))
    }

    /// How many places are true in both of two rows.
    #[inline]
    pub fn shared(&self, i: usize, j: usize) -> usize
        requires first { i < length self.now.rows }
        requires second { j < length self.now.rows }
        ensures { result ≡ ones (conjunction (bits_of self.now.rows i) (bits_of self.now.rows j)) }
    {
        let _columns = self.columns();
        count_and(self.words.row(i), self.words.row(j))
    }

    /// Whether row `i` is true at one place more than it shares with row `j`.
    #[inline]
    pub fn has_one_more(&self, i: usize, j: usize) -> bool
        requires first { i < length self.now.rows }
        requires second { j < length self.now.rows }
        ensures { IsTrue result ↔ (ones (bits_of self.now.rows i) ≡
            ones (conjunction (bits_of self.now.rows i) (bits_of self.now.rows j)) + 1) }
    {
        has_one_more(self.words.row(i), self.words.row(j))
    }

    /// Whether some row other than `i` and `j` is true at each column at which both are.
    pub fn third_between(&self, i: usize, j: usize) -> bool
        requires first { i < length self.now.rows }
        requires second { j < length self.now.rows }
        ensures { IsTrue result ↔ HasThird self.now i j }
    {
        let width = self.words.width();
        has_third_row(self.words.cells(), width, self.words.len(), i, j)
    }

    /// The first position from `from` on at which the list names a row that shares at least `least`
    /// true places with row `i`, or the list's length where there is none.
    pub fn next_sharing(&self, i: usize, among: &[usize], from: usize, least: usize) -> usize
        requires row { i < length self.now.rows }
        requires among { (q : ℕ) → q < length among.now →
            slice_index_or among.now q 0 < length self.now.rows }
        requires from { from ≤ length among.now }
        ensures { IsFirstFrom (Shares self.now.rows i among.now least) from
            (length among.now) result }
    {
        let _columns = self.columns();
        let width = self.words.width();
        next_sharing(self.words.cells(), width, i, among, from, least)
    }

    /// Whether a row at another of the places is true wherever row `i` is.
    pub fn covered_among(&self, i: usize, among: &[usize]) -> bool
        requires row { i < length self.now.rows }
        requires among { (q : ℕ) → q < length among.now →
            slice_index_or among.now q 0 < length self.now.rows }
        ensures { IsTrue result ↔ IsCoveredAmong self.now.rows i among.now }
    {
        let width = self.words.width();
        has_covering_row(self.words.cells(), width, i, among)
    }

    /// Whether row `i` is true only where a row at one of the places is.
    pub fn is_within_some(&self, i: usize, among: &[usize]) -> bool
        requires row { i < length self.now.rows }
        requires among { (q : ℕ) → q < length among.now →
            slice_index_or among.now q 0 < length self.now.rows }
        ensures { IsTrue result ↔ IsWithinSome self.now.rows i among.now }
    {
        let width = self.words.width();
        is_within_some(self.words.cells(), width, i, among)
    }

    /// Whether row `k` is true wherever rows `i` and `j` both are.
    #[inline]
    pub fn covers(&self, i: usize, j: usize, k: usize) -> bool
        requires first { i < length self.now.rows }
        requires second { j < length self.now.rows }
        requires third { k < length self.now.rows }
        ensures { IsTrue result ↔
            Covers (bits_of self.now.rows i) (bits_of self.now.rows j) (bits_of self.now.rows k) }
    {
        is_subset_of_and(self.words.row(i), self.words.row(j), self.words.row(k))
    }
}

impl Clone for SatMatrix {
    ghost is_clone = { λ table copy. copy ≡ record table { spare = 0 } };

    fn clone(&self) -> Result<SatMatrix, AllocError> {
        Ok(SatMatrix {
            alloc: self.alloc,
            columns: self.columns,
            words: self.words.try_copy(self.alloc)?,
        })
    }
}

// A table of false.
fn all_false(alloc: Global, columns: usize, rows: usize) -> Result<SatMatrix, Memory>
    ensures columns { IfOk result (λ table. table.columns ≡ columns) }
    ensures rows { IfOk result (λ table. table.rows ≡ replicate rows (replicate columns false)) }
    ensures spare { IfOk result (λ table. table.spare ≡ 0) }
{
    let mut words = FlatRows::new(alloc, columns / 64 + 1);
    words.fill(rows, 0)?;
    Ok(SatMatrix {
        alloc,
        columns,
        words,
    })
}
