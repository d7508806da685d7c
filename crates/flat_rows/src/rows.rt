//! Rows of one width in one buffer.
ghost use Rattle.std.specs.Prelude.{◌≡◌, ◌+◌, ◌*◌, ◌^◌, ◌<◌, ◌≤◌, List, [], ◌∷◌, ◌++◌, length};
ghost use Rattle.std.specs.Prelude.{max, take, replicate, slice_index_or, slice_set};
ghost use Rattle.std.specs.Prelude.{vec_len, vec_capacity};
ghost use Rattle.std.specs.Prelude.{IfOk, OnOk, OnErr};
ghost use Rattle.std.specs.Borrow.{sem};
ghost use Rattle.flat_rows.specs.Flat.{Flat, entries_at, rows_of, fitted, window, AreCells};
ghost use Rattle.flat_rows.specs.Flat.{HasOneWidth, IsLaidOut, marked};

use std::alloc::{AllocError, Global};
use std::marker::Model;

/// Rows of one width in one buffer, which are appended without memory once it is reserved.
#[derive(Debug, Drop)]
pub struct FlatRows<T> {
    width: usize,
    count: usize,
    spare: usize,
    cells: Vec<T>,
}

impl<T> Model for FlatRows<T> {
    ghost Value = { Flat T };

    ghost view = { λ m. record {
      width = m.width;
      rows = rows_of m.width m.count m.cells.items;
      spare = m.spare;
    } };

    ghost invariant = { λ m.
        IsLaidOut m.width m.count m.spare (vec_len m.cells) (vec_capacity m.cells) };
}

impl<T: Copy> FlatRows<T> {
    ghost use Rattle.flat_rows.specs.FlatLends.{lends_cells};

    /// Returns no rows, of that width.
    pub fn new(alloc: Global, width: usize) -> FlatRows<T>
        ensures width { result.width ≡ width }
        ensures rows { result.rows ≡ [] }
        ensures spare { result.spare ≡ 0 }
    {
        FlatRows {
            width,
            count: 0,
            spare: 0,
            cells: Vec::new(alloc),
        }
    }

    /// Takes the cells of so many rows over, without a copy.
    pub fn of_cells(width: usize, count: usize, cells: Vec<T>) -> FlatRows<T>
        requires { vec_len cells ≡ count * width }
        ensures width { result.width ≡ width }
        ensures rows { result.rows ≡ rows_of width count cells.items }
        ensures spare { result.spare ≡ 0 }
    {
        FlatRows {
            width,
            count,
            spare: 0,
            cells,
        }
    }

    /// Gives the cells up, one row after another, without a copy.
    pub fn into_cells(self) -> Vec<T>
        ensures { AreCells self result.items }
    {
        self.cells
    }

    /// Returns a copy, with nothing reserved.
    pub fn try_copy(&self, alloc: Global) -> Result<FlatRows<T>, AllocError>
        ensures { IfOk result (λ copy. copy ≡ record self.now { spare = 0 }) }
    {
        Ok(FlatRows {
            width: self.width,
            count: self.count,
            spare: 0,
            cells: Vec::from_slice(alloc, self.cells.as_slice())?,
        })
    }

    /// The width of each row.
    #[inline]
    pub fn width(&self) -> usize
        ensures value { result ≡ self.now.width }
        ensures rectangular { HasOneWidth self.now }
        ensures counted { length self.now.rows * self.now.width < 2 ^ 64 }
    {
        let _cells = &self.cells;
        self.width
    }

    /// The number of rows.
    #[inline]
    pub fn len(&self) -> usize
        ensures { result ≡ length self.now.rows }
    {
        self.count
    }

    /// Lends row `i`.
    #[inline]
    pub fn row(&self, i: usize) -> &[T]
        requires { i < length self.now.rows }
        ensures value { result.now ≡ entries_at self.now.rows i }
        ensures wide { length result.now ≡ self.now.width }
    {
        self.row_as_wide(self.width, i)
    }

    /// Lends row `i`. The width is handed over, so that a loop of a caller that knows it is
    /// compiled for it.
    #[inline(always)]
    pub fn row_as_wide(&self, width: usize, i: usize) -> &[T]
        requires width { width ≡ self.now.width }
        requires row { i < length self.now.rows }
        ensures value { result.now ≡ entries_at self.now.rows i }
        ensures wide { length result.now ≡ self.now.width }
    {
        let cells = &self.cells;
        let start = i * width;
        &cells[start..start + width]
    }

    /// Lends the cells of all rows, one row after another.
    #[inline]
    pub fn cells(&self) -> &[T]
        ensures { AreCells self.now result.now }
    {
        self.cells.as_slice()
    }

    /// Lends the cells of all rows, one row after another, for writing.
    #[inline]
    pub fn cells_mut(&mut self) -> &mut [T]
        ensures* writes_back { sem 𝓛 (lends_cells T.row self.entry result) }
        ensures cells { AreCells self.old result.now }
    {
        self.cells.as_mut_slice()
    }

    /// Writes an entry.
    #[inline]
    pub fn put(&mut self, row: usize, column: usize, entry: T)
        requires row { row < length self.old.rows }
        requires column { column < self.old.width }
        ensures { let entries = slice_set (entries_at self.old.rows row) column entry in
            self.new ≡ record self.old { rows = slice_set self.old.rows row entries } }
    {
        let start = row * self.width;
        self.cells[start + column] = entry;
    }

    /// Makes room for `rows` more rows. Out of memory, all is as before.
    pub fn reserve(&mut self, rows: usize) -> Result<(), AllocError>
        ensures ok { OnOk result (self.new ≡ record self.old { spare = max self.old.spare rows }) }
        ensures err { OnErr result (self.new ≡ self.old) }
    {
        if rows <= self.spare {
            return Ok(());
        }
        let total = self.count.checked_add(rows).ok_or(AllocError)?;
        let places = total.checked_mul(self.width).ok_or(AllocError)?;
        self.cells.reserve(places - self.cells.len())?;
        self.spare = rows;
        Ok(())
    }

    /// Appends so many rows of one entry; nothing is reserved. Out of memory, all is as before.
    pub fn fill(&mut self, rows: usize, entry: T) -> Result<(), AllocError>
        ensures width { self.new.width ≡ self.old.width }
        ensures rows { OnOk result (self.new.rows ≡
            self.old.rows ++ replicate rows (replicate self.old.width entry)) }
        ensures spare { OnOk result (self.new.spare ≡ 0) }
        ensures err { OnErr result (self.new ≡ self.old) }
    {
        let total = self.count.checked_add(rows).ok_or(AllocError)?;
        let places = total.checked_mul(self.width).ok_or(AllocError)?;
        self.cells.resize(places, entry)?;
        self.count = total;
        self.spare = 0;
        Ok(())
    }

    /// Gives up the room that was made.
    #[inline]
    pub fn release_spare(&mut self)
        ensures { self.new ≡ record self.old { spare = 0 } }
    {
        self.spare = 0;
    }

    /// Appends a row, for which room was made.
    pub fn push(&mut self, row: &[T])
        requires spare { 0 < self.old.spare }
        requires wide { length row.now ≡ self.old.width }
        ensures width { self.new.width ≡ self.old.width }
        ensures rows { self.new.rows ≡ self.old.rows ++ row.now ∷ [] }
        ensures spare { self.new.spare + 1 ≡ self.old.spare }
    {
        append_row(&mut self.cells, row);
        self.count += 1;
        self.spare -= 1;
    }

    /// Appends a copy of row `i`, for which room was made.
    pub fn push_copy(&mut self, i: usize)
        requires spare { 0 < self.old.spare }
        requires row { i < length self.old.rows }
        ensures width { self.new.width ≡ self.old.width }
        ensures rows { self.new.rows ≡ self.old.rows ++ entries_at self.old.rows i ∷ [] }
        ensures spare { self.new.spare + 1 ≡ self.old.spare }
    {
        let width = self.width;
        append_part(&mut self.cells, i * width, width);
        self.count += 1;
        self.spare -= 1;
    }

    /// Appends the first entries of a row, and `rest` past its end, for which room was made.
    pub fn push_fitted(&mut self, row: &[T], rest: T)
        requires { 0 < self.old.spare }
        ensures width { self.new.width ≡ self.old.width }
        ensures rows { self.new.rows ≡ self.old.rows ++ fitted self.old.width rest row.now ∷ [] }
        ensures spare { self.new.spare + 1 ≡ self.old.spare }
    {
        let width = self.width;
        append_fitted(&mut self.cells, row, rest, width);
        self.count += 1;
        self.spare -= 1;
    }

    /// Keeps the marked rows, in order. No row that is reserved is lost.
    pub fn keep_rows(&mut self, keep: &[bool])
        requires { length keep.now ≡ length self.old.rows }
        ensures width { self.new.width ≡ self.old.width }
        ensures rows { self.new.rows ≡ marked keep.now self.old.rows }
        ensures spare { self.old.spare ≤ self.new.spare }
    {
        let mut kept = 0;
        for row in 0..keep.len() {
            if keep[row] {
                self.copy_row(row, kept);
                kept += 1;
            }
        }
        self.truncate(kept);
    }

    /// Writes row `from` over row `to`.
    fn copy_row(&mut self, from: usize, to: usize)
        requires from { from < length self.old.rows }
        requires to { to < length self.old.rows }
        ensures { let entries = entries_at self.old.rows from in
            self.new ≡ record self.old { rows = slice_set self.old.rows to entries } }
    {
        if from == to {
            return;
        }
        let width = self.width;
        let start = from * width;
        self.cells.copy_within(start..start + width, to * width);
    }

    /// Keeps the first `count` rows.
    pub fn truncate(&mut self, count: usize)
        requires { count ≤ length self.old.rows }
        ensures { self.new ≡ record self.old { rows = take count self.old.rows } }
    {
        self.cells.truncate(count * self.width);
        self.count = count;
    }
}

/// Appends a row, for which there is room.
fn append_row<T: Copy>(cells: &mut Vec<T>, row: &[T])
    requires { vec_len cells.old + length row.now ≤ vec_capacity cells.old }
    ensures items { cells.new.items ≡ cells.old.items ++ row.now }
    ensures len { vec_len cells.new ≡ vec_len cells.old + length row.now }
    ensures capacity { vec_capacity cells.old ≤ vec_capacity cells.new }
{
    let _appended = cells.extend_from_slice(row);
}

/// Appends a copy of the part of `width` cells from `at` on, for which there is room.
fn append_part<T: Copy>(cells: &mut Vec<T>, at: usize, width: usize)
    requires within { at + width ≤ vec_len cells.old }
    requires room { vec_len cells.old + width ≤ vec_capacity cells.old }
    ensures items { cells.new.items ≡ cells.old.items ++ window at width cells.old.items }
    ensures len { vec_len cells.new ≡ vec_len cells.old + width }
    ensures capacity { vec_capacity cells.old ≤ vec_capacity cells.new }
{
    let _appended = cells.extend_from_within(at..at + width);
}

/// An entry of a row, or `rest` past its end.
#[inline]
fn entry_or<T: Copy>(row: &[T], place: usize, rest: T) -> T
    ensures { result ≡ slice_index_or row.now place rest }
{
    if place < row.len() { row[place] } else { rest }
}

/// Appends the first entries of a row, and `rest` past its end, for which there is room.
fn append_fitted<T: Copy>(cells: &mut Vec<T>, row: &[T], rest: T, width: usize)
    requires { vec_len cells.old + width ≤ vec_capacity cells.old }
    ensures items { cells.new.items ≡ cells.old.items ++ fitted width rest row.now }
    ensures len { vec_len cells.new ≡ vec_len cells.old + width }
    ensures capacity { vec_capacity cells.old ≤ vec_capacity cells.new }
{
    if row.len() == width {
        append_row(cells, row);
        return;
    }
    for place in 0..width {
        cells.push_reserved(entry_or(row, place, rest));
    }
}
