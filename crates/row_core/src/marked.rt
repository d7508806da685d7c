//! Rows, each with a mark, whose cells stand in one buffer.
ghost use Rattle.std.specs.Prelude.{◌≡◌, ℕ, ◌+◌, ◌*◌, ◌^◌, ◌<◌, ◌≤◌, ◌==◌, List, [], ◌∷◌, ◌++◌, length, take, drop, slice_index_or, slice_set, remove, vec_len, vec_capacity, ℤ, OnOk, MatchResult, IfOk};
ghost use Rattle.std.specs.List.{insert};
ghost use Rattle.std.specs.Cmp;
ghost use Rattle.std.specs.Cmp.Lexicographic.{pointwise};
ghost use Rattle.std.specs.Iterator.{YieldsFirstBy, item_count};
ghost use Rattle.std.specs.Borrow.{Bor};
ghost use Rattle.row_core.specs.Range.{AllInRange};
ghost use Rattle.row_core.specs.Sizes.{AllHaveBits, AllAreBelow};
ghost use Rattle.row_core.specs.MarkedCells.{marked_rows, cells_of, remarked, AreWide, HaveOneWidth, IsLaid, IsPrimitiveAppended};
ghost use Rattle.row_core.specs.Lists.{GainsPrimitive};
ghost use Rattle.row_core.specs.Sameness.{is_same_marked, same_marked_equiv};

use crate::buffers::RowBuf;
use crate::errors::Memory;
use crate::primitive::make_primitive;
use crate::sizes::bits;
use std::alloc::{AllocError, Global};
use std::marker::Model;

/// How many rows the first one makes room for where none was made before.
const LEAST_ROWS: usize = 4;

/// Rows of one width in order, each with a mark. Their cells stand in one buffer, one row after
/// another.
#[derive(Debug, Drop)]
pub struct MarkedRows<M> {
    width: usize,
    cells: Vec<i128>,
    marks: Vec<M>,
}

impl<M> Model for MarkedRows<M> {
    ghost Value = { List (List ℤ × M) };

    ghost view = { λ l. marked_rows l.width l.cells.items l.marks.items };

    ghost invariant = { λ l. IsLaid l.width (length l.marks.items) l.cells.items };
}

impl<M: Copy> MarkedRows<M> {
    /// Returns the empty list.
    pub fn new(alloc: Global) -> MarkedRows<M>
        ensures { result ≡ [] }
    {
        MarkedRows {
            width: 0,
            cells: Vec::new(alloc),
            marks: Vec::new(alloc),
        }
    }

    /// Returns the empty list, with room for some rows of a width.
    pub fn with_room(alloc: Global, width: usize, rows: usize) -> Result<MarkedRows<M>, Memory>
        ensures { IfOk result (λ list. list ≡ []) }
    {
        let places = rows.checked_mul(width).ok_or(Memory)?;
        Ok(MarkedRows {
            width: 0,
            cells: Vec::with_capacity(alloc, places)?,
            marks: Vec::with_capacity(alloc, rows)?,
        })
    }

    /// Appends a row as wide as the others. The first one is taken over without a copy, if no room
    /// was made for it. Out of memory, the list is as before, and the row is dropped.
    pub fn push(&mut self, row: RowBuf, mark: M) -> Result<(), Memory>
        requires wide { AreWide (length row) self.old }
        ensures { MatchResult result (λ _. self.new ≡ self.old ++ (row, mark) ∷ [])
            (λ _. self.new ≡ self.old) }
    {
        if self.cells.capacity() > 0 || !self.marks.is_empty() {
            return self.push_copy(row.cells(), mark);
        }
        self.marks.reserve(1)?;
        self.width = row.len();
        self.cells = row.into_vec();
        self.marks.push_reserved(mark);
        Ok(())
    }

    /// Appends a copy of a row as wide as the others. Out of memory, the list is as before.
    pub fn push_copy(&mut self, row: &[i128], mark: M) -> Result<(), Memory>
        requires wide { AreWide (length row.now) self.old }
        requires in_range { AllInRange row.now }
        requires narrow { length row.now < 2 ^ 32 }
        ensures { MatchResult result (λ _. self.new ≡ self.old ++ (row.now, mark) ∷ [])
            (λ _. self.new ≡ self.old) }
    {
        make_room(&mut self.cells, row.len())?;
        self.marks.reserve(1)?;
        self.width = row.len();
        append_slice(&mut self.cells, row);
        self.marks.push_reserved(mark);
        Ok(())
    }

    /// Appends a copy of a row as wide as the others, made primitive. Out of memory, the list is as
    /// before.
    pub fn push_primitive(&mut self, row: &[i128], mark: M) -> Result<(), Memory>
        requires wide { AreWide (length row.now) self.old }
        requires in_range { AllInRange row.now }
        requires narrow { length row.now < 2 ^ 32 }
        ensures { MatchResult result (λ _. GainsPrimitive self.old self.new row.now mark)
            (λ _. self.new ≡ self.old) }
    {
        make_room(&mut self.cells, row.len())?;
        self.marks.reserve(1)?;
        self.width = row.len();
        append_primitive(&mut self.cells, row);
        self.marks.push_reserved(mark);
        Ok(())
    }

    /// Takes the cells of some rows over, without a copy.
    pub fn of_cells(width: usize, cells: Vec<i128>, marks: Vec<M>) -> MarkedRows<M>
        requires { IsLaid width (length marks.items) cells.items }
        ensures { result ≡ marked_rows width cells.items marks.items }
    {
        MarkedRows {
            width,
            cells,
            marks,
        }
    }

    /// Gives the cells up, without a copy.
    pub fn into_cells(self) -> Vec<i128>
        ensures value { result.items ≡ cells_of self }
        ensures in_range { AllInRange result.items }
    {
        self.cells
    }

    /// These rows with other marks, without a copy.
    pub fn with_marks<N: Copy>(self, marks: Vec<N>) -> MarkedRows<N>
        requires { length marks.items ≡ length self }
        ensures { result ≡ remarked self marks.items }
    {
        MarkedRows {
            width: self.width,
            cells: self.cells,
            marks,
        }
    }

    /// Appends copies of the rows of another list of this width. Out of memory, the list is as
    /// before.
    pub fn append_copies(&mut self, later: &MarkedRows<M>) -> Result<(), Memory>
        requires { HaveOneWidth self.old later.now }
        ensures { MatchResult result (λ _. self.new ≡ self.old ++ later.now)
            (λ _. self.new ≡ self.old) }
    {
        self.cells.reserve(later.cells.len())?;
        self.marks.reserve(later.marks.len())?;
        let width = if self.marks.is_empty() {
            later.width
        } else {
            self.width
        };
        self.width = width;
        append_slice(&mut self.cells, later.cells.as_slice());
        append_slice(&mut self.marks, later.marks.as_slice());
        Ok(())
    }

    /// Returns these rows and then the later ones, all of one width.
    pub fn followed_by(&self, later: &MarkedRows<M>) -> Result<MarkedRows<M>, Memory>
        requires { HaveOneWidth self.now later.now }
        ensures { IfOk result (λ both. both ≡ self.now ++ later.now) }
    {
        let mut both = self.clone()?;
        both.append_copies(later)?;
        Ok(both)
    }

    /// Puts a copy of a row as wide as the others before row `i`, or at the end. Out of memory, the
    /// list is as before.
    pub fn insert(&mut self, i: usize, row: &[i128], mark: M) -> Result<(), Memory>
        requires place { i ≤ length self.old }
        requires wide { AreWide (length row.now) self.old }
        requires in_range { AllInRange row.now }
        requires narrow { length row.now < 2 ^ 32 }
        ensures { MatchResult result (λ _. self.new ≡ insert self.old i (row.now, mark))
            (λ _. self.new ≡ self.old) }
    {
        make_room(&mut self.cells, row.len())?;
        self.marks.reserve(1)?;
        self.width = row.len();
        insert_row(&mut self.cells, i * row.len(), row);
        self.marks.insert(i, mark)?;
        Ok(())
    }

    /// Takes row `i` out.
    pub fn remove(&mut self, i: usize)
        requires { i < length self.old }
        ensures { self.new ≡ remove self.old i }
    {
        remove_row(&mut self.cells, i * self.width, self.width);
        let _mark = self.marks.remove(i);
    }

    /// Writes a row as wide as the others over row `i`. Its mark stays.
    pub fn put(&mut self, i: usize, row: &[i128])
        requires place { i < length self.old }
        requires wide { AreWide (length row.now) self.old }
        requires in_range { AllInRange row.now }
        ensures { (d : List ℤ × M) →
            self.new ≡ slice_set self.old i (row.now, (slice_index_or self.old i d).1) }
    {
        put_row(&mut self.cells, i * self.width, row);
    }

    /// The number of rows.
    #[inline]
    pub fn len(&self) -> usize
        ensures { result ≡ length self.now }
    {
        self.marks.len()
    }

    /// Whether there is no row.
    #[inline]
    pub fn is_empty(&self) -> bool
        ensures { result ≡ (length self.now == 0) }
    {
        self.marks.is_empty()
    }

    /// Lends row `i`.
    #[inline]
    pub fn row(&self, i: usize) -> &[i128]
        requires { i < length self.now }
        ensures value { (d : List ℤ × M) → result.now ≡ (slice_index_or self.now i d).0 }
        ensures in_range { AllInRange result.now }
        ensures narrow { length result.now < 2 ^ 32 }
    {
        let start = i * self.width;
        &self.cells[start..start + self.width]
    }

    /// The mark of row `i`.
    #[inline]
    pub fn mark(&self, i: usize) -> M
        requires { i < length self.now }
        ensures { (d : List ℤ × M) → result ≡ (slice_index_or self.now i d).1 }
    {
        self.marks[i]
    }

    /// How many bits the numbers of all rows have at most. No smaller number would do.
    pub fn bits(&self) -> u32
        ensures within { AllHaveBits result self.now }
        ensures least { (n : ℕ) → AllAreBelow (2 ^ n) self.now → result ≤ n }
    {
        bits(self.cells.as_slice())
    }

    /// Lends the rows in order, each with its mark.
    #[inline]
    pub fn iter(&self) -> Iter<'_, M>
        ensures { result ≡ self.now }
    {
        Iter {
            width: self.width,
            cells: self.cells.as_slice(),
            rest: self.marks.as_slice(),
        }
    }
}

impl<M: Copy> Clone for MarkedRows<M> {
    ghost is_clone = { λ list copy. copy ≡ list };

    fn clone(&self) -> Result<MarkedRows<M>, AllocError> {
        let alloc = *self.cells.allocator();
        Ok(MarkedRows {
            width: self.width,
            cells: Vec::from_slice(alloc, self.cells.as_slice())?,
            marks: Vec::from_slice(alloc, self.marks.as_slice())?,
        })
    }
}

impl<M: Eq> PartialEq for MarkedRows<M> {
    ghost eq = { pointwise (is_same_marked M.eq) };

    ghost laws = { Cmp.partial_equiv_from_equiv (same_marked_equiv M.Eq.laws) };

    fn eq(&self, other: &MarkedRows<M>) -> bool {
        self.marks == other.marks && self.cells == other.cells
    }
}

impl<M: Eq> Eq for MarkedRows<M> {
    ghost laws = { same_marked_equiv M.Eq.laws };
}

/// The rows of a list that are still to come, each with its mark.
#[derive(Debug, Drop)]
pub struct Iter<'a, M> {
    width: usize,
    cells: &'a [i128],
    rest: &'a [M],
}

impl<'a, M> Model for Iter<'a, M> {
    ghost Value = { List (List ℤ × M) };

    ghost view = { λ a. marked_rows a.width a.cells.now a.rest.now };

    ghost invariant = { λ a. length a.cells.now ≡ length a.rest.now * a.width };
}

impl<'a, M: Copy> Iterator for Iter<'a, M> {
    type Item = (&'a [i128], M);

    ghost next_gives = { YieldsFirstBy (λ (x : Bor (List ℤ) × M). (x.0.now, x.1))
        (λ (rest : List (List ℤ × M)). rest) };

    ghost remaining = { item_count (λ (rest : List (List ℤ × M)). rest) };

    #[inline]
    fn next(&mut self) -> Option<(&'a [i128], M)> {
        let (first, rest) = self.rest.split_first()?;
        let (row, cells) = self.cells.split_at(self.width);
        self.rest = rest;
        self.cells = cells;
        Some((row, *first))
    }
}

/// Makes room for one more row. Out of memory, the cells are as before.
fn make_room(cells: &mut Vec<i128>, width: usize) -> Result<(), AllocError>
    requires { width < 2 ^ 32 }
    ensures items { cells.new.items ≡ cells.old.items }
    ensures len { vec_len cells.new ≡ vec_len cells.old }
    ensures room { OnOk result (vec_len cells.new + width ≤ vec_capacity cells.new) }
{
    let rows = if cells.capacity() == 0 { LEAST_ROWS } else { 1 };
    cells.reserve(rows * width)
}

/// Appends a row, made primitive, for which there is room.
fn append_primitive(cells: &mut Vec<i128>, row: &[i128])
    requires room { vec_len cells.old + length row.now ≤ vec_capacity cells.old }
    requires in_range { AllInRange row.now }
    ensures cells { IsPrimitiveAppended cells.old.items cells.new.items row.now }
    ensures len { vec_len cells.new ≡ vec_len cells.old + length row.now }
{
    let start = cells.len();
    append_slice(cells, row);
    make_primitive(&mut cells[start..]);
}

/// Appends elements, for which there is room.
fn append_slice<T: Copy>(list: &mut Vec<T>, more: &[T])
    requires { vec_len list.old + length more.now ≤ vec_capacity list.old }
    ensures items { list.new.items ≡ list.old.items ++ more.now }
    ensures len { vec_len list.new ≡ vec_len list.old + length more.now }
{
    let _appended = list.extend_from_slice(more);
}

/// Puts a row, for which there is room, before the cells from a place on.
fn insert_row(cells: &mut Vec<i128>, start: usize, row: &[i128])
    requires room { vec_len cells.old + length row.now ≤ vec_capacity cells.old }
    requires within { start ≤ length cells.old.items }
    ensures { cells.new.items
        ≡ take start cells.old.items ++ (row.now ++ drop start cells.old.items) }
{
    let end = cells.len();
    append_slice(cells, row);
    cells.copy_within(start..end, start + row.len());
    put_row(cells, start, row);
}

/// Takes so many cells from a place on out.
fn remove_row(cells: &mut Vec<i128>, start: usize, width: usize)
    requires { start + width ≤ length cells.old.items }
    ensures { cells.new.items
        ≡ take start cells.old.items ++ drop (start + width) cells.old.items }
{
    let end = cells.len();
    cells.copy_within(start + width..end, start);
    cells.truncate(end - width);
}

/// Writes a row over the cells from a place on.
fn put_row(cells: &mut Vec<i128>, start: usize, row: &[i128])
    requires { start + length row.now ≤ length cells.old.items }
    ensures { cells.new.items ≡ take start cells.old.items
        ++ (row.now ++ drop (start + length row.now) cells.old.items) }
{
    cells[start..start + row.len()].copy_from_slice(row);
}
