//! One row, and a list of rows of one width, on the heap.
ghost use Rattle.std.specs.Prelude.{◌≡◌, ◌*◌, ◌^◌, ◌<◌, ◌≤◌, ◌==◌, List, [], ◌∷◌, ◌++◌, length, ℤ, pos, neg_ℤ, slice_set, remove, Decides, MatchResult, IfOk};
ghost use Rattle.std.specs.List.{insert};
ghost use Rattle.std.specs.Cmp;
ghost use Rattle.std.specs.Cmp.Lexicographic.{pointwise};
ghost use Rattle.std.specs.Ordering.{int_eq};
ghost use Rattle.std.proofs.lemmas.Cmp.{int_eq_equiv, lists_equiv};
ghost use Rattle.row_core.specs.Range.{AllInRange};
ghost use Rattle.row_core.specs.Vectors.{scale};
ghost use Rattle.row_core.specs.Content.{IsPrimitive, IsPrimitiveOf};
ghost use Rattle.row_core.specs.Sameness.{is_same_list, same_list_equiv};
ghost use Rattle.row_core.specs.MarkedCells.{cells_of, IsLaid};
ghost use Rattle.row_core.specs.Lists.{Rows, FitWidth, AreMarked, row_at, is_eq_at};

use crate::errors::Memory;
use crate::marked::MarkedRows;
use crate::primitive::make_primitive;
use crate::signs::negate;
use std::alloc::{AllocError, Global};
use std::marker::Model;

/// One row.
#[derive(Debug, Drop)]
pub struct RowBuf {
    entries: Vec<i128>,
}

impl Model for RowBuf {
    ghost Value = { List ℤ };

    ghost view = { λ b. b.entries.items };

    ghost invariant = { λ b. AllInRange b.entries.items × (length b.entries.items < 2 ^ 32) };
}

impl RowBuf {
    /// Returns a copy of the cells.
    pub fn new(alloc: Global, cells: &[i128]) -> Result<RowBuf, Memory>
        requires in_range { AllInRange cells.now }
        requires narrow { length cells.now < 2 ^ 32 }
        ensures { IfOk result (λ row. row ≡ cells.now) }
    {
        let entries = Vec::from_slice(alloc, cells)?;
        Ok(RowBuf { entries })
    }

    /// Takes the cells over, without a copy.
    #[inline]
    pub fn from_vec(cells: Vec<i128>) -> RowBuf
        requires in_range { AllInRange cells.items }
        requires narrow { length cells.items < 2 ^ 32 }
        ensures { result ≡ cells.items }
    {
        RowBuf { entries: cells }
    }

    /// Returns a copy of the cells with all signs changed.
    pub fn negated(alloc: Global, cells: &[i128]) -> Result<RowBuf, Memory>
        requires in_range { AllInRange cells.now }
        requires narrow { length cells.now < 2 ^ 32 }
        ensures value { IfOk result (λ row. row ≡ scale (neg_ℤ (pos 1)) cells.now) }
        ensures in_range { IfOk result AllInRange }
        ensures width { IfOk result (λ row. length row ≡ length cells.now) }
        ensures primitive { IfOk result (λ row. IsPrimitive cells.now → IsPrimitive row) }
    {
        let mut entries = Vec::from_slice(alloc, cells)?;
        negate(entries.as_mut_slice());
        Ok(RowBuf { entries })
    }

    /// Makes the row primitive in its place.
    pub fn into_primitive(self) -> RowBuf
        ensures primitive { IsPrimitiveOf self result }
        ensures in_range { AllInRange result }
        ensures width { length result ≡ length self }
    {
        let mut entries = self.entries;
        make_primitive(entries.as_mut_slice());
        RowBuf { entries }
    }

    /// Lends the row.
    #[inline]
    pub fn cells(&self) -> &[i128]
        ensures value { result.now ≡ self.now }
        ensures in_range { AllInRange self.now }
        ensures narrow { length self.now < 2 ^ 32 }
    {
        self.entries.as_slice()
    }

    /// The number of columns.
    #[inline]
    pub fn len(&self) -> usize
        ensures { result ≡ length self.now }
    {
        self.entries.len()
    }

    /// Gives the cells up, without a copy.
    #[inline]
    pub fn into_vec(self) -> Vec<i128>
        ensures value { result.items ≡ self }
        ensures in_range { AllInRange self }
        ensures narrow { length self < 2 ^ 32 }
    {
        self.entries
    }
}

impl PartialEq for RowBuf {
    ghost eq = { pointwise int_eq };

    ghost laws = { Cmp.partial_equiv_from_equiv (lists_equiv int_eq_equiv) };

    fn eq(&self, other: &RowBuf) -> bool
        ensures value { result ≡ pointwise int_eq self.now other.now }
        ensures same { Decides result (self.now ≡ other.now) }
    {
        self.entries == other.entries
    }
}

impl Eq for RowBuf {
    ghost laws = { lists_equiv int_eq_equiv };
}

impl Clone for RowBuf {
    ghost is_clone = { λ row copy. copy ≡ row };

    fn clone(&self) -> Result<RowBuf, AllocError> {
        Ok(RowBuf {
            entries: self.entries.clone()?,
        })
    }
}

/// Rows of one width, each marked as an equality or an inequality.
#[derive(Debug)]
pub struct RowList {
    width: usize,
    marked: MarkedRows<bool>,
}

// Written by hand, so that a function that drops a list calls this one, and doesn't free each part
// itself.
impl Drop for RowList {
    fn drop(self) {
        let RowList {
            width: _,
            marked: _,
        } = self;
    }
}

impl Model for RowList {
    ghost Value = { Rows };

    ghost view = { λ l. record { width = l.width; rows = l.marked } };

    ghost invariant = { λ l. FitWidth (record { width = l.width; rows = l.marked }) };
}

impl RowList {
    /// Returns the empty list of that width.
    pub fn new(alloc: Global, width: usize) -> RowList
        requires { width < 2 ^ 32 }
        ensures width { result.width ≡ width }
        ensures empty { result.rows ≡ [] }
    {
        RowList {
            width,
            marked: MarkedRows::new(alloc),
        }
    }

    /// Returns the empty list of that width, with room for some rows.
    pub fn with_room(alloc: Global, width: usize, rows: usize) -> Result<RowList, Memory>
        requires { width < 2 ^ 32 }
        ensures width { IfOk result (λ list. list.width ≡ width) }
        ensures empty { IfOk result (λ list. list.rows ≡ []) }
    {
        let marked = MarkedRows::with_room(alloc, width, rows)?;
        Ok(RowList { width, marked })
    }

    /// Takes the cells of so many rows over, without a copy. All have the mark.
    pub fn of_cells(
        alloc: Global,
        width: usize,
        rows: usize,
        cells: Vec<i128>,
        eq: bool,
    ) -> Result<RowList, Memory>
        requires { IsLaid width rows cells.items }
        ensures width { IfOk result (λ list. list.width ≡ width) }
        ensures as_many { IfOk result (λ list. length list.rows ≡ rows) }
        ensures cells { IfOk result (λ list. cells_of list.rows ≡ cells.items) }
        ensures marked { IfOk result (λ list. AreMarked eq list.rows) }
    {
        let marks = vec![in alloc; eq; rows]?;
        Ok(RowList {
            width,
            marked: MarkedRows::of_cells(width, cells, marks),
        })
    }

    /// Gives the cells up, one row after another, without a copy.
    pub fn into_cells(self) -> Vec<i128>
        ensures value { result.items ≡ cells_of self.rows }
        ensures laid { IsLaid self.width (length self.rows) result.items }
        ensures fit { FitWidth self }
    {
        self.into_marked().into_cells()
    }

    /// Gives the rows up with their marks, without a copy.
    pub fn into_marked(self) -> MarkedRows<bool>
        ensures value { result ≡ self.rows }
        ensures fit { FitWidth self }
    {
        let RowList { width: _, marked } = self;
        marked
    }

    /// Appends a copy of a row. Out of memory, the list is as before.
    pub fn push(&mut self, row: &[i128], eq: bool) -> Result<(), Memory>
        requires wide { length row.now ≡ self.old.width }
        requires in_range { AllInRange row.now }
        ensures width { self.new.width ≡ self.old.width }
        ensures rows { MatchResult result (λ _. self.new.rows ≡ self.old.rows ++ (row.now, eq) ∷ [])
            (λ _. self.new.rows ≡ self.old.rows) }
    {
        self.marked.push_copy(row, eq)?;
        Ok(())
    }

    /// Appends copies of all rows of another list, with their marks. Out of memory, the list is as
    /// before.
    pub fn push_all(&mut self, list: &RowList) -> Result<(), Memory>
        requires { list.now.width ≡ self.old.width }
        ensures width { self.new.width ≡ self.old.width }
        ensures rows { MatchResult result (λ _. self.new.rows ≡ self.old.rows ++ list.now.rows)
            (λ _. self.new.rows ≡ self.old.rows) }
    {
        self.marked.append_copies(&list.marked)
    }

    /// Appends the rows of another list, with their marks. Where there is none yet, they are taken
    /// over without a copy. Out of memory, the list is as before, and the others are dropped.
    pub fn append(&mut self, list: RowList) -> Result<(), Memory>
        requires { list.width ≡ self.old.width }
        ensures width { self.new.width ≡ self.old.width }
        ensures rows { MatchResult result (λ _. self.new.rows ≡ self.old.rows ++ list.rows)
            (λ _. self.new.rows ≡ self.old.rows) }
    {
        if self.marked.is_empty() {
            self.marked = list.into_marked();
            return Ok(());
        }
        self.push_all(&list)
    }

    /// Puts a copy of a row before row `i`, or at the end. Out of memory, the list is as before.
    pub fn insert(&mut self, i: usize, row: &[i128], eq: bool) -> Result<(), Memory>
        requires place { i ≤ length self.old.rows }
        requires wide { length row.now ≡ self.old.width }
        requires in_range { AllInRange row.now }
        ensures width { self.new.width ≡ self.old.width }
        ensures rows { MatchResult result
            (λ _. self.new.rows ≡ insert self.old.rows i (row.now, eq))
            (λ _. self.new.rows ≡ self.old.rows) }
    {
        self.marked.insert(i, row, eq)
    }

    /// Takes row `i` out.
    pub fn remove(&mut self, i: usize)
        requires { i < length self.old.rows }
        ensures width { self.new.width ≡ self.old.width }
        ensures rows { self.new.rows ≡ remove self.old.rows i }
    {
        self.marked.remove(i);
    }

    /// Writes a row over row `i`. Its mark stays.
    pub fn put(&mut self, i: usize, row: &[i128])
        requires place { i < length self.old.rows }
        requires wide { length row.now ≡ self.old.width }
        requires in_range { AllInRange row.now }
        ensures width { self.new.width ≡ self.old.width }
        ensures rows { self.new.rows
            ≡ slice_set self.old.rows i (row.now, is_eq_at self.old.rows i) }
    {
        self.marked.put(i, row);
    }

    /// The width of each row.
    #[inline]
    pub fn width(&self) -> usize
        ensures value { result ≡ self.now.width }
        ensures narrow { self.now.width < 2 ^ 32 }
        ensures rows { FitWidth self.now }
    {
        self.width
    }

    /// The number of rows.
    #[inline]
    pub fn len(&self) -> usize
        ensures { result ≡ length self.now.rows }
    {
        self.marked.len()
    }

    /// Whether there is no row.
    #[inline]
    pub fn is_empty(&self) -> bool
        ensures { result ≡ (length self.now.rows == 0) }
    {
        self.marked.is_empty()
    }

    /// Lends row `i`.
    #[inline]
    pub fn row(&self, i: usize) -> &[i128]
        requires { i < length self.now.rows }
        ensures value { result.now ≡ row_at self.now.rows i }
        ensures wide { length (row_at self.now.rows i) ≡ self.now.width }
        ensures in_range { AllInRange (row_at self.now.rows i) }
    {
        self.marked.row(i)
    }

    /// Whether row `i` is an equality.
    #[inline]
    pub fn is_eq(&self, i: usize) -> bool
        requires { i < length self.now.rows }
        ensures { result ≡ is_eq_at self.now.rows i }
    {
        self.marked.mark(i)
    }
}

impl Clone for RowList {
    ghost is_clone = { λ list copy. copy ≡ list };

    fn clone(&self) -> Result<RowList, AllocError> {
        Ok(RowList {
            width: self.width,
            marked: self.marked.clone()?,
        })
    }
}

impl PartialEq for RowList {
    ghost eq = { is_same_list };

    ghost laws = { Cmp.partial_equiv_from_equiv same_list_equiv };

    fn eq(&self, other: &RowList) -> bool
        ensures value { result ≡ is_same_list self.now other.now }
        ensures same { Decides result (self.now ≡ other.now) }
    {
        self.width == other.width && self.marked == other.marked
    }
}
