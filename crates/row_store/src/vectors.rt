//! The lines or the rays of a system.
ghost use Rattle.std.specs.Prelude.{◌≡◌, ◌≢◌, ℕ, ◌+◌, ◌^◌, ◌<◌, ◌≤◌, false, []};
ghost use Rattle.std.specs.Prelude.{◌∷◌, ◌++◌, length, max, take, pos, All};
ghost use Rattle.std.specs.Prelude.{IfOk, OnOk, OnErr, MatchResult};
ghost use Rattle.row_core.specs.Vectors.{scale};
ghost use Rattle.row_core.specs.Content.{IsPrimitive};
ghost use Rattle.row_core.specs.Range.{InRange, AllInRange};
ghost use Rattle.row_core.specs.Sizes.{HaveBits};
ghost use Rattle.flat_rows.specs.Flat.{marked};
ghost use Rattle.row_core.specs.Lists.{row_at, AreMarked};
ghost use Rattle.row_core.specs.Signs.{sign};
ghost use Rattle.row_core.specs.Combinations.{IsCombined, CombinationLeaves};
ghost use Rattle.row_store.specs.Vectors.{Vectors, as_rows, with_mark, IsAppended, HasSame};

use crate::combining::{append_combination, append_lowered, append_upward};
use crate::store::RowStore;
use row_core::{Memory, RowList, Steps, bits};
use std::alloc::Global;
use std::marker::Model;
use std::sync::ledger::Ledger;

/// Room for the vectors of most small systems, so that a list grows once.
const LEAST_VECTORS: usize = 16;

/// A line on which a row isn't 0: its index among the lines of a system, the line, its value on the
/// row, and how many bits its numbers have at most, or more.
#[derive(Clone, Copy)]
pub struct Crossing<'a> {
    pub index: usize,
    pub line: &'a [i128],
    pub value: i128,
    pub bits: u32,
}

/// Vectors of one width in one buffer, all marked as equalities or all as inequalities, and how
/// many bits their numbers have at most.
#[derive(Debug, Drop)]
pub struct VectorList {
    eq: bool,
    bits: u32,
    store: RowStore,
}

impl Model for VectorList {
    ghost Value = { Vectors };

    ghost view = { λ l. record {
      width = l.store.width;
      rows = with_mark l.eq l.store.rows;
      spare = l.store.spare;
    } };

    ghost invariant = { λ l. All (HaveBits l.bits) l.store.rows };
}

impl VectorList {
    /// Returns the empty list of that width.
    pub fn new(alloc: Global, width: usize) -> VectorList
        requires { width < 2 ^ 32 }
        ensures width { result.width ≡ width }
        ensures empty { result.rows ≡ [] }
    {
        VectorList {
            eq: false,
            bits: 0,
            store: RowStore::new(alloc, width),
        }
    }

    /// Returns the empty list of that width, with room for some vectors, and no less than for those
    /// of most conversions.
    pub fn with_room(alloc: Global, width: usize, vectors: usize) -> Result<VectorList, Memory>
        requires { width < 2 ^ 32 }
        ensures width { IfOk result (λ list. list.width ≡ width) }
        ensures empty { IfOk result (λ list. list.rows ≡ []) }
        ensures room { IfOk result (λ list. vectors ≤ list.spare) }
    {
        let mut store = RowStore::new(alloc, width);
        store.reserve(vectors.max(LEAST_VECTORS))?;
        Ok(VectorList {
            eq: false,
            bits: 0,
            store,
        })
    }

    /// Takes the rows of a list over, without a copy. All have the mark.
    pub fn of_list(list: RowList, eq: bool) -> VectorList
        requires { AreMarked eq list.rows }
        ensures rows { as_rows result ≡ list }
        ensures spare { result.spare ≡ 0 }
    {
        let (width, count) = (list.width(), list.len());
        let store = RowStore::of_cells(width, count, list.into_cells());
        VectorList {
            eq,
            bits: store.bits(),
            store,
        }
    }

    /// Gives the vectors up as a list of rows, without a copy.
    pub fn into_list(self, alloc: Global) -> Result<RowList, Memory>
        ensures { IfOk result (λ list. list ≡ as_rows self) }
    {
        let (width, count) = (self.store.width(), self.store.len());
        let list = RowList::of_cells(alloc, width, count, self.store.into_cells(), self.eq)?;
        let _width = list.width();
        Ok(list)
    }

    /// Makes room for some more vectors. Out of memory, the list is as before.
    pub fn reserve(&mut self, vectors: usize) -> Result<(), Memory>
        ensures ok { let spare = max self.old.spare vectors in
            OnOk result (self.new ≡ record self.old { spare = spare }) }
        ensures err { OnErr result (self.new ≡ self.old) }
    {
        self.store.reserve(vectors)
    }

    /// The width of each vector.
    #[inline]
    pub fn width(&self) -> usize
        ensures value { result ≡ self.now.width }
        ensures narrow { self.now.width < 2 ^ 32 }
    {
        self.store.width()
    }

    /// The number of vectors.
    #[inline]
    pub fn len(&self) -> usize
        ensures { result ≡ length self.now.rows }
    {
        self.store.len()
    }

    /// How many bits the numbers have at most.
    #[inline]
    pub fn bits(&self) -> u32
        ensures { let rows = self.now.rows in
            (i : ℕ) → i < length rows → HaveBits result (row_at rows i) }
    {
        self.bits
    }

    /// Lends vector `i`.
    #[inline]
    pub fn row(&self, i: usize) -> &[i128]
        requires { i < length self.now.rows }
        ensures value { result.now ≡ row_at self.now.rows i }
        ensures wide { length (row_at self.now.rows i) ≡ self.now.width }
        ensures in_range { AllInRange (row_at self.now.rows i) }
    {
        self.store.row(i)
    }

    /// Appends a copy of a vector. Out of memory, the list is as before.
    pub fn push(&mut self, row: &[i128], eq: bool) -> Result<(), Memory>
        requires wide { length row.now ≡ self.old.width }
        requires in_range { AllInRange row.now }
        requires alike { AreMarked eq self.old.rows }
        ensures width { self.new.width ≡ self.old.width }
        ensures rows { OnOk result (self.new.rows ≡ self.old.rows ++ (row.now, eq) ∷ []) }
        ensures same { OnErr result (self.new.rows ≡ self.old.rows) }
        ensures marked { AreMarked eq self.new.rows }
    {
        self.store.reserve(1)?;
        self.eq = eq;
        self.store.push_reserved(row);
        self.bits = self.bits.max(bits(row));
        Ok(())
    }

    /// Appends, to a list of rays, the combination of the rays at two indices that is 0 on a row on
    /// which they have the values `u` and `v`.
    ///
    /// # Errors
    ///
    /// The first column at which a product or the sum leaves the range. The rays are then as
    /// before.
    pub fn push_combination<L: Ledger>(
        &mut self,
        left: usize,
        u: i128,
        right: usize,
        v: i128,
        steps: &mut Steps<L>,
    ) -> Result<(), u32>
        requires spare { 0 < self.old.spare }
        requires vectors { (left < length self.old.rows) × (right < length self.old.rows) }
        requires rays { AreMarked false self.old.rows }
        requires in_range { InRange u × InRange v }
        requires nonzero { u ≢ pos 0 }
        ensures counted { steps.new ≡ steps.old + 1 }
        ensures combined { let first = row_at self.old.rows left in
            let second = row_at self.old.rows right in
            let Is = IsCombined u v first second in
            let Leaves = CombinationLeaves u v first second in
            MatchResult result (λ _. IsAppended false Is self.old self.new)
            (λ column. HasSame self.old self.new × Leaves column) }
    {
        let made = append_combination(&mut self.store, (left, right), u, v, self.bits, steps)?;
        self.eq = false;
        self.bits = self.bits.max(made);
        Ok(())
    }

    /// Appends a primitive vector with its value on a row, lowered onto the row by a line that the
    /// row crosses.
    ///
    /// # Errors
    ///
    /// The first column at which a product or the sum leaves the range. The list is then as before.
    pub fn push_lowered<L: Ledger>(
        &mut self,
        crossing: Crossing,
        vector: &[i128],
        value: i128,
        eq: bool,
        steps: &mut Steps<L>,
    ) -> Result<(), u32>
        requires spare { 0 < self.old.spare }
        requires line { length crossing.line.now ≡ self.old.width }
        requires wide { length vector.now ≡ self.old.width }
        requires vector { AllInRange vector.now × IsPrimitive vector.now }
        requires line_bits { HaveBits crossing.bits crossing.line.now }
        requires vector_bits { HaveBits crossing.bits vector.now }
        requires in_range { InRange crossing.value × InRange value }
        requires nonzero { crossing.value ≢ pos 0 }
        requires alike { AreMarked eq self.old.rows }
        ensures counted { (steps.old ≤ steps.new) × (steps.new ≤ steps.old + 1) }
        ensures combined { let line = crossing.entry.line.now in
            let Is = IsCombined crossing.entry.value value line vector.now in
            let Leaves = CombinationLeaves crossing.entry.value value line vector.now in
            MatchResult result (λ _. IsAppended eq Is self.old self.new)
            (λ column. HasSame self.old self.new × Leaves column) }
    {
        let made = append_lowered(&mut self.store, crossing, vector, value, steps)?;
        self.eq = eq;
        self.bits = self.bits.max(made);
        Ok(())
    }

    /// Appends, to a list of rays, a line with the sign with which a row with this value on it is
    /// above 0 on it.
    pub fn push_upward(&mut self, line: &[i128], value: i128)
        requires spare { 0 < self.old.spare }
        requires wide { length line.now ≡ self.old.width }
        requires in_range { AllInRange line.now × InRange value }
        requires nonzero { value ≢ pos 0 }
        requires rays { AreMarked false self.old.rows }
        ensures width { self.new.width ≡ self.old.width }
        ensures rows { self.new.rows ≡ self.old.rows ++ (scale (sign value) line.now, false) ∷ [] }
    {
        append_upward(&mut self.store, line, value);
        self.eq = false;
        self.bits = self.bits.max(bits(line));
    }

    /// Keeps the marked vectors, in order. No room is lost.
    pub fn keep_rows(&mut self, keep: &[bool])
        requires { length keep.now ≡ length self.old.rows }
        ensures width { self.new.width ≡ self.old.width }
        ensures rows { self.new.rows ≡ marked keep.now self.old.rows }
        ensures spare { self.old.spare ≤ self.new.spare }
    {
        self.store.keep_rows(keep);
    }

    /// Keeps the first `count` vectors.
    pub fn truncate(&mut self, count: usize)
        requires { count ≤ length self.old.rows }
        ensures { self.new ≡ record self.old { rows = take count self.old.rows } }
    {
        self.store.truncate(count);
    }
}

/// Takes the vectors out of a list, and gives it a width and room for some.
pub fn make_empty(
    alloc: Global,
    list: &mut VectorList,
    width: usize,
    room: usize,
) -> Result<(), Memory>
    requires { width < 2 ^ 32 }
    ensures width { OnOk result (list.new.width ≡ width) }
    ensures empty { OnOk result (list.new.rows ≡ []) }
    ensures room { OnOk result (room ≤ list.new.spare) }
{
    if list.width() != width {
        *list = VectorList::new(alloc, width);
    }
    list.truncate(0);
    list.bits = 0;
    list.reserve(room.max(LEAST_VECTORS))
}
