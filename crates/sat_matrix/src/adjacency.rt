//! The search of the pairs of adjacent rays on two sides of a row.
ghost use Rattle.std.specs.Prelude.{◌≡◌, ◌+◌, ◌-◌, ◌<◌, [], length, All, ◌↔◌, IsTrue, OnOk};
ghost use Rattle.row_core.specs.Range.{InRange};
ghost use Rattle.sat_matrix.specs.Tables.{HasThird};
ghost use Rattle.sat_matrix.specs.Pairs.{AreAllCrosses, AreRising, AreOn, AreAllFound, is_on};
ghost use Rattle.sat_matrix.specs.Pairs.{pair_on};
ghost use Rattle.sat_matrix.specs.CountTests.{CountsDecide, OneMoreDecides};
ghost use Rattle.sat_matrix.specs.SearchStates.{IsReady, HasFound, HasThirdAt};

use crate::looks::has_crowded;
use crate::matrix::SatMatrix;
use crate::narrowing::{Near, push_narrowed};
use smallvec::SmallVec;
use std::alloc::{AllocError, Global};

/// Where the pairs of rays have fewer words, they are looked at one by one.
const MANY_PAIR_WORDS: usize = 4096;

/// Where the table has fewer words, third rays are looked for among all rays.
const MANY_RAY_WORDS: usize = 2048;

/// The indices of the rays on a side of a row: a few take no memory from the heap.
type Indices = SmallVec<usize, 16>;

/// Pairs of rays: a few take no memory from the heap.
pub type Pairs = SmallVec<(usize, usize), 16>;

/// Lists that one search leaves to the next, which needs no new memory for as many elements.
pub struct PairLists {
    above: Indices,
    below: Indices,
    near: Near,
    /// The pairs of the last search.
    pub pairs: Pairs,
}

// Written by hand, so that a function that drops the lists of a step calls this one.
impl Drop for PairLists {
    fn drop(self) {
        let Self {
            above: _,
            below: _,
            near: _,
            pairs: _,
        } = self;
    }
}

impl PairLists {
    /// Returns empty lists.
    pub fn new(alloc: Global) -> PairLists {
        PairLists {
            above: Indices::new(alloc),
            below: Indices::new(alloc),
            near: Near::new(alloc),
            pairs: Pairs::new(alloc),
        }
    }
}

/// A side of the row.
#[derive(Clone, Copy)]
pub enum Side {
    Above,
    Below,
}

impl Side {
    /// Whether a value is on the side.
    fn has(self, value: i128) -> bool
        ensures { result ≡ is_on self value }
    {
        match self {
            Side::Above => value > 0,
            Side::Below => value < 0,
        }
    }

    /// The pair of a ray on the side and one on the other, with the ray above first.
    fn pair(self, outer: usize, inner: usize) -> (usize, usize)
        ensures { result ≡ pair_on self outer inner }
    {
        match self {
            Side::Above => (outer, inner),
            Side::Below => (inner, outer),
        }
    }
}

/// The least number of rows of the system that two adjacent rays are both 0 on: with fewer, the
/// vectors that are 0 on them have more dimensions than the lines and two rays span (H. Le Verge,
/// 1992).
pub fn least_shared(width: usize, lines: usize) -> usize
    ensures { result ≡ width - (lines + 2) }
{
    width.saturating_sub(lines).saturating_sub(2)
}

/// Lists the pairs of adjacent rays of which the first is above and the second below 0 on the row.
pub fn crossings(
    lists: &mut PairLists,
    values: &[i128],
    zeros: &SatMatrix,
    least: usize,
) -> Result<(), AllocError>
    requires decide { CountsDecide least zeros.now }
    requires as_many { length values.now ≡ length zeros.now.rows }
    requires in_range { All InRange values.now }
    ensures { OnOk result (AreAllCrosses values.now zeros.now lists.new.pairs.items) }
{
    list_side(&mut lists.above, Side::Above, values)?;
    list_side(&mut lists.below, Side::Below, values)?;
    list_pairs(lists, zeros, least)?;
    Ok(())
}

/// Lists the indices of the values on the side.
fn list_side(indices: &mut Indices, side: Side, values: &[i128]) -> Result<(), AllocError>
    requires in_range { All InRange values.now }
    ensures { OnOk result (AreOn side values.now (length values.now) indices.new.items) }
{
    indices.clear();
    indices.reserve(values.len())?;
    for index in 0..values.len() {
        if side.has(values[index]) {
            indices.push_reserved(index);
        }
    }
    Ok(())
}

/// Whether no third ray is 0 wherever two are; the numbers of their zeros decide many pairs.
fn adjacent(zeros: &SatMatrix, first: usize, second: usize) -> bool
    requires first { first < length zeros.now.rows }
    requires second { second < length zeros.now.rows }
    requires decide { OneMoreDecides zeros.now }
    ensures { IsTrue result ↔ ¬ (HasThird zeros.now first second) }
{
    if zeros.has_one_more(first, second) || zeros.has_one_more(second, first) {
        return true;
    }
    !zeros.third_between(first, second)
}

/// A search of adjacent pairs: a side, whose rays the outer loop goes through, and those of the
/// other in the inner; the zeros of all rays, and the least number that adjacent rays share.
#[derive(Drop)]
pub(crate) struct Search<'a> {
    pub(crate) side: Side,
    pub(crate) zeros: &'a SatMatrix,
    pub(crate) outer: &'a [usize],
    pub(crate) inner: &'a [usize],
    pub(crate) least: usize,
}

impl Search<'_> {
    /// How many words so many rows of the table have.
    fn words_of(&self, rows: usize) -> usize {
        rows.saturating_mul(self.zeros.columns() / 64 + 1)
    }

    /// Whether there are so many pairs that it pays to narrow lists.
    fn has_many_pairs(&self) -> bool
        ensures { IsTrue result → 0 < length self.now.outer.now }
    {
        let pairs = self.outer.len().saturating_mul(self.inner.len());
        self.outer.len() > 1 && self.words_of(pairs) >= MANY_PAIR_WORDS
    }

    /// Whether to look for third rays among near ones: of many, some on both sides are crowded.
    pub(crate) fn needs_thirds(&self) -> bool
        requires { IsReady self.now }
    {
        self.words_of(self.zeros.len()) >= MANY_RAY_WORDS
            && has_crowded(self.zeros, self.outer, 0, self.outer.len(), self.least)
            && has_crowded(self.zeros, self.inner, 0, self.inner.len(), self.least)
    }

    /// Appends the pair at a position of the outer side and one of the inner if it is adjacent.
    pub(crate) fn push_pair(
        &self,
        pairs: &mut Pairs,
        position: usize,
        next: usize,
    ) -> Result<(), AllocError>
        requires search { IsReady self.now }
        requires position { position < length self.now.outer.now }
        requires next { next < length self.now.inner.now }
        requires before { HasFound self.now position next pairs.old.items }
        ensures { OnOk result (HasFound self.now position (next + 1) pairs.new.items) }
    {
        let adjacent = adjacent(self.zeros, self.outer[position], self.inner[next]);
        self.push_if(adjacent, pairs, position, next)
    }

    /// The same, where the caller knows whether it is.
    pub(crate) fn push_if(
        &self,
        adjacent: bool,
        pairs: &mut Pairs,
        position: usize,
        next: usize,
    ) -> Result<(), AllocError>
        requires search { IsReady self.now }
        requires position { position < length self.now.outer.now }
        requires next { next < length self.now.inner.now }
        requires adjacent { IsTrue adjacent ↔ ¬ (HasThirdAt self.now position next) }
        requires before { HasFound self.now position next pairs.old.items }
        ensures { OnOk result (HasFound self.now position (next + 1) pairs.new.items) }
    {
        let _columns = self.zeros.columns();
        if adjacent {
            pairs.push(self.side.pair(self.outer[position], self.inner[next]))?;
        }
        Ok(())
    }

    /// Appends the pairs of the outer ray at a position with each adjacent ray of the inner side:
    /// of those that share the least number of zeros with it; others have a third ray between.
    fn push_pairs(&self, pairs: &mut Pairs, position: usize) -> Result<(), AllocError>
        requires search { IsReady self.now }
        requires position { position < length self.now.outer.now }
        requires before { HasFound self.now position 0 pairs.old.items }
        ensures { OnOk result (HasFound self.now (position + 1) 0 pairs.new.items) }
    {
        let ray = self.outer[position];
        let mut next = self.zeros.next_sharing(ray, self.inner, 0, self.least);
        while next < self.inner.len() {
            self.push_pair(pairs, position, next)?;
            next = self
                .zeros
                .next_sharing(ray, self.inner, next + 1, self.least);
        }
        Ok(())
    }

    /// Appends the pairs of adjacent rays, one outer ray after another.
    fn push_one_by_one(&self, pairs: &mut Pairs) -> Result<(), AllocError>
        requires search { IsReady self.now }
        requires none { pairs.old.items ≡ [] }
        ensures { let rays = length self.now.outer.now in
            OnOk result (HasFound self.now rays 0 pairs.new.items) }
    {
        for position in 0..self.outer.len() {
            self.push_pairs(pairs, position)?;
        }
        Ok(())
    }

    /// Appends the pairs of adjacent rays.
    fn push_all(&self, near: &mut Near, pairs: &mut Pairs) -> Result<(), AllocError>
        requires search { IsReady self.now }
        requires none { pairs.old.items ≡ [] }
        ensures { let rays = length self.now.outer.now in
            OnOk result (HasFound self.now rays 0 pairs.new.items) }
    {
        if self.has_many_pairs() {
            return push_narrowed(self, near, pairs);
        }
        self.push_one_by_one(pairs)
    }
}

/// Lists the pairs of adjacent rays of the two sides, with the smaller side in the outer loop.
fn list_pairs(lists: &mut PairLists, zeros: &SatMatrix, least: usize) -> Result<(), AllocError>
    requires decide { CountsDecide least zeros.now }
    requires above { AreRising (length zeros.now.rows) lists.old.above.items }
    requires below { AreRising (length zeros.now.rows) lists.old.below.items }
    ensures { let above = lists.old.above.items in
        let below = lists.old.below.items in
        OnOk result (AreAllFound zeros.now above below lists.new.pairs.items) }
{
    lists.pairs.clear();
    let (near, pairs) = (&mut lists.near, &mut lists.pairs);
    let (above, below) = (lists.above.as_slice(), lists.below.as_slice());
    if above.len() <= below.len() {
        let search = Search {
            side: Side::Above,
            zeros,
            outer: above,
            inner: below,
            least,
        };
        return search.push_all(near, pairs);
    }
    let search = Search {
        side: Side::Below,
        zeros,
        outer: below,
        inner: above,
        least,
    };
    search.push_all(near, pairs)
}
