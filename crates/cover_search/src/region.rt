//! The points at which constraints hold, with the system of their list.
ghost use Rattle.std.specs.Prelude.{◌≡◌, ℕ, ◌+◌, ◌-◌, ◌^◌, ◌<◌, ◌++◌, ◌∷◌, [], map, length, pos, ◌≤ℤ◌, ◌<ℤ◌, All, IsTrue, IfErr, IfOk, MatchOption, OnOk};
ghost use Rattle.row_core.specs.Vectors.{cell, dot};
ghost use Rattle.row_core.specs.Range.{InRange, AllInRange};
ghost use Rattle.row_core.specs.Content.{IsPrimitiveOf};
ghost use Rattle.row_core.specs.Lists.{row_at, vectors};
ghost use Rattle.stored_systems.specs.WorkLists.{HaveNoPoint};
ghost use Rattle.nnc_enc.specs.Encoding.{encoded_constraint, lowered};
ghost use Rattle.row_core.specs.Refusals.{IsOverflowIn};
ghost use Rattle.cons_sys.specs.Constraints.{constraint_at};
ghost use Rattle.poly_pair.specs.Spanning.{HoldNowhere};
ghost use Rattle.cover_search.specs.Inequalities.{AreInequalities, complement};
ghost use Rattle.cover_search.specs.Regions.{LeavesOnList, with_one, IsPointIn, HoldsOn, IsKept};
ghost use Rattle.cover_search.specs.Conversions.{ConvertsList, ConvertsNext};

use crate::halfspaces::Halfspaces;
use crate::inequalities::is_strict;
use crate::walls::Walls;
use chernikova::{Cone, add_rows_from, convert};
use cons_sys::ConsSys;
use nnc_enc::encode_cons;
use row_core::{ConvErr, Memory, RowBuf, RowList, Steps, dot};
use std::alloc::Global;
use std::marker::Model;
use std::sync::ledger::Ledger;

/// Constraints with their encoded list and its canonical system.
pub(crate) struct Region {
    cons: ConsSys,
    list: RowList,
    cone: Cone,
}

// Written by hand, so that a function that drops a region calls this one, and doesn't free each
// part itself.
impl Drop for Region {
    fn drop(self) {
        let Region {
            cons: _,
            list: _,
            cone: _,
        } = self;
    }
}

impl Model for Region {
    ghost use Rattle.cons_sys.specs.Constraints.{Constraints};
    ghost use Rattle.cover_search.specs.Regions.{HasListAndCone};

    ghost Value = { Constraints };

    ghost view = { λ r. r.cons };

    ghost invariant = { λ r. HasListAndCone r.cons r.list r.cone };
}

/// Appends one of the inequalities to constraints, and its row to the list that encodes these.
fn push_one(
    cons: &mut ConsSys,
    list: &mut RowList,
    halfspaces: &Halfspaces,
    index: usize,
) -> Result<(), Memory>
    requires dim { halfspaces.now.dim ≡ cons.old.dim }
    requires width { list.old.width ≡ cons.old.dim + 2 }
    requires index { index < length halfspaces.now.list }
    ensures cons { OnOk result
        (cons.new ≡ with_one cons.old (constraint_at halfspaces.now.list index)) }
    ensures width { list.new.width ≡ list.old.width }
    ensures rows { OnOk result
        (list.new.rows ≡ list.old.rows ++ encoded_constraint cons.old.dim
        (constraint_at halfspaces.now.list index) ∷ []) }
{
    let given = halfspaces.cons();
    let encoded = halfspaces.rows();
    cons.push_primitive(given.row(index), given.kind(index))?;
    list.push(encoded.row(index), encoded.is_eq(index))
}

/// The first ray that is positive at the column.
fn first_positive(column: usize, rays: &RowList) -> Option<usize>
    requires { column < rays.now.width }
    ensures { MatchOption result (HaveNoPoint column (vectors rays.now.rows))
        (λ i. (i < length rays.now.rows) × (pos 0 <ℤ cell (row_at rays.now.rows i) column)) }
{
    for index in 0..rays.len() {
        if rays.row(index)[column] > 0 {
            return Some(index);
        }
    }
    None
}

/// The vector without the column, made primitive.
fn lowered_row(alloc: Global, column: usize, row: &[i128]) -> Result<RowBuf, Memory>
    requires column { column < length row.now }
    requires narrow { length row.now < 2 ^ 32 }
    requires in_range { AllInRange row.now }
    ensures { IfOk result (IsPrimitiveOf (lowered column row.now)) }
{
    let mut lowered = Vec::from_slice(alloc, row)?;
    let _height = lowered.remove(column);
    Ok(RowBuf::from_vec(lowered).into_primitive())
}

/// Whether the row is 0 on each vector. A dot that leaves the range answers no.
fn is_zero_on(row: &[i128], list: &RowList) -> bool
    requires wide { length row.now ≡ list.now.width }
    requires narrow { length row.now < 2 ^ 32 }
    requires in_range { AllInRange row.now }
    ensures { IsTrue result → All (λ v. dot row.now v ≡ pos 0) (vectors list.now.rows) }
{
    for index in 0..list.len() {
        match dot(row, list.row(index)) {
            Ok(value) => {
                if value != 0 {
                    return false;
                }
            }
            Err(_) => return false,
        }
    }
    true
}

/// Whether the value of the row of an inequality on a vector is at least 0 or, of a strict one,
/// above 0 without the height, which stands in the column. A dot that leaves the range answers no.
fn is_kept(strict: bool, column: usize, row: &[i128], vector: &[i128]) -> bool
    requires wide { length row.now ≡ length vector.now }
    requires column { column < length vector.now }
    requires narrow { length row.now < 2 ^ 32 }
    requires in_range { AllInRange vector.now }
    ensures { IsTrue result → IsKept strict (dot row.now vector.now) (cell vector.now column) }
{
    match dot(row, vector) {
        Ok(value) => value >= 0 || (strict && value > -vector[column]),
        Err(_) => false,
    }
}

/// Whether it is so on each vector.
fn is_kept_on(strict: bool, column: usize, row: &[i128], list: &RowList) -> bool
    requires wide { length row.now ≡ list.now.width }
    requires column { column < list.now.width }
    requires narrow { length row.now < 2 ^ 32 }
    ensures { IsTrue result
        → All (λ v. IsKept strict (dot row.now v) (cell v column)) (vectors list.now.rows) }
{
    for index in 0..list.len() {
        if !is_kept(strict, column, row, list.row(index)) {
            return false;
        }
    }
    true
}

impl Region {
    /// Whether one of the inequalities is seen to hold at all of these points. Where a number
    /// leaves the range the answer is no.
    fn keeps(&self, halfspaces: &Halfspaces, index: usize) -> bool
        requires dim { halfspaces.now.dim ≡ self.now.dim }
        requires index { index < length halfspaces.now.list }
        requires inequalities { AreInequalities halfspaces.now }
        ensures { IsTrue result → HoldsOn self.now (constraint_at halfspaces.now.list index) }
    {
        let dim = self.cons.dim();
        let _fit = halfspaces.cons().dim();
        let strict = is_strict(halfspaces.cons().kind(index));
        let row = halfspaces.rows().row(index);
        if !is_zero_on(row, &self.cone.lines) {
            return false;
        }
        is_kept_on(strict, dim, row, &self.cone.rays)
    }

    /// Whether an inequality of a system is seen to hold at all of these points.
    pub(crate) fn is_inside(&self, walls: &Walls, index: usize) -> bool
        requires dim { walls.now.dim ≡ self.now.dim }
        requires index { index < length walls.now.list }
        requires inequalities { AreInequalities walls.now }
        ensures { IsTrue result → HoldsOn self.now (constraint_at walls.now.list index) }
    {
        self.keeps(walls.inner(), index)
    }

    /// Whether it is seen to hold at none.
    pub(crate) fn is_outside(&self, walls: &Walls, index: usize) -> bool
        requires dim { walls.now.dim ≡ self.now.dim }
        requires index { index < length walls.now.list }
        requires inequalities { AreInequalities walls.now }
        ensures { IsTrue result
            → HoldsOn self.now (complement (constraint_at walls.now.list index)) }
    {
        self.keeps(walls.outer(), index)
    }

    /// The points at which constraints hold.
    ///
    /// # Errors
    ///
    /// An overflow is one of the conversion of their list.
    pub(crate) fn new<L: Ledger>(
        alloc: Global,
        cons: &ConsSys,
        steps: &mut Steps<L>,
    ) -> Result<Region, ConvErr>
        ensures region { IfOk result (λ r. r ≡ cons.now) }
        ensures overflow { IfErr result (IsOverflowIn (LeavesOnList cons.now)) }
        ensures conversion { ConvertsList cons.now steps.old steps.new result }
    {
        let list = encode_cons(alloc, cons)?;
        let cons = cons.clone()?;
        let cone = convert(alloc, list.width(), &list, steps)?;
        Ok(Region { cons, list, cone })
    }

    /// Those of these points at which one of the inequalities holds.
    fn narrowed<L: Ledger>(
        self,
        alloc: Global,
        halfspaces: &Halfspaces,
        index: usize,
        steps: &mut Steps<L>,
    ) -> Result<Region, ConvErr>
        requires dim { halfspaces.now.dim ≡ self.dim }
        requires index { index < length halfspaces.now.list }
        ensures region { IfOk result
            (λ r. r ≡ with_one self (constraint_at halfspaces.now.list index)) }
        ensures overflow { IfErr result
            (IsOverflowIn
            (LeavesOnList (with_one self (constraint_at halfspaces.now.list index)))) }
        ensures conversion { let c = constraint_at halfspaces.now.list index in
            ConvertsNext self c steps.old steps.new result }
    {
        let Region {
            mut cons,
            mut list,
            cone,
        } = self;
        let from = list.len();
        push_one(&mut cons, &mut list, halfspaces, index)?;
        let added = add_rows_from(alloc, cone, &list, from, steps)?;
        Ok(Region {
            cons,
            list,
            cone: added.cone,
        })
    }

    /// Those of these points at which an inequality of a system holds.
    ///
    /// # Errors
    ///
    /// An overflow is one of the conversion of the list of all constraints.
    pub(crate) fn inside<L: Ledger>(
        self,
        walls: &Walls,
        index: usize,
        steps: &mut Steps<L>,
    ) -> Result<Region, ConvErr>
        requires dim { walls.now.dim ≡ self.dim }
        requires index { index < length walls.now.list }
        ensures region { IfOk result (λ r. r ≡ with_one self (constraint_at walls.now.list index)) }
        ensures overflow { IfErr result
            (IsOverflowIn (LeavesOnList (with_one self (constraint_at walls.now.list index)))) }
        ensures conversion { let c = constraint_at walls.now.list index in
            ConvertsNext self c steps.old steps.new result }
    {
        let alloc = self.allocator();
        self.narrowed(alloc, walls.inner(), index, steps)
    }

    /// Those at which it doesn't.
    ///
    /// # Errors
    ///
    /// As [`Region::inside`].
    pub(crate) fn outside<L: Ledger>(
        self,
        walls: &Walls,
        index: usize,
        steps: &mut Steps<L>,
    ) -> Result<Region, ConvErr>
        requires dim { walls.now.dim ≡ self.dim }
        requires index { index < length walls.now.list }
        ensures region { IfOk result
            (λ r. r ≡ with_one self (complement (constraint_at walls.now.list index))) }
        ensures overflow { IfErr result
            (IsOverflowIn
            (LeavesOnList (with_one self (complement (constraint_at walls.now.list index))))) }
        ensures conversion { let c = complement (constraint_at walls.now.list index) in
            ConvertsNext self c steps.old steps.new result }
    {
        let alloc = self.allocator();
        self.narrowed(alloc, walls.outer(), index, steps)
    }

    /// The allocator that the constraints keep.
    pub(crate) fn allocator(&self) -> Global {
        self.cons.allocator()
    }

    /// A copy.
    pub(crate) fn copied(&self) -> Result<Region, Memory>
        ensures { IfOk result (λ r. r ≡ self.now) }
    {
        let cons = self.cons.clone()?;
        let list = self.list.clone()?;
        let cone = self.cone.clone()?;
        Ok(Region { cons, list, cone })
    }

    /// One of the points, if there is one: that of the first ray that codes a point.
    pub(crate) fn point(&self) -> Result<Option<RowBuf>, Memory>
        ensures { IfOk result
            (λ found. MatchOption found (HoldNowhere self.now) (IsPointIn self.now)) }
    {
        let dim = self.cons.dim();
        let Some(index) = first_positive(dim, &self.cone.rays) else {
            return Ok(None);
        };
        let point = lowered_row(self.allocator(), dim, self.cone.rays.row(index))?;
        Ok(Some(point))
    }
}
