//! Pieces of a set, and their parts by one inequality.
ghost use Rattle.std.specs.Prelude.{◌≡◌, ◌+◌, ◌^◌, ◌<◌, ◌≤◌, ◌++◌, ◌∷◌, [], length, IfErr, IfOk, MatchOption, OnOk, All, IsTrue};
ghost use Rattle.cons_sys.specs.Constraints.{constraint_at};
ghost use Rattle.cover_search.specs.Inequalities.{AreInequalities, complement};
ghost use Rattle.row_core.specs.Refusals.{IsOverflowIn};
ghost use Rattle.cover_search.specs.Regions.{LeavesOnList};
ghost use Rattle.cover_search.specs.Pieces.{outer_part, inner_part, IsInner, IsSplit, LeavesInSplit, IsWithin, LiesInSome, IsTurn, IsFound, LeavesInTurn};
ghost use Rattle.cover_search.specs.Conversions.{ConvertsNext, ConvertsInner, ConvertsSplit, ConvertsTurn};

use crate::contacts::{Contact, contact_of};
use crate::region::Region;
use crate::walls::Walls;
use row_core::{ConvErr, Memory, RowBuf, Steps};
use std::sync::ledger::Ledger;

/// A part of a set that is left to be covered. It is outside of the first systems, and some
/// inequalities of the next one hold on it.
#[derive(Drop)]
pub(crate) struct Piece {
    pub(crate) region: Region,
    pub(crate) passed: usize,
    pub(crate) row: usize,
}

impl Piece {
    /// A copy.
    fn copied(&self) -> Result<Piece, Memory>
        ensures { IfOk result (λ piece. piece ≡ self.now) }
    {
        let region = self.region.copied()?;
        Ok(Piece {
            region,
            passed: self.passed,
            row: self.row,
        })
    }

    /// The part on which the next inequality of the next system doesn't hold.
    fn outer<L: Ledger>(self, walls: &Walls, steps: &mut Steps<L>) -> Result<Piece, ConvErr>
        requires dim { walls.now.dim ≡ self.region.dim }
        requires passed { self.passed + 1 < 2 ^ 64 }
        requires row { self.row < length walls.now.list }
        ensures part { IfOk result (λ part. part ≡ outer_part walls.now self) }
        ensures overflow { IfErr result
            (IsOverflowIn (LeavesOnList (outer_part walls.now self).region)) }
        ensures conversion { let c = complement (constraint_at walls.now.list self.row) in
            ConvertsNext self.region c steps.old steps.new result }
    {
        let passed = self.passed + 1;
        let region = self.region.outside(walls, self.row, steps)?;
        Ok(Piece {
            region,
            passed,
            row: 0,
        })
    }

    /// The part on which it holds.
    fn inner<L: Ledger>(self, walls: &Walls, steps: &mut Steps<L>) -> Result<Piece, ConvErr>
        requires dim { walls.now.dim ≡ self.region.dim }
        requires row { self.row < length walls.now.list }
        requires row_fits { self.row + 1 < 2 ^ 64 }
        ensures part { IfOk result (λ part. part ≡ inner_part walls.now self) }
        ensures overflow { IfErr result
            (IsOverflowIn (LeavesOnList (inner_part walls.now self).region)) }
        ensures conversion { let c = constraint_at walls.now.list self.row in
            ConvertsNext self.region c steps.old steps.new result }
    {
        let row = self.row + 1;
        let passed = self.passed;
        let region = self.region.inside(walls, self.row, steps)?;
        Ok(Piece {
            region,
            passed,
            row,
        })
    }
}

/// Appends the part of a piece on which the next inequality of the system holds, if it isn't the
/// last: then the part is within the system.
fn push_inner<L: Ledger>(
    walls: &Walls,
    piece: Piece,
    pending: &mut Vec<Piece>,
    steps: &mut Steps<L>,
) -> Result<(), ConvErr>
    requires dim { walls.now.dim ≡ piece.region.dim }
    requires row { piece.row < length walls.now.list }
    ensures part { OnOk result (IsInner walls.now piece pending.old.items pending.new.items) }
    ensures overflow { IfErr result (IsOverflowIn (LeavesInSplit walls.now piece)) }
    ensures conversion { let before = pending.old.items in
        ConvertsInner walls.now piece before pending.new.items steps.old steps.new result }
{
    let end = walls.len();
    if piece.row + 1 == end {
        return Ok(());
    }
    let inner = piece.inner(walls, steps)?;
    pending.push(inner)?;
    Ok(())
}

/// Appends the part on which it doesn't hold.
fn push_outer<L: Ledger>(
    walls: &Walls,
    piece: Piece,
    pending: &mut Vec<Piece>,
    steps: &mut Steps<L>,
) -> Result<(), ConvErr>
    requires dim { walls.now.dim ≡ piece.region.dim }
    requires passed { piece.passed + 1 < 2 ^ 64 }
    requires row { piece.row < length walls.now.list }
    ensures part { OnOk result
        (pending.new.items ≡ pending.old.items ++ outer_part walls.now piece ∷ []) }
    ensures overflow { IfErr result (IsOverflowIn (LeavesInSplit walls.now piece)) }
    ensures conversion { let c = complement (constraint_at walls.now.list piece.row) in
        ConvertsNext piece.region c steps.old steps.new result }
{
    let outer = piece.outer(walls, steps)?;
    pending.push(outer)?;
    Ok(())
}

/// Appends both parts, the one on which it doesn't hold last.
fn push_both<L: Ledger>(
    walls: &Walls,
    piece: Piece,
    pending: &mut Vec<Piece>,
    steps: &mut Steps<L>,
) -> Result<(), ConvErr>
    requires dim { walls.now.dim ≡ piece.region.dim }
    requires passed { piece.passed + 1 < 2 ^ 64 }
    requires row { piece.row < length walls.now.list }
    ensures parts { OnOk result (IsSplit walls.now piece pending.old.items pending.new.items) }
    ensures overflow { IfErr result (IsOverflowIn (LeavesInSplit walls.now piece)) }
    ensures conversion { let before = pending.old.items in
        ConvertsSplit walls.now piece before pending.new.items steps.old steps.new result }
{
    let copy = piece.copied()?;
    push_inner(walls, piece, pending, steps)?;
    push_outer(walls, copy, pending, steps)?;
    Ok(())
}

/// Appends the parts of a piece on which the next inequality of the system holds and on which it
/// doesn't, the latter last. A part that is within the system, or is seen to have no point, is left
/// out.
fn split<L: Ledger>(
    walls: &Walls,
    piece: Piece,
    pending: &mut Vec<Piece>,
    steps: &mut Steps<L>,
) -> Result<(), ConvErr>
    requires dim { walls.now.dim ≡ piece.region.dim }
    requires passed { piece.passed + 1 < 2 ^ 64 }
    requires row { piece.row ≤ length walls.now.list }
    requires inequalities { AreInequalities walls.now }
    ensures parts { OnOk result (IsSplit walls.now piece pending.old.items pending.new.items) }
    ensures overflow { IfErr result (IsOverflowIn (LeavesInSplit walls.now piece)) }
    ensures conversion { let before = pending.old.items in
        ConvertsSplit walls.now piece before pending.new.items steps.old steps.new result }
{
    if piece.row == walls.len() {
        return Ok(());
    }
    if piece.region.is_outside(walls, piece.row) {
        push_outer(walls, piece, pending, steps)?;
        return Ok(());
    }
    if piece.region.is_inside(walls, piece.row) {
        push_inner(walls, piece, pending, steps)?;
        return Ok(());
    }
    push_both(walls, piece, pending, steps)
}

/// Whether the piece is seen to lie in one of the systems that are still to come, before any of its
/// inequalities is taken.
fn lies_in_some(systems: &[Walls], piece: &Piece) -> bool
    requires dims { All (λ rows. rows.dim ≡ piece.now.region.dim) systems.now }
    requires inequalities { All AreInequalities systems.now }
    ensures { IsTrue result → LiesInSome systems.now piece.now.region }
{
    if piece.row > 0 {
        return false;
    }
    for index in piece.passed..systems.len() {
        if let Contact::Within = contact_of(&piece.region, &systems[index]) {
            return true;
        }
    }
    false
}

/// Takes a piece: gives a point of it where it is outside of all systems, and else its parts by the
/// next system, behind the pieces that are pending. A piece without a point has none, nor has one
/// that is seen to lie in one system.
pub(crate) fn turn<L: Ledger>(
    systems: &[Walls],
    piece: Piece,
    pending: &mut Vec<Piece>,
    steps: &mut Steps<L>,
) -> Result<Option<RowBuf>, ConvErr>
    requires within { IsWithin systems.now piece }
    requires inequalities { All AreInequalities systems.now }
    ensures turn { IfOk result
        (λ found. MatchOption found (IsTurn systems.now piece pending.old.items pending.new.items)
        (IsFound systems.now piece)) }
    ensures overflow { IfErr result (IsOverflowIn (LeavesInTurn systems.now piece)) }
    ensures conversion { let before = pending.old.items in
        ConvertsTurn systems.now piece before pending.new.items steps.old steps.new result }
{
    let point = match piece.region.point()? {
        Some(point) => point,
        None => return Ok(None),
    };
    if piece.passed == systems.len() {
        return Ok(Some(point));
    }
    if lies_in_some(systems, &piece) {
        return Ok(None);
    }
    let passed = piece.passed;
    split(&systems[passed], piece, pending, steps)?;
    Ok(None)
}
