//! Points of a set that no system of a list has.
ghost use Rattle.std.specs.Prelude.{◌≡◌, ◌≤◌, All, IfErr, IfOk, MatchOption};
ghost use Rattle.row_core.specs.Refusals.{IsOverflowIn};
ghost use Rattle.cover_search.specs.Inequalities.{AreInequalities};
ghost use Rattle.cover_search.specs.Branches.{LeavesOnBranch, AreCovered, IsUncovered};
ghost use Rattle.cover_search.specs.Conversions.{ConvertsBranches, ConvertsSearch};

use crate::pieces::{Piece, turn};
use crate::region::Region;
use crate::search::search;
use crate::walls::Walls;
use cons_sys::ConsSys;
use row_core::{ConvErr, RowBuf, Steps};
use std::alloc::Global;
use std::sync::ledger::Ledger;

/// A point at which the first constraints hold and none of the systems does, if there is one. The
/// set is parted by one inequality after another; of the two parts, that on which it doesn't hold
/// is outside of its system, and goes first.
fn by_branches<L: Ledger>(
    alloc: Global,
    first: &ConsSys,
    systems: &[Walls],
    steps: &mut Steps<L>,
) -> Result<Option<RowBuf>, ConvErr>
    requires dims { All (λ rows. rows.dim ≡ first.now.dim) systems.now }
    requires inequalities { All AreInequalities systems.now }
    ensures found { IfOk result
        (λ found. MatchOption found (AreCovered first.now systems.now)
        (IsUncovered first.now systems.now)) }
    ensures overflow { IfErr result (IsOverflowIn (LeavesOnBranch first.now systems.now)) }
    ensures conversion { ConvertsBranches first.now systems.now steps.old steps.new result }
{
    let region = Region::new(alloc, first, steps)?;
    let mut pending = Vec::new(alloc);
    pending.push(Piece {
        region,
        passed: 0,
        row: 0,
    })?;
    while let Some(piece) = pending.pop() {
        let found = turn(systems, piece, &mut pending, steps)?;
        if found.is_some() {
            return Ok(found);
        }
    }
    Ok(None)
}

/// A point at which the first constraints hold and none of the systems does, if there is one. The
/// search passes by the systems that a part of the set doesn't meet; where a number leaves the
/// range in it, one over all branches decides. What the former counts stays counted then.
///
/// # Errors
///
/// An overflow is one of the conversion of the encoded list of the constraints of a branch: the
/// first ones, and then, for each of the first systems, some of its inequalities and the complement
/// of the next.
pub fn uncovered<L: Ledger>(
    alloc: Global,
    first: &ConsSys,
    systems: &[Walls],
    steps: &mut Steps<L>,
) -> Result<Option<RowBuf>, ConvErr>
    requires dims { All (λ rows. rows.dim ≡ first.now.dim) systems.now }
    requires inequalities { All AreInequalities systems.now }
    ensures found { IfOk result
        (λ found. MatchOption found (AreCovered first.now systems.now)
        (IsUncovered first.now systems.now)) }
    ensures overflow { IfErr result (IsOverflowIn (LeavesOnBranch first.now systems.now)) }
    ensures no_fewer { steps.old ≤ steps.new }
    ensures conversion { ConvertsSearch first.now systems.now steps.old steps.new result }
{
    match search(alloc, first, systems, steps) {
        Ok(found) => Ok(found),
        Err(ConvErr::Memory) => Err(ConvErr::Memory),
        Err(ConvErr::Overflow(_)) => by_branches(alloc, first, systems, steps),
    }
}
