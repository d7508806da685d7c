//! The search for a point that no system has.
ghost use Rattle.std.specs.Prelude.{◌≡◌, ℕ, ◌<◌, length, IfOk, MatchOption, All, Contains};
ghost use Rattle.cover_search.specs.Inequalities.{AreInequalities};
ghost use Rattle.cover_search.specs.Branches.{AreCovered, IsUncovered};
ghost use Rattle.cover_search.specs.Conversions.{ConvertsFreely};

use crate::parts::{Part, settle};
use crate::region::Region;
use crate::walls::Walls;
use cons_sys::ConsSys;
use row_core::{ConvErr, Memory, RowBuf, Steps};
use std::alloc::Global;
use std::sync::ledger::Ledger;

/// All numbers below a number.
fn numbers_below(alloc: Global, count: usize) -> Result<Vec<usize>, Memory>
    ensures below { IfOk result (λ numbers. All (λ i. i < count) numbers.items) }
    ensures all { IfOk result (λ numbers. (i : ℕ) → i < count → Contains numbers.items i) }
    ensures as_many { IfOk result (λ numbers. length numbers.items ≡ count) }
{
    let mut numbers = Vec::new(alloc);
    for number in 0..count {
        numbers.push(number)?;
    }
    Ok(numbers)
}

/// A point at which the first constraints hold and none of the systems does, if there is one. A
/// system that a part of the set doesn't meet is passed by. So no list need be that of a branch,
/// and an overflow says nothing.
pub(crate) fn search<L: Ledger>(
    alloc: Global,
    first: &ConsSys,
    systems: &[Walls],
    steps: &mut Steps<L>,
) -> Result<Option<RowBuf>, ConvErr>
    requires dims { All (λ rows. rows.dim ≡ first.now.dim) systems.now }
    requires inequalities { All AreInequalities systems.now }
    ensures found { IfOk result
        (λ found. MatchOption found (AreCovered first.now systems.now)
        (IsUncovered first.now systems.now)) }
    ensures conversion { ConvertsFreely first.now systems.now steps.old steps.new result }
{
    let region = Region::new(alloc, first, steps)?;
    let met = numbers_below(alloc, systems.len())?;
    let mut pending = Vec::new(alloc);
    pending.push(Part { region, met })?;
    while let Some(part) = pending.pop() {
        let found = settle(alloc, systems, part, &mut pending, steps)?;
        if found.is_some() {
            return Ok(found);
        }
    }
    Ok(None)
}
