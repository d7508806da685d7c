//! What a row asks of a system, and its taking in.
ghost use Rattle.std.specs.Prelude.{◌+◌, ◌-◌, ◌<◌, ◌≤◌, length, IfOk, IfErr, MatchResult};
ghost use Rattle.row_core.specs.Lists.{is_eq_at};
ghost use Rattle.cone_laws.specs.SystemLaws.{HasSystemOf};
ghost use Rattle.chernikova.specs.Conversion.{IsState, IsAtStep, IsRealOverflow};
ghost use Rattle.chernikova.specs.Plans.{lists_of, IsPosition, IsPlan, kept_of, combinations_of};
ghost use Rattle.chernikova.specs.Beside.{IsSearchOfRow};

use crate::fault::{overflow_of_combination, overflow_of_dot};
use crate::plan::{Plan, Position};
use crate::scratch::Scratch;
use crate::step::{carry_out, make_room, plan_of_position, position};
use crate::system::System;
use row_core::{ConvErr, RowList, Steps};
use sat_matrix::least_shared;
use std::sync::ledger::Ledger;

/// What came of a search that was to look at fewer rays than so many.
#[derive(Drop)]
pub(crate) enum Search {
    /// What the row asks of the system; the search was expected to look at so many rays.
    Found { looks: u64, plan: Plan },
    /// It is expected to look at so many rays.
    Dear { looks: u64 },
}

/// How row `k` lies to the system of the rows before it.
pub(crate) fn row_position(
    scratch: &mut Scratch,
    cone: &System,
    rows: &RowList,
    k: usize,
) -> Result<Position, ConvErr>
    requires row { k < length rows.now.rows }
    requires state { IsState rows.now.width rows.now.rows k cone.now }
    ensures position { let list = rows.now in
        MatchResult result (IsPosition list.rows k cone.now (lists_of scratch.new))
        (IsRealOverflow list.width list.rows) }
    ensures step { IfErr result (IsAtStep k) }
{
    match position(scratch, cone, rows, k) {
        Ok(position) => Ok(position),
        Err(fault) => Err(ConvErr::Overflow(overflow_of_dot(scratch.alloc, cone, rows, k, fault)?)),
    }
}

/// What row `k` asks of the system of the rows before it.
pub(crate) fn plan_row(
    scratch: &mut Scratch,
    cone: &System,
    rows: &RowList,
    k: usize,
) -> Result<Plan, ConvErr>
    requires row { k < length rows.now.rows }
    requires state { IsState rows.now.width rows.now.rows k cone.now }
    ensures plan { let list = rows.now in
        MatchResult result (IsPlan list.rows k cone.now (lists_of scratch.new))
        (IsRealOverflow list.width list.rows) }
    ensures step { IfErr result (IsAtStep k) }
{
    let position = row_position(scratch, cone, rows, k)?;
    Ok(plan_of_position(scratch, cone, position, rows, k)?)
}

/// Takes row `k` into the system as planned. All memory is taken before a line or a ray is changed.
pub(crate) fn take_planned<L: Ledger>(
    scratch: &mut Scratch,
    cone: &mut System,
    plan: Plan,
    rows: &RowList,
    k: usize,
    steps: &mut Steps<L>,
) -> Result<(), ConvErr>
    requires row { k < length rows.now.rows }
    requires state { IsState rows.now.width rows.now.rows k cone.old }
    requires plan { IsPlan rows.now.rows k cone.old (lists_of scratch.old) plan }
    ensures state { let list = rows.now in
        MatchResult result (λ _. IsState list.width list.rows (k + 1) cone.new)
        (IsRealOverflow list.width list.rows) }
    ensures step { IfErr result (IsAtStep k) }
    ensures no_fewer { steps.old ≤ steps.new }
    ensures counted { let lists = lists_of scratch.old in
        steps.new ≤ steps.old + combinations_of cone.old lists plan }
{
    make_room(scratch, cone, plan)?;
    if let Err(fault) = carry_out(scratch, cone, plan, rows, k, steps) {
        let over = overflow_of_combination(scratch.alloc, cone, rows, k, fault)?;
        return Err(ConvErr::Overflow(over));
    }
    Ok(())
}

/// What row `k` asks of the system of the rows before it, where the search for its pairs is
/// expected to look at fewer rays than so many.
pub(crate) fn plan_row_within(
    scratch: &mut Scratch,
    cone: &System,
    rows: &RowList,
    k: usize,
    looks_below: u64,
) -> Result<Search, ConvErr>
    requires row { k < length rows.now.rows }
    requires state { IsState rows.now.width rows.now.rows k cone.now }
    ensures { IfOk result (IsSearchOfRow rows.now.rows k cone.now (lists_of scratch.new)) }
{
    let position = row_position(scratch, cone, rows, k)?;
    let least = least_shared(rows.width(), cone.lines.len());
    let looks = position.looks(scratch, &cone.sat, least);
    if looks >= looks_below {
        return Ok(Search::Dear { looks });
    }
    let plan = plan_of_position(scratch, cone, position, rows, k)?;
    Ok(Search::Found { looks, plan })
}
