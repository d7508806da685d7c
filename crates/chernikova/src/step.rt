//! One step: a row is taken in.
ghost use Rattle.std.specs.Prelude.{◌≡◌, ◌+◌, ◌<◌, ◌≤◌, length, IfOk, OnOk, OnErr, MatchResult};
ghost use Rattle.row_core.specs.Lists.{row_at, vectors};
ghost use Rattle.chernikova.specs.Faults.{IsPositionFault, IsCombineFault};
ghost use Rattle.chernikova.specs.Conversion.{IsState};
ghost use Rattle.chernikova.specs.Plans.{lists_of, IsPosition, IsPlan, combinations_of};
ghost use Rattle.sat_matrix.specs.TableSteps.{HasFalseColumn};
ghost use Rattle.chernikova.specs.Rooms.{HasSameVectors, HasRoom, IsReady};
ghost use Rattle.chernikova.specs.declared.plan.Plan.TheVariants as planned;

use crate::plan::{Plan, Position};
use crate::scratch::Scratch;
use crate::system::System;
use row_core::{Memory, RowList, Steps, bits};
use row_store::{
    CombineFault, Part, SystemOnRow, ValueFault, all_meet, last_crossing, line_step, make_empty,
    mark_pairs, marks, ray_step, values,
};
use sat_matrix::{after_line_step, after_ray_step, crossings, least_shared, mark_zeros};
use std::mem;
use std::sync::ledger::Ledger;

/// How row `k` lies to the system of the rows before it.
pub(crate) fn position(
    scratch: &mut Scratch,
    cone: &System,
    rows: &RowList,
    k: usize,
) -> Result<Position, ValueFault>
    requires row { k < length rows.now.rows }
    requires state { IsState rows.now.width rows.now.rows k cone.now }
    ensures { let lines = vectors cone.now.lines.rows in
        let rays = vectors cone.now.rays.rows in
        MatchResult result (IsPosition rows.now.rows k cone.now (lists_of scratch.new))
        (IsPositionFault (row_at rows.now.rows k) lines rays) }
{
    let row = rows.row(k);
    let bits = bits(row);
    values(
        &mut scratch.line_values,
        Part::Lines,
        &cone.lines,
        row,
        bits,
    )?;
    values(&mut scratch.ray_values, Part::Rays, &cone.rays, row, bits)?;
    if let Some(index) = last_crossing(scratch.line_values.as_slice()) {
        return Ok(Position::Crossing { index });
    }
    if all_meet(rows.is_eq(k), scratch.ray_values.as_slice()) {
        return Ok(Position::Met);
    }
    Ok(Position::Cutting)
}

/// What the step with row `k` is to do with the system of the rows before it, from how the row lies
/// to it.
pub(crate) fn plan_of_position(
    scratch: &mut Scratch,
    cone: &System,
    position: Position,
    rows: &RowList,
    k: usize,
) -> Result<Plan, Memory>
    requires row { k < length rows.now.rows }
    requires state { IsState rows.now.width rows.now.rows k cone.now }
    requires position { IsPosition rows.now.rows k cone.now (lists_of scratch.old) position }
    ensures { IfOk result (IsPlan rows.now.rows k cone.now (lists_of scratch.new)) }
{
    match position {
        Position::Crossing { index } => Ok(Plan::Line { index }),
        Position::Met => Ok(Plan::Same),
        Position::Cutting => {
            let values = scratch.ray_values.as_slice();
            marks(&mut scratch.marks, rows.is_eq(k), values)?;
            let least = least_shared(rows.width(), cone.lines.len());
            crossings(&mut scratch.pair_lists, values, &cone.sat, least)?;
            mark_pairs(&mut scratch.marks, scratch.pair_lists.pairs.as_slice())?;
            Ok(Plan::Ray)
        }
    }
}

/// Makes all room that the step takes, and appends to the table a column of false for the row. It
/// changes no line and no ray, and nothing that the plan tells of.
pub(crate) fn make_room(scratch: &mut Scratch, cone: &mut System, plan: Plan) -> Result<(), Memory>
    ensures same { HasSameVectors cone.old cone.new }
    ensures column { OnOk result (HasFalseColumn cone.old.sat cone.new.sat) }
    ensures lists { lists_of scratch.new ≡ lists_of scratch.old }
    ensures room { OnOk result (HasRoom plan scratch.new cone.new) }
{
    cone.sat.add_column()?;
    match plan {
        Plan::Line { .. } => {
            let width = cone.lines.width();
            let rays = cone.rays.len().checked_add(1).ok_or(Memory)?;
            make_empty(scratch.alloc, &mut scratch.lines, width, cone.lines.len())?;
            make_empty(scratch.alloc, &mut scratch.rays, width, rays)?;
            cone.sat.reserve(1)?;
            Ok(())
        }
        Plan::Same => Ok(()),
        Plan::Ray => {
            let pairs = scratch.pair_lists.pairs.len();
            cone.sat.reserve(pairs)?;
            cone.rays.reserve(pairs)
        }
    }
}

/// Does with the system what is planned for row `k`, for which there is room, unless a combination
/// of two vectors leaves the range: the lines and rays are then as before.
pub(crate) fn carry_out<L: Ledger>(
    scratch: &mut Scratch,
    cone: &mut System,
    plan: Plan,
    rows: &RowList,
    k: usize,
    steps: &mut Steps<L>,
) -> Result<(), CombineFault>
    requires row { k < length rows.now.rows }
    requires ready { IsReady rows.now.width rows.now.rows k plan scratch.old cone.old }
    ensures state { let lines = vectors cone.old.lines.rows in
        let rays = vectors cone.old.rays.rows in
        MatchResult result (λ _. IsState rows.now.width rows.now.rows (k + 1) cone.new)
        (IsCombineFault rows.now.rows k lines rays) }
    ensures same { OnErr result (HasSameVectors cone.old cone.new) }
    ensures no_fewer { steps.old ≤ steps.new }
    ensures counted { let lists = lists_of scratch.old in
        steps.new ≤ steps.old + combinations_of cone.old lists plan }
{
    match plan {
        Plan::Line { index } => step_with_line(scratch, cone, index, rows, k, steps),
        Plan::Same => {
            keep_vectors(scratch, cone, rows, k);
            Ok(())
        }
        Plan::Ray => step_with_pairs(scratch, cone, rows, k, steps),
    }
}

/// The step with a row that isn't 0 on some line.
fn step_with_line<L: Ledger>(
    scratch: &mut Scratch,
    cone: &mut System,
    index: usize,
    rows: &RowList,
    k: usize,
    steps: &mut Steps<L>,
) -> Result<(), CombineFault>
    requires row { k < length rows.now.rows }
    requires ready { let list = rows.now in
        IsReady list.width list.rows k (planned.Line index) scratch.old cone.old }
    ensures state { let lines = vectors cone.old.lines.rows in
        let rays = vectors cone.old.rays.rows in
        MatchResult result (λ _. IsState rows.now.width rows.now.rows (k + 1) cone.new)
        (IsCombineFault rows.now.rows k lines rays) }
    ensures same { OnErr result (HasSameVectors cone.old cone.new) }
    ensures no_fewer { steps.old ≤ steps.new }
    ensures counted { let lists = lists_of scratch.old in
        steps.new ≤ steps.old + combinations_of cone.old lists (planned.Line index) }
{
    let eq = rows.is_eq(k);
    let system = SystemOnRow {
        lines: &cone.lines,
        rays: &cone.rays,
        line_values: scratch.line_values.as_slice(),
        ray_values: scratch.ray_values.as_slice(),
    };
    let (lines, rays) = (&mut scratch.lines, &mut scratch.rays);
    line_step(lines, rays, system, index, eq, steps)?;
    after_line_step(&mut cone.sat, eq);
    mem::swap(&mut cone.lines, &mut scratch.lines);
    mem::swap(&mut cone.rays, &mut scratch.rays);
    Ok(())
}

/// The step with a row that each line and ray meets.
fn keep_vectors(scratch: &Scratch, cone: &mut System, rows: &RowList, k: usize)
    requires row { k < length rows.now.rows }
    requires ready { let list = rows.now in
        IsReady list.width list.rows k planned.Same scratch.now cone.old }
    ensures { IsState rows.now.width rows.now.rows (k + 1) cone.new }
{
    mark_zeros(&mut cone.sat, scratch.ray_values.as_slice());
}

/// The step with a row that is 0 on all lines, and that some ray doesn't meet.
fn step_with_pairs<L: Ledger>(
    scratch: &mut Scratch,
    cone: &mut System,
    rows: &RowList,
    k: usize,
    steps: &mut Steps<L>,
) -> Result<(), CombineFault>
    requires row { k < length rows.now.rows }
    requires ready { let list = rows.now in
        IsReady list.width list.rows k planned.Ray scratch.old cone.old }
    ensures state { let lines = vectors cone.old.lines.rows in
        let rays = vectors cone.old.rays.rows in
        MatchResult result (λ _. IsState rows.now.width rows.now.rows (k + 1) cone.new)
        (IsCombineFault rows.now.rows k lines rays) }
    ensures same { OnErr result (HasSameVectors cone.old cone.new) }
    ensures no_fewer { steps.old ≤ steps.new }
    ensures counted { let lists = lists_of scratch.old in
        steps.new ≤ steps.old + combinations_of cone.old lists planned.Ray }
{
    let values = scratch.ray_values.as_slice();
    let marks = scratch.marks.as_slice();
    let pairs = scratch.pair_lists.pairs.as_slice();
    ray_step(&mut cone.rays, values, marks, pairs, steps)?;
    after_ray_step(&mut cone.sat, values, marks, pairs);
    Ok(())
}
