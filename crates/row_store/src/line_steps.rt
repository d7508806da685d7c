//! The step with a row that isn't 0 on some line: the vectors are lowered onto the row by that
//! line.
ghost use Rattle.std.specs.Prelude.{◌≡◌, ◌≢◌, ◌+◌, ◌<◌, ◌≤◌, true, false, []};
ghost use Rattle.std.specs.Prelude.{length, All, pos, MatchResult, OnOk};
ghost use Rattle.row_core.specs.Sizes.{HaveBits};
ghost use Rattle.row_core.specs.Range.{InRange, AllInRange};
ghost use Rattle.row_core.specs.Content.{IsPrimitive};
ghost use Rattle.row_core.specs.Lists.{vectors, AreMarked};
ghost use Rattle.row_core.specs.Pairs.{value_at};
ghost use Rattle.row_core.specs.MarkedLists.{AreLists};
ghost use Rattle.row_store.specs.Vectors.{as_rows, HasRoomForStep};
ghost use Rattle.row_store.specs.Changes.{AreLowered, AreOthersLowered, IsLineChange, with_upward};
ghost use Rattle.row_store.specs.Faults.{IsLineFault, IsLowerFault, IsOtherFault, is_lines};

use crate::fault::{CombineFault, Part, Place};
use crate::vectors::{Crossing, VectorList};
use row_core::Steps;
use std::sync::ledger::Ledger;

/// The lines and the rays of a system, each list with its values on a row.
#[derive(Clone, Copy)]
pub struct SystemOnRow<'a> {
    pub lines: &'a VectorList,
    pub rays: &'a VectorList,
    pub line_values: &'a [i128],
    pub ray_values: &'a [i128],
}

/// Appends to two empty lists with room the lines and rays after a row that isn't 0 on line
/// `index`, and on no later line.
pub fn line_step<L: Ledger>(
    new_lines: &mut VectorList,
    new_rays: &mut VectorList,
    system: SystemOnRow,
    index: usize,
    eq: bool,
    steps: &mut Steps<L>,
) -> Result<(), CombineFault>
    requires room { let lines = system.lines.now in
        HasRoomForStep lines system.rays.now new_lines.old new_rays.old }
    requires widths { system.lines.now.width ≡ system.rays.now.width }
    requires as_many { (length system.line_values.now ≡ length system.lines.now.rows) ×
        (length system.ray_values.now ≡ length system.rays.now.rows) }
    requires in_range { All InRange system.line_values.now × All InRange system.ray_values.now }
    requires crossing { (index < length system.lines.now.rows) ×
        (value_at system.line_values.now index ≢ pos 0) }
    requires primitive { All IsPrimitive (vectors system.lines.now.rows) ×
        All IsPrimitive (vectors system.rays.now.rows) }
    ensures counted { let lines = system.entry.lines.now.rows in
        let rays = system.entry.rays.now.rows in
        (steps.old ≤ steps.new) × (steps.new + 1 ≤ steps.old + (length lines + length rays)) }
    ensures change { let lines = system.entry.lines.now.rows in
        let rays = system.entry.rays.now.rows in
        let line_values = system.entry.line_values.now in
        let ray_values = system.entry.ray_values.now in
        let IsChange = IsLineChange index line_values ray_values eq lines rays in
        MatchResult result (λ _. IsChange new_lines.new.rows new_rays.new.rows)
        (IsLineFault index line_values ray_values (vectors lines) (vectors rays)) }
    ensures lists { let width = system.entry.lines.now.width in
        OnOk result (AreLists width (as_rows new_lines.new) (as_rows new_rays.new)) }
{
    let crossing = Crossing {
        index,
        line: system.lines.row(index),
        value: system.line_values[index],
        bits: system.lines.bits(),
    };
    lower_lines(new_lines, system.lines, system.line_values, crossing, steps)?;
    let lowering = Lowering {
        part: Part::Rays,
        list: system.rays,
        values: system.ray_values,
        crossing,
    };
    let count = system.rays.len();
    lower_range(new_rays, lowering, 0, count, steps)?;
    push_upward(new_rays, crossing.line, crossing.value, eq);
    Ok(())
}

/// Appends the other lines, lowered onto the row.
fn lower_lines<L: Ledger>(
    into: &mut VectorList,
    lines: &VectorList,
    values: &[i128],
    crossing: Crossing,
    steps: &mut Steps<L>,
) -> Result<(), CombineFault>
    requires spare { length lines.now.rows ≤ into.old.spare }
    requires empty { into.old.rows ≡ [] }
    requires line { length crossing.line.now ≡ into.old.width }
    requires bits { HaveBits crossing.bits crossing.line.now }
    requires wide { lines.now.width ≡ into.old.width }
    requires index { crossing.index < length lines.now.rows }
    requires as_many { length values.now ≡ length lines.now.rows }
    requires in_range { All InRange values.now × InRange crossing.value }
    requires nonzero { crossing.value ≢ pos 0 }
    requires primitive { All IsPrimitive (vectors lines.now.rows) }
    ensures no_fewer { steps.old ≤ steps.new }
    ensures counted { steps.new + 1 ≤ steps.old + length lines.now.rows }
    ensures lowered { let u = crossing.entry.value in
        let line = crossing.entry.line.now in
        let rows = lines.now.rows in
        let index = crossing.entry.index in
        MatchResult result (λ _. AreOthersLowered u index line values.now rows into.new.rows)
        (IsOtherFault u index line values.now (vectors rows)) }
    ensures width { OnOk result (into.new.width ≡ into.old.width) }
    ensures marked { OnOk result (AreMarked true into.new.rows) }
{
    let lowering = Lowering {
        part: Part::Lines,
        list: lines,
        values,
        crossing,
    };
    let index = crossing.index;
    lower_range(into, lowering, 0, index, steps)?;
    let count = lines.len();
    lower_range(into, lowering, index + 1, count, steps)
}

/// Appends the line with the sign with which the row is above 0 on it, if the row is an inequality.
fn push_upward(rays: &mut VectorList, line: &[i128], value: i128, eq: bool)
    requires spare { 0 < rays.old.spare }
    requires wide { length line.now ≡ rays.old.width }
    requires in_range { AllInRange line.now × InRange value }
    requires nonzero { value ≢ pos 0 }
    requires marked { AreMarked false rays.old.rows }
    ensures width { rays.new.width ≡ rays.old.width }
    ensures rows { rays.new.rows ≡ with_upward eq value line.now rays.old.rows }
{
    if !eq {
        rays.push_upward(line, value);
    }
}

/// Vectors of a list of a system with their values on a row, and the line that lowers them onto it.
#[derive(Clone, Copy)]
struct Lowering<'a> {
    part: Part,
    list: &'a VectorList,
    values: &'a [i128],
    crossing: Crossing<'a>,
}

/// Appends the vectors from one index up to another, lowered by the line onto the row, for which
/// there is room.
fn lower_range<L: Ledger>(
    into: &mut VectorList,
    lowering: Lowering,
    from: usize,
    to: usize,
    steps: &mut Steps<L>,
) -> Result<(), CombineFault>
    requires spare { to ≤ into.old.spare + from }
    requires line { length lowering.crossing.line.now ≡ into.old.width }
    requires bits { HaveBits lowering.crossing.bits lowering.crossing.line.now }
    requires wide { lowering.list.now.width ≡ into.old.width }
    requires bounds { (from ≤ to) × (to ≤ length lowering.list.now.rows) }
    requires as_many { length lowering.values.now ≡ length lowering.list.now.rows }
    requires in_range { All InRange lowering.values.now × InRange lowering.crossing.value }
    requires nonzero { lowering.crossing.value ≢ pos 0 }
    requires primitive { All IsPrimitive (vectors lowering.list.now.rows) }
    requires marked { AreMarked (is_lines lowering.part) into.old.rows }
    ensures counted { (steps.old ≤ steps.new) × (steps.new + from ≤ steps.old + to) }
    ensures width { into.new.width ≡ into.old.width }
    ensures spare { OnOk result (into.new.spare + to ≡ into.old.spare + from) }
    ensures lowered { let u = lowering.entry.crossing.value in
        let line = lowering.entry.crossing.line.now in
        let index = lowering.entry.crossing.index in
        let values = lowering.entry.values.now in
        let rows = lowering.entry.list.now.rows in
        let part = lowering.entry.part in
        let old = into.old.rows in
        MatchResult result (λ _. AreLowered u line values rows from to old into.new.rows)
        (IsLowerFault u index line part from to values (vectors rows)) }
    ensures marked { OnOk result (AreMarked (is_lines lowering.entry.part) into.new.rows) }
{
    let (part, crossing) = (lowering.part, lowering.crossing);
    let bits = crossing.bits.max(lowering.list.bits());
    let crossing = Crossing { bits, ..crossing };
    for index in from..to {
        let (vector, eq) = (lowering.list.row(index), part.is_equality());
        let value = lowering.values[index];
        let lowered = into.push_lowered(crossing, vector, value, eq, steps);
        if let Err(column) = lowered {
            let left = Place {
                part: Part::Lines,
                index: crossing.index,
            };
            let right = Place { part, index };
            return Err(CombineFault {
                left,
                right,
                column,
            });
        }
    }
    Ok(())
}
