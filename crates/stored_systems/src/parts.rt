//! The equalities or lines of a list and its other rows, and the row of the divisor put back.
ghost use Rattle.std.specs.Prelude.{◌≡◌, ◌+◌, ◌-◌, ◌^◌, ◌<◌, [], ◌∷◌, ◌++◌, false, true, map, filter, length, replicate, IfOk, OnOk};
ghost use Rattle.row_core.specs.Range.{AllInRange};
ghost use Rattle.stored_systems.specs.Marks.{has_mark};
ghost use Rattle.stored_systems.specs.Trimmed.{IsTrimmed};
ghost use Rattle.stored_systems.specs.WorkLists.{constraint_row, constraint_list, generator_list};

use crate::lists::{divisor_row, is_equality_kind, is_line_kind};
use cons_sys::ConsSys;
use gens_sys::GensSys;
use row_core::{Memory, RowList};
use sat_matrix::SatMatrix;
use std::alloc::{AllocError, Global};

/// The lines of a generator list, or its other rows.
pub fn generator_rows(alloc: Global, gens: &GensSys, lines: bool) -> Result<RowList, Memory>
    ensures width { IfOk result (λ part. part.width ≡ gens.now.dim + 1) }
    ensures rows { IfOk result
        (λ part. part.rows ≡ filter (has_mark lines) (generator_list gens.now)) }
{
    let room = if lines { 0 } else { gens.len() };
    let mut part = RowList::with_room(alloc, gens.dim() + 1, room)?;
    for index in 0..gens.len() {
        push_marked(
            &mut part,
            gens.row(index),
            is_line_kind(gens.kind(index)),
            lines,
        )?;
    }
    Ok(part)
}

/// The equalities of a constraint list, or its other rows but the first.
pub fn constraint_rows(alloc: Global, cons: &ConsSys, equalities: bool) -> Result<RowList, Memory>
    ensures width { IfOk result (λ part. part.width ≡ cons.now.dim + 1) }
    ensures rows { IfOk result
        (λ part. part.rows ≡ filter (has_mark equalities) (map constraint_row cons.now.list)) }
{
    let room = if equalities { 0 } else { cons.len() };
    let mut part = RowList::with_room(alloc, cons.dim() + 1, room)?;
    for index in 0..cons.len() {
        push_marked(
            &mut part,
            cons.row(index),
            is_equality_kind(cons.kind(index)),
            equalities,
        )?;
    }
    Ok(part)
}

/// Which generators aren't lines.
pub fn ray_marks(alloc: Global, gens: &GensSys) -> Result<Vec<bool>, AllocError>
    ensures { IfOk result (λ marks. marks.items ≡ map (has_mark false) (generator_list gens.now)) }
{
    let mut marks = Vec::with_capacity(alloc, gens.len())?;
    for index in 0..gens.len() {
        marks.push(!is_line_kind(gens.kind(index)))?;
    }
    Ok(marks)
}

/// Which rows of a constraint list are inequalities.
pub fn inequality_marks(alloc: Global, cons: &ConsSys) -> Result<Vec<bool>, AllocError>
    ensures { IfOk result (λ marks. marks.items ≡ map (has_mark false) (constraint_list cons.now)) }
{
    let mut marks = Vec::with_capacity(alloc, cons.len().saturating_add(1))?;
    marks.push(true)?;
    for index in 0..cons.len() {
        marks.push(!is_equality_kind(cons.kind(index)))?;
    }
    Ok(marks)
}

/// The rays with the row `(0, .., 0, 1)` in front, whose zeros the first row of the table tells, or
/// without both where another row is 0 wherever that is. The table is changed in place.
pub fn trimmed_rays(
    alloc: Global,
    dim: usize,
    rays: RowList,
    sat: &mut SatMatrix,
) -> Result<RowList, Memory>
    requires narrow { dim < 2 ^ 32 - 2 }
    requires width { rays.width ≡ dim + 1 }
    requires first { 0 < length sat.old.rows }
    ensures { IfOk result (λ new. IsTrimmed dim rays sat.old new sat.new) }
{
    let mut rays = rays;
    if !sat.third_between(0, 0) {
        rays.insert(0, &divisor_row(alloc, dim)?, false)?;
        return Ok(rays);
    }
    sat.keep_rows(&all_but_first(alloc, sat.len())?);
    Ok(rays)
}

/// Appends a row where it is marked as wanted.
fn push_marked(part: &mut RowList, row: &[i128], eq: bool, wanted: bool) -> Result<(), Memory>
    requires width { length row.now ≡ part.old.width }
    requires in_range { AllInRange row.now }
    ensures width { part.new.width ≡ part.old.width }
    ensures rows { OnOk result
        (part.new.rows ≡ part.old.rows ++ filter (has_mark wanted) ((row.now, eq) ∷ [])) }
{
    if eq != wanted {
        return Ok(());
    }
    part.push(row, wanted)
}

/// A mark for each of so many rows, of which the first isn't kept.
fn all_but_first(alloc: Global, count: usize) -> Result<Vec<bool>, AllocError>
    requires { 0 < count }
    ensures { IfOk result (λ marks. marks.items ≡ false ∷ replicate (count - 1) true) }
{
    let mut marks = Vec::with_capacity(alloc, count)?;
    marks.push(false)?;
    for _row in 1..count {
        marks.push(true)?;
    }
    Ok(marks)
}
