//! Lines and rays in minimal form, brought to reduced echelon form.
ghost use Rattle.std.specs.Prelude.{◌≡◌, ◌+◌, ◌*◌, ◌≤◌, None, Ok, length, All, IfOk, IfSome, MatchResult};
ghost use Rattle.std.specs.List.{range_with_len};
ghost use Rattle.row_core.specs.Content.{IsPrimitive};
ghost use Rattle.row_core.specs.Lists.{vectors};
ghost use Rattle.row_core.specs.MarkedLists.{AreLists};
ghost use Rattle.minimise.specs.Faults.{IsListFault};
ghost use Rattle.minimise.specs.MinimalForms.{AreFormed, LeavesInForm, IsFormFault};

use crate::bases::basis;
use crate::fault::Fault;
use crate::parts::reduced_list;
use row_core::{Memory, RowList, Steps};
use std::alloc::{AllocError, Global};
use std::sync::ledger::Ledger;

/// The reduced echelon basis of lines, and primitive rays reduced by it, in their order. There is
/// no answer where a combination leaves the range. Where there is no line all stays as it is.
pub fn reduced_parts<L: Ledger>(
    alloc: Global,
    lines: RowList,
    rays: RowList,
    steps: &mut Steps<L>,
) -> Result<Option<(RowList, RowList)>, Memory>
    requires lists { AreLists lines.width lines rays }
    requires primitive { All IsPrimitive (vectors rays.rows) }
    ensures formed { IfOk result (λ found. IfSome found
        (λ parts. AreFormed lines.width lines rays parts.0 parts.1)) }
    ensures left { result ≡ Ok None → LeavesInForm lines.rows rays.rows }
    ensures no_fewer { steps.old ≤ steps.new }
    ensures counted { steps.new ≤
        steps.old + 2 * ((length lines.rows + length rays.rows) * lines.width) }
    ensures uncounted { length lines.rows ≡ 0 → steps.new ≡ steps.old }
{
    if lines.is_empty() {
        return Ok(Some((lines, rays)));
    }
    match formed_parts(alloc, &lines, &rays, steps) {
        Ok(parts) => Ok(Some(parts)),
        Err(Fault::Memory) => Err(Memory),
        Err(Fault::Left { .. }) => Ok(None),
    }
}

/// The basis of the lines, and the rays reduced by it.
fn formed_parts<L: Ledger>(
    alloc: Global,
    lines: &RowList,
    rays: &RowList,
    steps: &mut Steps<L>,
) -> Result<(RowList, RowList), Fault>
    requires { AreLists lines.now.width lines.now rays.now }
    ensures formed { MatchResult result
        (λ parts. AreFormed lines.now.width lines.now rays.now parts.0 parts.1)
        (IsFormFault lines.now.rows rays.now.rows) }
    ensures no_fewer { steps.old ≤ steps.new }
    ensures counted { steps.new ≤ steps.old
        + 2 * ((length lines.now.rows + length rays.now.rows) * lines.now.width) }
{
    let _width = lines.width();
    let new_lines = basis(alloc, lines, &all_places(alloc, lines.len())?, steps)?;
    let _basis_width = new_lines.width();
    let places = all_places(alloc, rays.len())?;
    let new_rays = reduced_list(alloc, rays, &places, &new_lines, steps)?;
    Ok((new_lines, new_rays))
}

/// The places of so many rows.
fn all_places(alloc: Global, count: usize) -> Result<Vec<usize>, AllocError>
    ensures { IfOk result (λ places. places.items ≡ range_with_len 0 count) }
{
    let mut places = Vec::with_capacity(alloc, count)?;
    for place in 0..count {
        places.push(place)?;
    }
    Ok(places)
}
