//! The conversion.
ghost use Rattle.std.specs.Prelude.{◌≡◌, ◌+◌, ◌^◌, ◌-◌, ◌<◌, ◌≤◌, ◌++◌, length, true, IfOk, IfErr, MatchResult, OnOk};
ghost use Rattle.row_core.specs.Lists.{vectors, AreMarked};
ghost use Rattle.cone_laws.specs.Cones.{Upto};
ghost use Rattle.cone_laws.specs.Canon.{IsSystem};
ghost use Rattle.cone_laws.specs.Steps.{AreUnits};
ghost use Rattle.cone_laws.specs.SystemLaws.{HasSystemOf};
ghost use Rattle.sat_matrix.specs.ZeroTables.{IsZeroTable};
ghost use Rattle.row_core.specs.MarkedLists.{AreLists};
ghost use Rattle.chernikova.specs.Conversion.{IsState, IsAtStep, IsConverted, IsRealOverflow, TellsChange, ConvertsRows, ConvertsFrom};

use crate::cone::{Added, Cone};
use crate::lists::{rows_of_both, system_of_cone};
use crate::order::sorted_cone;
use crate::scratch::Scratch;
use crate::system::System;
use crate::taking::{plan_row, take_planned};
use row_core::{ConvErr, Memory, RowList, Steps};
use row_store::VectorList;
use sat_matrix::SatMatrix;
use std::alloc::Global;
use std::sync::ledger::Ledger;

/// The canonical system of the cone of the rows: all vectors on which each equality is 0 and each
/// inequality is at least 0. The rows are taken in their order, from all unit vectors as lines.
///
/// # Errors
///
/// An overflow shows a vector of the system of the rows before one of them, and that row or
/// another vector of the system, whose dot product or needed combination leaves the range. What
/// was counted up to it is bounded by the systems of the rows up to that row.
pub fn convert<L: Ledger>(
    alloc: Global,
    width: usize,
    rows: &RowList,
    steps: &mut Steps<L>,
) -> Result<Cone, ConvErr>
    requires width { rows.now.width ≡ width }
    requires narrow { width < 2 ^ 32 }
    ensures cone { IfOk result (IsConverted width rows.now.rows) }
    ensures conversion { ConvertsRows width rows.now.rows steps.old steps.new result }
{
    let mut cone = start(alloc, width, rows)?;
    take_rows(alloc, &mut cone, rows, 0, steps)?;
    Ok(sorted_cone(alloc, cone)?)
}

/// What [`convert`] gives on the rows that were taken, followed by more rows, from the canonical
/// system of those that were taken with its table.
///
/// # Errors
///
/// Those of [`convert`] on that list, at one of the further rows.
pub fn add_rows<L: Ledger>(
    alloc: Global,
    cone: &Cone,
    taken: &RowList,
    more: &RowList,
    steps: &mut Steps<L>,
) -> Result<Cone, ConvErr>
    requires width { more.now.width ≡ taken.now.width }
    requires cone { IsConverted taken.now.width taken.now.rows cone.now }
    ensures cone { let rows = taken.now.rows ++ more.now.rows in
        IfOk result (IsConverted taken.now.width rows) }
    ensures conversion { let rows = taken.now.rows ++ more.now.rows in
        let from = length taken.now.rows in
        ConvertsFrom taken.now.width rows from steps.old steps.new result }
{
    let rows = rows_of_both(taken, more)?;
    prove!(rows.width() < 0x1_0000_0000);
    let copy = cone.clone()?;
    let mut system = system_of_cone(copy);
    let from = taken.len();
    take_rows(alloc, &mut system, &rows, from, steps)?;
    Ok(sorted_cone(alloc, system)?)
}

/// What [`convert`] gives on a list, from the system of its first `from` rows with its table, and
/// whether the further rows changed it: they didn't where each line and ray of it meets them all.
/// The rays may stand in any order. The list isn't copied, and the system is used up.
///
/// # Errors
///
/// Those of [`convert`], at one of the further rows.
pub fn add_rows_from<L: Ledger>(
    alloc: Global,
    cone: Cone,
    rows: &RowList,
    from: usize,
    steps: &mut Steps<L>,
) -> Result<Added, ConvErr>
    requires from { from ≤ length rows.now.rows }
    requires system { let list = rows.now in
        IsSystem (Upto list.width list.rows from)
        (vectors cone.lines.rows) (vectors cone.rays.rows) }
    requires lists { AreLists rows.now.width cone.lines cone.rays }
    requires sat { IsZeroTable rows.now.rows from (vectors cone.rays.rows) cone.sat }
    ensures cone { let list = rows.now in
        IfOk result (λ added. IsConverted list.width list.rows added.cone) }
    ensures changed { let list = rows.now in
        let all = length list.rows in
        IfOk result (λ added. TellsChange list.width list.rows from all added.changed) }
    ensures conversion { let list = rows.now in
        ConvertsFrom list.width list.rows from steps.old steps.new result }
{
    prove!(rows.width() < 0x1_0000_0000);
    let mut system = system_of_cone(cone);
    let changed = take_rows(alloc, &mut system, rows, from, steps)?;
    let cone = sorted_cone(alloc, system)?;
    Ok(Added { cone, changed })
}

/// All unit vectors, as lines.
fn units(alloc: Global, width: usize) -> Result<VectorList, Memory>
    requires { width < 2 ^ 32 }
    ensures units { IfOk result (λ units. AreUnits width (vectors units.rows)) }
    ensures list { IfOk result (λ units. (units.width ≡ width) × AreMarked true units.rows) }
{
    let mut units = VectorList::with_room(alloc, width, width)?;
    let mut unit = vec![in alloc; 0i128; width]?;
    for column in 0..width {
        unit[column] = 1;
        units.push(&unit, true)?;
        unit[column] = 0;
    }
    Ok(units)
}

/// The system of no row.
pub(crate) fn start(alloc: Global, width: usize, rows: &RowList) -> Result<System, Memory>
    requires { width < 2 ^ 32 }
    ensures { IfOk result (IsState width rows.now.rows 0) }
{
    let lines = units(alloc, width)?;
    let rays = VectorList::new(alloc, width);
    let sat = SatMatrix::new(alloc, 0);
    Ok(System { lines, rays, sat })
}

/// Takes row `k` into the system, and tells whether it changed it.
fn take_row<L: Ledger>(
    scratch: &mut Scratch,
    cone: &mut System,
    rows: &RowList,
    k: usize,
    steps: &mut Steps<L>,
) -> Result<bool, ConvErr>
    requires row { k < length rows.now.rows }
    requires state { IsState rows.now.width rows.now.rows k cone.old }
    ensures state { let list = rows.now in
        MatchResult result (λ _. IsState list.width list.rows (k + 1) cone.new)
        (IsRealOverflow list.width list.rows) }
    ensures changed { IfOk result (TellsChange rows.now.width rows.now.rows k (k + 1)) }
    ensures step { IfErr result (IsAtStep k) }
    ensures no_fewer { steps.old ≤ steps.new }
    ensures counted { HasSystemOf rows.now.width rows.now.rows (k + 1) (steps.new - steps.old) }
{
    let plan = plan_row(scratch, cone, rows, k)?;
    let changed = plan.changes();
    take_planned(scratch, cone, plan, rows, k, steps)?;
    Ok(changed)
}

/// Takes all further rows into the system of the first `from` of them, and tells whether they
/// changed it.
fn take_rows<L: Ledger>(
    alloc: Global,
    cone: &mut System,
    rows: &RowList,
    from: usize,
    steps: &mut Steps<L>,
) -> Result<bool, ConvErr>
    requires from { from ≤ length rows.now.rows }
    requires state { IsState rows.now.width rows.now.rows from cone.old }
    ensures state { let list = rows.now in
        OnOk result (IsState list.width list.rows (length list.rows) cone.new) }
    ensures changed { let list = rows.now in
        IfOk result (TellsChange list.width list.rows from (length list.rows)) }
    ensures conversion { let list = rows.now in
        ConvertsFrom list.width list.rows from steps.old steps.new result }
{
    let mut scratch = Scratch::new(alloc);
    let mut changed = false;
    for k in from..rows.len() {
        let row_changes = take_row(&mut scratch, cone, rows, k, steps)?;
        changed |= row_changes;
    }
    Ok(changed)
}
