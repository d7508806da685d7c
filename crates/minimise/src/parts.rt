//! The lines and rays of the second system, before the rays are sorted.
ghost use Rattle.std.specs.Prelude.{◌≡◌, ◌+◌, ◌*◌, ◌<◌, ◌≤◌, [], false, length, map, All, IsTrue, IfOk, MatchResult};
ghost use Rattle.row_core.specs.Content.{IsPrimitive};
ghost use Rattle.row_core.specs.Lists.{row_at, vectors, AreMarked};
ghost use Rattle.cone_laws.specs.Canon.{IsEchelon};
ghost use Rattle.minimise.specs.Bases.{AreReduced};
ghost use Rattle.minimise.specs.Faults.{IsRowFault, IsListFault};
ghost use Rattle.minimise.specs.Facets.{AreSplit};
ghost use Rattle.minimise.specs.Parts.{AreParts};
ghost use Rattle.minimise.specs.Rays.{rays_from};

use crate::bases::basis;
use crate::facets::facets_of;
use crate::fault::Fault;
use crate::rays::Rays;
use crate::reduction::{reduce, zeros};
use row_core::{RowList, Steps, is_primitive};
use sat_matrix::SatMatrix;
use std::alloc::Global;
use std::sync::ledger::Ledger;

/// The basis of the rows that are 0 on the whole cone, the places of the facets in the list of
/// rows, and a ray for each of the facets.
#[derive(Drop)]
pub(crate) struct Parts {
    pub(crate) equalities: RowList,
    pub(crate) facets: Vec<usize>,
    pub(crate) rays: Rays,
}

/// Whether the rows at the indices are primitive.
fn are_primitive(rows: &RowList, kept: &[usize]) -> bool
    requires { All (λ i. i < length rows.now.rows) kept.now }
    ensures { IsTrue result → All (λ i. IsPrimitive (row_at rows.now.rows i)) kept.now }
{
    for index in 0..kept.len() {
        if !is_primitive(rows.row(kept[index])) {
            return false;
        }
    }
    true
}

/// The rows at the indices, each reduced by the lines, of which there may be none. Where there is
/// none and the rows are primitive, they are taken as they stand.
fn reduced_rows<L: Ledger>(
    alloc: Global,
    rows: &RowList,
    kept: &[usize],
    lines: &RowList,
    steps: &mut Steps<L>,
) -> Result<Rays, Fault>
    requires width { lines.now.width ≡ rows.now.width }
    requires within { All (λ i. i < length rows.now.rows) kept.now }
    requires echelon { IsEchelon (vectors lines.now.rows) [] }
    ensures counted { (steps.old ≤ steps.new)
        × (steps.new ≤ steps.old + length kept.now * rows.now.width) }
    ensures reduced { let rays = rays_from rows.now kept.now in
        MatchResult result (λ new. AreReduced (vectors lines.now.rows) rows.now.rows kept.now
        (vectors (rays new).rows))
        (IsRowFault rows.now.rows (vectors lines.now.rows)) }
    ensures width { let rays = rays_from rows.now kept.now in
        IfOk result (λ new. (rays new).width ≡ rows.now.width) }
{
    if lines.is_empty() && are_primitive(rows, kept) {
        return Ok(Rays::Listed);
    }
    Ok(Rays::Reduced(reduced_list(alloc, rows, kept, lines, steps)?))
}

/// The rows at the indices, each reduced by the lines.
pub(crate) fn reduced_list<L: Ledger>(
    alloc: Global,
    rows: &RowList,
    kept: &[usize],
    lines: &RowList,
    steps: &mut Steps<L>,
) -> Result<RowList, Fault>
    requires width { lines.now.width ≡ rows.now.width }
    requires within { All (λ i. i < length rows.now.rows) kept.now }
    requires echelon { IsEchelon (vectors lines.now.rows) [] }
    ensures counted { (steps.old ≤ steps.new)
        × (steps.new ≤ steps.old + length kept.now * rows.now.width) }
    ensures reduced { MatchResult result
        (λ new. AreReduced (vectors lines.now.rows) rows.now.rows kept.now (vectors new.rows))
        (IsRowFault rows.now.rows (vectors lines.now.rows)) }
    ensures list { IfOk result
        (λ new. (new.width ≡ rows.now.width) × AreMarked false new.rows) }
{
    let width = lines.width();
    let mut new = RowList::with_room(alloc, width, kept.len())?;
    let mut reduced = zeros(alloc, width)?;
    let mut scratch = zeros(alloc, width)?;
    for index in 0..kept.len() {
        let row = rows.row(kept[index]);
        reduce(alloc, lines, row, &mut reduced, &mut scratch, steps)?;
        new.push(&reduced, false)?;
    }
    Ok(new)
}

/// The parts of the second system of the rows. The table has a row for each of them, true at the
/// rays on which it is 0. The flat rows and the others are named by their places.
pub(crate) fn parts_of<L: Ledger>(
    alloc: Global,
    rows: &RowList,
    table: &SatMatrix,
    flat: &[usize],
    others: Vec<usize>,
    steps: &mut Steps<L>,
) -> Result<Parts, Fault>
    requires as_many { length table.now.rows ≡ length rows.now.rows }
    requires split { AreSplit table.now.rows flat.now others.items }
    ensures counted { (steps.old ≤ steps.new)
        × (steps.new ≤ steps.old + 2 * (length rows.now.rows * rows.now.width)) }
    ensures parts { MatchResult result (AreParts rows.now table.now flat.now)
        (IsListFault rows.now.rows (map (row_at rows.now.rows) flat.now)) }
{
    let _width = rows.width();
    let equalities = basis(alloc, rows, flat, steps)?;
    let _basis_width = equalities.width();
    let facets = facets_of(alloc, table, others)?;
    let rays = reduced_rows(alloc, rows, &facets, &equalities, steps)?;
    Ok(Parts {
        equalities,
        facets,
        rays,
    })
}
