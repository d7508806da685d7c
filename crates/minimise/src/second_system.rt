//! The second system of a list from its canonical system.
ghost use Rattle.std.specs.Prelude.{◌≡◌, ◌+◌, ◌*◌, ◌<◌, ◌≤◌, ◌++◌, length, All, IfOk, MatchResult};
ghost use Rattle.row_core.specs.Lists.{vectors};
ghost use Rattle.cone_laws.specs.Canon.{IsSystem};
ghost use Rattle.cone_laws.specs.Members.{ConeOf};
ghost use Rattle.row_core.specs.MarkedLists.{AreLists};
ghost use Rattle.sat_matrix.specs.ZeroTables.{IsZeroTable};
ghost use Rattle.minimise.specs.Faults.{IsLeftFault};
ghost use Rattle.minimise.specs.Parts.{rays_of, AreArranged, IsArranged};
ghost use Rattle.minimise.specs.Simplified.{IsSimplified, IsDone, IsSystemOfValid};

use crate::facets::full_places;
use crate::fault::Fault;
use crate::parts::{Parts, parts_of};
use crate::rays::{PlacedRows, Rays};
use crate::second_table::second_table;
use ray_order::{LendRows, descending_order, rays_at};
use row_core::{Memory, RowBuf, RowList, Steps};
use sat_matrix::SatMatrix;
use std::alloc::Global;
use std::sync::ledger::Ledger;

/// What a simplification gives.
#[derive(Drop)]
pub enum Simplified {
    /// The canonical system of the valid rows, the lines marked as equalities and the rays as
    /// inequalities. The table has a row for each of these rays and a column for each vector of the
    /// first system, its lines first, true exactly where the ray is 0 on the vector.
    Done {
        lines: RowList,
        rays: RowList,
        sat: SatMatrix,
    },
    /// The combination of the two rows that is 0 at the pivot of the left one leaves the range
    /// first at the column.
    Left {
        left: RowBuf,
        right: RowBuf,
        column: u32,
    },
}

/// The rays in descending order, and the table of the second system.
fn arranged_rays<R: LendRows>(
    alloc: Global,
    lines: usize,
    table: &SatMatrix,
    facets: &[usize],
    rays: &R,
) -> Result<(RowList, SatMatrix), Memory>
    requires as_many { length facets.now ≡ length (R.list rays.now).rows }
    requires within { All (λ p. p < length table.now.rows) facets.now }
    ensures { IfOk result
        (λ s. AreArranged lines table.now facets.now (R.list rays.now) s.0 s.1) }
{
    let order = descending_order(alloc, rays)?;
    let sorted = rays_at(alloc, rays, &order)?;
    let sat = second_table(alloc, lines, table, facets, &order)?;
    Ok((sorted, sat))
}

/// The rays of the parts of the rows in descending order, and the table of the second system.
fn sorted_rays(
    alloc: Global,
    rows: &RowList,
    lines: usize,
    table: &SatMatrix,
    parts: &Parts,
) -> Result<(RowList, SatMatrix), Memory>
    requires as_many { length parts.now.facets.items ≡ length (rays_of rows.now parts.now).rows }
    requires listed { All (λ p. p < length rows.now.rows) parts.now.facets.items }
    requires within { All (λ p. p < length table.now.rows) parts.now.facets.items }
    ensures { let unsorted = rays_of rows.now parts.now in IfOk result
        (λ s. AreArranged lines table.now parts.now.facets.items unsorted s.0 s.1) }
{
    let places: &[usize] = &parts.facets;
    match &parts.rays {
        Rays::Listed => { arranged_rays(alloc, lines, table, places, &PlacedRows { rows, places }) }
        Rays::Reduced(rays) => arranged_rays(alloc, lines, table, places, rays),
    }
}

/// The parts of the rows with the rays in descending order, and their table against as many lines
/// and the rays of the first system.
fn arranged(
    alloc: Global,
    rows: &RowList,
    lines: usize,
    table: &SatMatrix,
    parts: Parts,
) -> Result<Simplified, Memory>
    requires as_many { length parts.facets.items ≡ length (rays_of rows.now parts).rows }
    requires listed { All (λ p. p < length rows.now.rows) parts.facets.items }
    requires within { All (λ p. p < length table.now.rows) parts.facets.items }
    ensures { IfOk result (IsArranged lines rows.now table.now parts) }
{
    let (rays, sat) = sorted_rays(alloc, rows, lines, table, &parts)?;
    Ok(Simplified::Done {
        lines: parts.equalities,
        rays,
        sat,
    })
}

/// The canonical system of the valid rows with its table.
fn second_system<L: Ledger>(
    alloc: Global,
    rows: &RowList,
    lines: &RowList,
    rays: &RowList,
    sat: &SatMatrix,
    steps: &mut Steps<L>,
) -> Result<Simplified, Fault>
    requires system { IsSystem (ConeOf rows.now.width rows.now.rows) (vectors lines.now.rows)
        (vectors rays.now.rows) }
    requires lists { AreLists rows.now.width lines.now rays.now }
    requires sat { IsZeroTable rows.now.rows (length rows.now.rows)
        (vectors rays.now.rows) sat.now }
    ensures simplified { MatchResult result
        (IsDone rows.now.width (lines.now.rows ++ rays.now.rows))
        (IsLeftFault rows.now.width rows.now.rows) }
    ensures no_fewer { steps.old ≤ steps.new }
    ensures counted { steps.new ≤ steps.old + 2 * (length rows.now.rows * rows.now.width) }
{
    let table = sat.transpose()?;
    let (flat, others) = full_places(alloc, &table)?;
    let parts = parts_of(alloc, rows, &table, &flat, others, steps)?;
    Ok(arranged(alloc, rows, lines.len(), &table, parts)?)
}

/// The canonical system of all rows that are valid on the cone of `rows`, from the canonical system
/// of that cone with its table: the reduced echelon basis of the rows that are 0 on the whole cone,
/// and of the others one for each greatest set of rays on which a row is 0.
///
/// Each combination is counted, at most two for each row and column. [`Simplified::Left`] shows
/// one that leaves the range; the second system is then found by a conversion of `lines`
/// followed by `rays`.
pub fn simplify<L: Ledger>(
    alloc: Global,
    rows: &RowList,
    lines: &RowList,
    rays: &RowList,
    sat: &SatMatrix,
    steps: &mut Steps<L>,
) -> Result<Simplified, Memory>
    requires system { IsSystem (ConeOf rows.now.width rows.now.rows) (vectors lines.now.rows)
        (vectors rays.now.rows) }
    requires lists { AreLists rows.now.width lines.now rays.now }
    requires sat { IsZeroTable rows.now.rows (length rows.now.rows)
        (vectors rays.now.rows) sat.now }
    ensures simplified { IfOk result
        (IsSimplified rows.now.width rows.now.rows (lines.now.rows ++ rays.now.rows)) }
    ensures valid { let cone = ConeOf rows.now.width rows.now.rows in
        IfOk result (IsSystemOfValid rows.now.width cone) }
    ensures no_fewer { steps.old ≤ steps.new }
    ensures counted { steps.new ≤ steps.old + 2 * (length rows.now.rows * rows.now.width) }
{
    match second_system(alloc, rows, lines, rays, sat, steps) {
        Ok(done) => Ok(done),
        Err(Fault::Memory) => Err(Memory),
        Err(
            Fault::Left {
                left,
                right,
                column,
            },
        ) => Ok(Simplified::Left {
            left,
            right,
            column,
        }),
    }
}
