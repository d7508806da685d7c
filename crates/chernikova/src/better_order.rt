//! The conversion in the better of two orders.
//!
//! A bad order of the rows makes many vectors halfway, and no order is good for every list. So
//! two conversions race: one takes the rows as they are listed, and beside it one takes them in
//! sorted order (the first row, then the equalities, and then by the columns from the last, which
//! is the constant), unless the list is sorted. The one that has taken in all rows first gives
//! the answer.
//!
//! - *When the second begins.* What the search for pairs will cost at a row is estimated from the
//!   rays' values before a pair is tested: one look for each pair of a ray above the row and one
//!   below it, and part of all rays for each of those pairs that may need the search for a third
//!   ray. The list's order runs alone until 10,000 looks are estimated in it, including those of
//!   the row that is next. From then on the second has turns before each row: for one
//!   twenty-fourth as many looks, or seven tenths while it is ahead in rows, its own next row
//!   included. Near the end of the list it begins only if the looks so far, times the rows that
//!   are left, are many. So a row that costs many times what all rows before it did waits until
//!   the other order has had its part.
//! - *How the bound on combinations holds for both.* The bound of the list's order has slack: the
//!   vectors of its systems less the combinations that were counted. No later row of that order
//!   takes from it. At the next row, what remains is slack before a pair is sought: if the row is
//!   0 on all lines, these and the rays that meet it are in the next system whatever pairs cross.
//!   The second conversion makes a row's combinations only if all of them fit the slack, so the
//!   bound holds for both together; the pairs that it found wait until they do.
//! - *Overflows.* An overflow of the second conversion ends it and is never shown. If the list's
//!   order overflows first, the second goes on as far as the slack allows, and may still answer.
ghost use Rattle.std.specs.Prelude.{◌≡◌, ℕ, ◌+◌, ◌-◌, ◌^◌, ◌<◌, ◌≤◌, false, length, map, All, IfOk, IfErr, MatchBool};
ghost use Rattle.row_core.specs.Lists.{vectors, AreMarked};
ghost use Rattle.cone_laws.specs.SystemLaws.{HasSystemOf};
ghost use Rattle.chernikova.specs.Conversion.{IsState, IsAtStep, IsRealOverflow, IsConverted, ConvertsRows};
ghost use Rattle.chernikova.specs.Orders.{bits_at, IsPlaced};
ghost use Rattle.chernikova.specs.Beside.{GoesOnFrom, IsBeside, IsDone};

use crate::beside::Beside;
use crate::cone::Cone;
use crate::conversion::start;
use crate::list_order::ListOrder;
use crate::order::{sorted_cone, table_rows_at};
use crate::scratch::Scratch;
use crate::taking::row_position;
use row_core::{ConvErr, Memory, RowList, Steps};
use sat_matrix::SatMatrix;
use std::alloc::Global;
use std::sync::ledger::Ledger;

/// What [`convert`] gives, by the better of two orders: the rows are taken in as they are listed
/// and, once the search for pairs of rays looks at many, beside that in sorted order, until one
/// conversion has all rows. Before a row whose search is dear the second has turns in proportion
/// to it. What the second counts is bounded by what the first leaves of the systems of its rows.
///
/// [`convert`]: crate::convert
///
/// # Errors
///
/// Those of [`convert`].
pub fn convert_in_better_order<L: Ledger>(
    alloc: Global,
    width: usize,
    rows: &RowList,
    steps: &mut Steps<L>,
) -> Result<Cone, ConvErr>
    requires width { rows.now.width ≡ width }
    requires narrow { width < 2 ^ 32 }
    ensures cone { IfOk result (IsConverted width rows.now.rows) }
    ensures conversion { ConvertsRows width rows.now.rows steps.old steps.new result }
{
    let system = start(alloc, width, rows)?;
    let mut first = ListOrder {
        system,
        scratch: Scratch::new(alloc),
        looks: 0,
        slack: 0,
    };
    let taken = first.run(rows, steps)?;
    if taken < rows.len() {
        return race_from(first, taken, rows, steps);
    }
    drop(first.scratch);
    Ok(sorted_cone(alloc, first.system)?)
}

/// Goes on with two conversions from where that in the list's order took in so many rows. Not
/// inlined, since it has room for a second conversion, which few lists need.
#[inline(never)]
fn race_from<L: Ledger>(
    first: ListOrder,
    taken: usize,
    rows: &RowList,
    steps: &mut Steps<L>,
) -> Result<Cone, ConvErr>
    requires taken { taken ≤ length rows.now.rows }
    requires state { IsState rows.now.width rows.now.rows taken first.system }
    ensures cone { IfOk result (IsConverted rows.now.width rows.now.rows) }
    ensures conversion { let list = rows.now in
        (before : ℕ) → GoesOnFrom list.width list.rows taken before steps.old first
        → ConvertsRows list.width list.rows before steps.new result }
{
    let alloc = first.scratch.alloc;
    let beside = match Beside::of_list(alloc, rows) {
        Ok(beside) => beside,
        Err(_) => Beside::idle(alloc),
    };
    let mut race = Race { first, beside };
    let other = race.run(taken, rows, steps)?;
    // What the answer doesn't need is given back before its rows are copied in order.
    let (first, beside) = (race.first, race.beside);
    let (system, scratch) = (first.system, first.scratch);
    drop(scratch);
    if other {
        drop(system);
        return Ok(cone_of_other_order(alloc, beside)?);
    }
    drop(beside);
    Ok(sorted_cone(alloc, system)?)
}

/// A race of two conversions of a list: the one in the list's order, and the other beside it.
#[derive(Drop)]
struct Race {
    first: ListOrder,
    beside: Beside,
}

impl Race {
    // Takes row `k` into the system unless the other conversion, which has its turns before the
    // pairs of the row are sought, then has all rows, and tells whether it has.
    fn take_row<L: Ledger>(
        &mut self,
        rows: &RowList,
        k: usize,
        steps: &mut Steps<L>,
    ) -> Result<bool, ConvErr>
        requires row { k < length rows.now.rows }
        requires state { IsState rows.now.width rows.now.rows k self.old.first.system }
        requires beside { IsBeside rows.now.width rows.now.rows self.old.beside }
        ensures beside { IsBeside rows.now.width rows.now.rows self.new.beside }
        ensures done { let list = rows.now in
            IfOk result (λ other. MatchBool other (IsDone list.width list.rows self.new.beside)
            (IsState list.width list.rows (k + 1) self.new.first.system)) }
        ensures overflow { IfErr result (IsRealOverflow rows.now.width rows.now.rows) }
        ensures step { IfErr result (IsAtStep k) }
        ensures no_fewer { steps.old ≤ steps.new }
        ensures counted { let before = steps.old + self.old.first.slack in
            let gain = steps.new + self.new.first.slack - before in
            HasSystemOf rows.now.width rows.now.rows (k + 1) gain }
    {
        let first = &mut self.first;
        let position = row_position(&mut first.scratch, &first.system, rows, k)?;
        first.looks = first.looks_upto(position, rows.width());
        let kept = position.kept(&first.scratch, rows.is_eq(k), &first.system);
        first.slack = first.slack.saturating_add(kept);
        self.beside
            .catch_up(rows, first.looks, k, &mut first.slack, steps);
        if self.beside.is_done(rows) {
            return Ok(true);
        }
        first.take_placed(position, kept, rows, k, steps)?;
        Ok(false)
    }

    // Takes in the rows from an index on in both orders until one of the conversions has all, and
    // tells whether the other has.
    fn run<L: Ledger>(
        &mut self,
        from: usize,
        rows: &RowList,
        steps: &mut Steps<L>,
    ) -> Result<bool, ConvErr>
        requires from { from ≤ length rows.now.rows }
        requires state { IsState rows.now.width rows.now.rows from self.old.first.system }
        requires beside { IsBeside rows.now.width rows.now.rows self.old.beside }
        ensures done { let list = rows.now in
            IfOk result (λ other. MatchBool other (IsDone list.width list.rows self.new.beside)
            (IsState list.width list.rows (length list.rows) self.new.first.system)) }
        ensures conversion { let list = rows.now in
            (before : ℕ) → GoesOnFrom list.width list.rows from before steps.old self.old.first
            → ConvertsRows list.width list.rows before steps.new result }
    {
        for k in from..rows.len() {
            match self.take_row(rows, k, steps) {
                Ok(false) => {}
                Ok(true) => return Ok(true),
                Err(error) => {
                    // The rows that are left, as far as the slack allows.
                    let slack = &mut self.first.slack;
                    self.beside.catch_up(rows, u64::MAX, 0, slack, steps);
                    if self.beside.is_done(rows) {
                        return Ok(true);
                    }
                    return Err(error);
                }
            }
        }
        Ok(false)
    }
}

/// The table with its columns in the order of the places.
fn in_list_order(alloc: Global, sat: &SatMatrix, places: &[usize]) -> Result<SatMatrix, Memory>
    requires { All (λ i. i < sat.now.columns) places.now }
    ensures columns { IfOk result (λ new. new.columns ≡ length places.now) }
    ensures rows { IfOk result (λ new. new.rows ≡ map (bits_at places.now) sat.now.rows) }
{
    let turned = sat.transpose()?;
    let placed = table_rows_at(alloc, &turned, places)?;
    placed.transpose()
}

/// What a conversion in another order gives, with the columns of its table in the list's order.
fn cone_of_other_order(alloc: Global, beside: Beside) -> Result<Cone, Memory>
    requires as_many { length beside.system.sat.rows ≡ length beside.system.rays.rows }
    requires rays { AreMarked false beside.system.rays.rows }
    requires places { All (λ i. i < beside.system.sat.columns) beside.places.items }
    ensures { IfOk result (IsPlaced beside.system beside.places.items) }
{
    let Beside { system, places, .. } = beside;
    let Cone { lines, rays, sat } = sorted_cone(alloc, system)?;
    let listed = in_list_order(alloc, &sat, &places)?;
    Ok(Cone {
        lines,
        rays,
        sat: listed,
    })
}
