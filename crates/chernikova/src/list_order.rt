//! The conversion of a list in its own order.
ghost use Rattle.std.specs.Prelude.{◌≡◌, ◌+◌, ◌-◌, ◌<◌, ◌≤◌, length, IfOk, IfErr, MatchResult};
ghost use Rattle.row_core.specs.Lists.{is_eq_at};
ghost use Rattle.cone_laws.specs.SystemLaws.{HasSystemOf};
ghost use Rattle.chernikova.specs.Conversion.{IsState, IsAtStep, IsRealOverflow, ConvertsRows};
ghost use Rattle.chernikova.specs.Plans.{lists_of, HasValues, IsPosition, kept_of};
ghost use Rattle.chernikova.specs.Beside.{GoesOnFrom};

use crate::plan::Position;
use crate::scratch::Scratch;
use crate::step::plan_of_position;
use crate::system::System;
use crate::taking::{row_position, take_planned};
use row_core::{ConvErr, RowList, Steps};
use sat_matrix::least_shared;
use std::sync::ledger::Ledger;

/// How many looks at rays the conversion in the list's order is expected to take before the other
/// begins.
const LOOKS_BEFORE: u64 = 10_000;

/// How many such looks times rows that are left, where fewer than a quarter of the rows are: the
/// other has to take in all rows, and few are then spared.
const LOOKS_AT_THE_END: u64 = 1_000_000;

/// As how many looks at rays it counts that there is one more.
const LOOKS_OF_A_RAY: u64 = 24;

/// A conversion in the list's order: the system of the rows that were taken in, how many looks at
/// rays it is expected to have taken so far, and how many of the combinations that its bound
/// allows are left to another.
#[derive(Drop)]
pub(crate) struct ListOrder {
    pub(crate) system: System,
    pub(crate) scratch: Scratch,
    pub(crate) looks: u64,
    pub(crate) slack: u128,
}

/// Whether a second conversion is likely to pay beside one that takes so many looks and took in
/// so many of the rows.
fn pays(looks: u64, rows: usize, taken: usize) -> bool {
    let left = rows.saturating_sub(taken) as u64;
    let is_early = left >= rows as u64 / 4;
    looks >= LOOKS_BEFORE && (is_early || looks.saturating_mul(left) >= LOOKS_AT_THE_END)
}

impl ListOrder {
    /// How many looks it is expected to have taken once it has the pairs of a row that lies so.
    pub(crate) fn looks_upto(&self, position: Position, width: usize) -> u64
        requires { let zeros = self.now.system.sat.rows in
            HasValues (length zeros) (lists_of self.now.scratch) position }
    {
        let least = least_shared(width, self.system.lines.len());
        self.looks
            .saturating_add(position.looks(&self.scratch, &self.system.sat, least))
    }

    /// Takes row `k` in from how it lies to the system. So many of the lines and rays that stay
    /// count as slack already.
    pub(crate) fn take_placed<L: Ledger>(
        &mut self,
        position: Position,
        kept: u128,
        rows: &RowList,
        k: usize,
        steps: &mut Steps<L>,
    ) -> Result<(), ConvErr>
        requires row { k < length rows.now.rows }
        requires state { IsState rows.now.width rows.now.rows k self.old.system }
        requires position { let lists = lists_of self.old.scratch in
            IsPosition rows.now.rows k self.old.system lists position }
        requires kept { let lists = lists_of self.old.scratch in
            kept ≤ kept_of (is_eq_at rows.now.rows k) self.old.system lists position }
        ensures state { let list = rows.now in
            MatchResult result (λ _. IsState list.width list.rows (k + 1) self.new.system)
            (IsRealOverflow list.width list.rows) }
        ensures step { IfErr result (IsAtStep k) }
        ensures no_fewer { steps.old ≤ steps.new }
        ensures counted { let before = steps.old + self.old.slack in
            let gain = kept + steps.new + self.new.slack - before in
            HasSystemOf rows.now.width rows.now.rows (k + 1) gain }
    {
        let (scratch, system) = (&mut self.scratch, &mut self.system);
        let plan = plan_of_position(scratch, system, position, rows, k)?;
        let made = plan.combinations(scratch, system);
        let count = system.rays.len();
        take_planned(scratch, system, plan, rows, k, steps)?;
        let vectors = system.lines.len() as u128 + system.rays.len() as u128;
        let spared = vectors.saturating_sub(made);
        self.slack = self.slack.saturating_add(spared.saturating_sub(kept));
        let gained = system.rays.len().saturating_sub(count) as u64;
        let looks = gained.saturating_mul(LOOKS_OF_A_RAY);
        self.looks = self.looks.saturating_add(looks);
        Ok(())
    }

    /// Takes in rows until all are in, or until a second conversion is likely to pay before the
    /// next. Gives the number of those that were taken.
    pub(crate) fn run<L: Ledger>(
        &mut self,
        rows: &RowList,
        steps: &mut Steps<L>,
    ) -> Result<usize, ConvErr>
        requires state { IsState rows.now.width rows.now.rows 0 self.old.system }
        requires slack { self.old.slack ≡ 0 }
        ensures taken { let list = rows.now in
            IfOk result (λ taken.
            GoesOnFrom list.width list.rows taken steps.old steps.new self.new) }
        ensures conversion { ConvertsRows rows.now.width rows.now.rows steps.old steps.new result }
    {
        for k in 0..rows.len() {
            let position = row_position(&mut self.scratch, &self.system, rows, k)?;
            let looks = self.looks_upto(position, rows.width());
            if pays(looks, rows.len(), k) {
                return Ok(k);
            }
            self.looks = looks;
            self.take_placed(position, 0, rows, k, steps)?;
        }
        Ok(rows.len())
    }
}
