//! The conversion of a list in sorted order, beside that in the list's own.
ghost use Rattle.std.specs.Prelude.{◌≡◌, ℕ, ◌+◌, ◌<◌, ◌≤◌, List, length, true, false, IsTrue, IfOk};
ghost use Rattle.row_core.specs.Lists.{Row};
ghost use Rattle.chernikova.specs.Conversion.{IsState};
ghost use Rattle.chernikova.specs.Plans.{lists_of, kept_of};
ghost use Rattle.chernikova.specs.Beside.{IsBeside, IsPlanned, IsRunning, IsDone};

use crate::conversion::start;
use crate::plan::{Plan, Position};
use crate::scratch::Scratch;
use crate::system::System;
use crate::taking::{Search, plan_row_within, take_planned};
use ray_order::{is_as_listed, places_of, rows_at, sorted_order};
use row_core::{Memory, RowList, Steps};
use row_store::VectorList;
use sat_matrix::SatMatrix;
use std::alloc::Global;
use std::sync::ledger::Ledger;

/// For how many looks of the first conversion the other has one, unless it took in more rows.
const SHARE: u64 = 24;

/// How many it has for ten of them where it did.
const TENTHS_AHEAD: u64 = 7;

/// A conversion in sorted order: its rows, the place among them of each row of the list, and the
/// system of those that were taken in. It runs until an overflow ends it, if at all.
/// The search for the pairs of the rows so far was expected to look at `looked` rays, and that of
/// the next row at `awaited`. What the next row asks for is `plan`, once that is known, with
/// `needed` combinations.
#[derive(Drop)]
pub(crate) struct Beside {
    running: bool,
    pub(crate) rows: RowList,
    pub(crate) places: Vec<usize>,
    pub(crate) system: System,
    scratch: Scratch,
    taken: usize,
    looked: u64,
    awaited: u64,
    plan: Option<Plan>,
    needed: u128,
}

impl Beside {
    /// Returns a conversion that doesn't run.
    pub(crate) fn idle(alloc: Global) -> Beside
        ensures { result.running ≡ false }
    {
        let system = System {
            lines: VectorList::new(alloc, 0),
            rays: VectorList::new(alloc, 0),
            sat: SatMatrix::new(alloc, 0),
        };
        Beside {
            running: false,
            rows: RowList::new(alloc, 0),
            places: Vec::new(alloc),
            system,
            scratch: Scratch::new(alloc),
            taken: 0,
            looked: 0,
            awaited: 0,
            plan: None,
            needed: 0,
        }
    }

    /// The conversion of a list before its first row, which runs unless the list is sorted.
    pub(crate) fn of_list(alloc: Global, list: &RowList) -> Result<Beside, Memory>
        ensures { IfOk result (IsBeside list.now.width list.now.rows) }
    {
        let order = sorted_order(alloc, list)?;
        if is_as_listed(&order) {
            return Ok(Beside::idle(alloc));
        }
        let places = places_of(alloc, &order)?;
        let rows = rows_at(alloc, list, &order)?;
        let system = start(alloc, list.width(), &rows)?;
        Ok(Beside {
            running: true,
            rows,
            places,
            system,
            scratch: Scratch::new(alloc),
            taken: 0,
            looked: 0,
            awaited: 0,
            plan: None,
            needed: 0,
        })
    }

    // How many more looks it may take, beside a conversion that takes so many and took in so many
    // rows.
    fn looks_left(&self, looks: u64, taken: usize) -> u64 {
        let share = if self.taken > taken {
            looks / 10 * TENTHS_AHEAD
        } else {
            looks / SHARE
        };
        share.saturating_sub(self.looked)
    }

    // Whether it is to take in a row within so many looks.
    fn has_turn(&self, looks_left: u64, slack: u128) -> bool
        ensures { IsTrue result
            → (self.now.running ≡ true) × (self.now.taken < length self.now.rows.rows) }
    {
        self.running
            && self.taken < self.rows.len()
            && (self.plan.is_some() || self.awaited < looks_left)
            && self.needed <= slack
    }

    // Finds what the next row asks for, unless it is known, where the search looks at fewer rays
    // than so many. An overflow ends it, or that memory runs out.
    fn plan_next(&mut self, looks_left: u64)
        requires row { self.old.taken < length self.old.rows.rows }
        requires state { let rows = self.old.rows in
            IsState rows.width rows.rows self.old.taken self.old.system }
        requires planned { IsPlanned self.old }
        ensures row { self.new.taken < length self.new.rows.rows }
        ensures state { let rows = self.new.rows in
            IsState rows.width rows.rows self.new.taken self.new.system }
        ensures planned { IsPlanned self.new }
        ensures running { (width : ℕ) (rows : List Row)
            → IsRunning width rows self.old → IsRunning width rows self.new }
    {
        if self.plan.is_some() {
            return;
        }
        let scratch = &mut self.scratch;
        let (system, rows) = (&self.system, &self.rows);
        match plan_row_within(scratch, system, rows, self.taken, looks_left) {
            Ok(Search::Found { looks, plan }) => {
                self.looked = self.looked.saturating_add(looks);
                self.plan = Some(plan);
            }
            Ok(Search::Dear { looks }) => self.awaited = looks,
            Err(_) => self.running = false,
        }
    }

    // Takes in the next row, if it is known what it asks for and the slack allows its
    // combinations. An overflow ends it, or that memory runs out.
    fn take_in<L: Ledger>(&mut self, slack: &mut u128, steps: &mut Steps<L>)
        requires row { self.old.taken < length self.old.rows.rows }
        requires state { let rows = self.old.rows in
            IsState rows.width rows.rows self.old.taken self.old.system }
        requires planned { IsPlanned self.old }
        ensures beside { (width : ℕ) (rows : List Row)
            → IsRunning width rows self.old → IsBeside width rows self.new }
        ensures no_fewer { steps.old ≤ steps.new }
        ensures within { steps.new + slack.new ≤ steps.old + slack.old }
    {
        let Some(plan) = self.plan.take() else {
            return;
        };
        let combinations = plan.combinations(&self.scratch, &self.system);
        if combinations > *slack {
            self.needed = combinations;
            self.plan = Some(plan);
            return;
        }
        *slack -= combinations;
        let row = self.taken;
        prove!(row < self.rows.len());
        let scratch = &mut self.scratch;
        let system = &mut self.system;
        let Ok(()) = take_planned(scratch, system, plan, &self.rows, row, steps) else {
            self.running = false;
            return;
        };
        self.taken = row + 1;
        self.awaited = 0;
        self.needed = 0;
    }

    /// Takes in rows as long as it has turns beside the conversion in the list's order.
    pub(crate) fn catch_up<L: Ledger>(
        &mut self,
        list: &RowList,
        looks: u64,
        taken: usize,
        slack: &mut u128,
        steps: &mut Steps<L>,
    )
        requires { IsBeside list.now.width list.now.rows self.old }
        ensures beside { IsBeside list.now.width list.now.rows self.new }
        ensures no_fewer { steps.old ≤ steps.new }
        ensures within { steps.new + slack.new ≤ steps.old + slack.old }
    {
        for _turn in 0..list.len() {
            let looks_left = self.looks_left(looks, taken);
            if !self.has_turn(looks_left, *slack) {
                return;
            }
            self.plan_next(looks_left);
            self.take_in(slack, steps);
        }
    }

    /// Whether it has taken in all rows.
    pub(crate) fn is_done(&self, list: &RowList) -> bool
        requires { IsBeside list.now.width list.now.rows self.now }
        ensures { IsTrue result → IsDone list.now.width list.now.rows self.now }
    {
        if !self.running {
            return false;
        }
        self.taken == list.len()
    }
}
