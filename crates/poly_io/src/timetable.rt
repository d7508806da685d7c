//! Calls that fail, named by their numbers.
ghost use Rattle.std.specs.Prelude.{◌≡◌, ◌≤◌, ◌↔◌, IsTrue, IfOk, if◌then◌else◌};
ghost use Rattle.poly_io.specs.Timetable.{FailsNext, at_start, after_failure, after_success};

use std::alloc::{AllocError, Global};
use std::marker::Model;

/// Which calls fail, and how many calls and failures there were.
#[derive(Drop)]
pub struct Timetable {
    fails: Vec<u64>,
    calls: u64,
    count: u64,
}

impl Model for Timetable {
    ghost use Rattle.poly_io.specs.Timetable.{Faults};

    ghost Value = { Faults };

    ghost view = { λ t. record { fails = t.fails.items; calls = t.calls; count = t.count } };
}

impl Timetable {
    /// The calls with these numbers, counted from 1, will fail.
    pub fn new(alloc: Global, fails: &[u64]) -> Result<Timetable, AllocError>
        ensures { IfOk result (λ t. t ≡ at_start fails.now) }
    {
        Ok(Timetable {
            fails: Vec::from_slice(alloc, fails)?,
            calls: 0,
            count: 0,
        })
    }

    /// Counts the next call, and says whether it fails.
    pub fn fails_now(&mut self) -> bool
        ensures exact { IsTrue result ↔ FailsNext self.old }
        ensures never_falls { self.old.count ≤ self.new.count }
        ensures counted { self.new
            ≡ (if result then after_failure self.old else after_success self.old) }
    {
        self.calls = self.calls.saturating_add(1);
        let fails = self.fails.contains(&self.calls);
        if fails {
            self.count = self.count.saturating_add(1);
        }
        fails
    }
}
