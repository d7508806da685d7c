//! The generator of numbers, and the rows that it draws.
ghost use Rattle.std.specs.Prelude.{◌≡◌, ◌+◌, ◌*◌, ◌/◌, ◌%◌, ◌^◌, ◌<◌, length, IfOk, OnOk};
ghost use Rattle.row_core.specs.Range.{InRange, AllInRange};
ghost use Rattle.sample_rows.specs.Draws.{next, drawn, coefficient, constant, row_from};

use row_core::Memory;
use std::alloc::Global;

/// The number that the generator keeps.
#[derive(Debug, Drop)]
pub(crate) struct Draws {
    number: u64,
}

impl Draws {
    /// The generator before its first draw.
    pub(crate) fn new() -> Draws
        ensures { result.number ≡ 1 }
    {
        Draws { number: 1 }
    }

    /// One draw.
    fn draw(&mut self) -> u64
        requires { self.old.number < 2 ^ 31 }
        ensures number { self.new.number ≡ next self.old.number }
        ensures value { result ≡ drawn (next self.old.number) }
        ensures small { self.new.number < 2 ^ 31 }
        ensures below { result < 2 ^ 31 }
    {
        self.number = (1_103_515_245 * self.number + 12_345) % 2_147_483_648;
        self.number / 65_536
    }

    /// One row: four draws.
    pub(crate) fn row(&mut self, alloc: Global) -> Result<Vec<i128>, Memory>
        requires { self.old.number < 2 ^ 31 }
        ensures row { IfOk result (λ v. v.items ≡ row_from self.old.number) }
        ensures in_range { IfOk result (λ v. AllInRange v.items) }
        ensures wide { IfOk result (λ v. length v.items ≡ 4) }
        ensures number { OnOk result (self.new.number ≡ next (next (next (next self.old.number)))) }
        ensures small { OnOk result (self.new.number < 2 ^ 31) }
    {
        let mut row = Vec::new(alloc);
        row.push(coefficient(self.draw()))?;
        row.push(coefficient(self.draw()))?;
        row.push(coefficient(self.draw()))?;
        row.push(constant(self.draw()))?;
        Ok(row)
    }
}

/// The coefficient of a drawn number.
fn coefficient(drawn: u64) -> i128
    ensures value { result ≡ coefficient drawn }
    ensures in_range { InRange result }
{
    i128::from(drawn % 21) - 10
}

/// The constant of a drawn number.
fn constant(drawn: u64) -> i128
    ensures value { result ≡ constant drawn }
    ensures in_range { InRange result }
{
    i128::from(1 + drawn % 100)
}
