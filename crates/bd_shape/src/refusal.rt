//! Why constraints give no shape.
ghost use Rattle.std.specs.Prelude.{◌≡◌};
ghost use Rattle.bd_shape.specs.Refusals.{as_shape_err};

use row_core::{ConvErr, Overflow};
use thiserror::Error;

/// Why constraints give no shape.
#[derive(Debug, Drop, Error)]
pub enum ShapeErr {
    /// A constraint has three or more variables, or two whose coefficients aren't each
    /// other's negative.
    #[error("a constraint doesn't bound the difference of two variables")]
    NotDifference,
    /// Two bounds whose sum or comparison leaves the range.
    #[error("a number left the range")]
    Overflow(Overflow),
    /// Want of memory.
    #[error("out of memory")]
    Memory,
}

impl From<ConvErr> for ShapeErr {
    ghost from_gives = { λ error e. e ≡ as_shape_err error };

    fn from(error: ConvErr) -> ShapeErr {
        match error {
            ConvErr::Overflow(over) => ShapeErr::Overflow(over),
            ConvErr::Memory => ShapeErr::Memory,
        }
    }
}
