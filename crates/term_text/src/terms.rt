//! Terms and relations, and why a text has no value.
ghost use Rattle.std.specs.Prelude.{◌≡◌};
ghost use Rattle.term_text.specs.declared.terms.ValueErr.TheVariants;

use row_core::Memory;
use std::alloc::{AllocError, AllocFailed};
use thiserror::Error;

/// A number, or a variable with its factor.
#[derive(Clone, Copy)]
pub struct Term {
    /// Whether it is subtracted.
    pub negative: bool,
    /// The number or the factor. 2^127 stands for all greater ones too.
    pub size: u128,
    /// The variable, counted from 0. 2^32 stands for all later ones too.
    pub variable: Option<u64>,
}

/// How the two sides of a constraint are related.
#[derive(Clone, Copy)]
pub enum Relation {
    /// `=`
    Equal,
    /// `>=`
    AtLeast,
    /// `<=`
    AtMost,
    /// `>`
    Above,
    /// `<`
    Below,
}

/// Why a text of the grammar has no value. The causes are tested in this order.
#[derive(Clone, Copy, Debug, PartialEq, Eq, Error)]
pub enum ValueErr {
    /// A variable isn't below the dimension.
    #[error("a variable is out of range")]
    OutOfRange,
    /// A number, or a sum of the first terms in a column, leaves the range.
    #[error("a number is too large")]
    TooLarge,
    /// The divisor is 0.
    #[error("the divisor is zero")]
    ZeroDivisor,
    /// Want of memory.
    #[error("out of memory")]
    Memory,
}

impl From<Memory> for ValueErr {
    ghost from_gives = { λ _ r. r ≡ TheVariants.Memory };

    fn from(_memory: Memory) -> ValueErr {
        ValueErr::Memory
    }
}

impl From<AllocError> for ValueErr {
    ghost from_gives = { λ _ r. r ≡ TheVariants.Memory };

    fn from(_error: AllocError) -> ValueErr {
        ValueErr::Memory
    }
}

impl<T: Drop> From<AllocFailed<T>> for ValueErr {
    ghost from_gives = { λ _ r. r ≡ TheVariants.Memory };

    fn from(_failed: AllocFailed<T>) -> ValueErr {
        ValueErr::Memory
    }
}
