//! The answers by which a call refuses.
ghost use Rattle.std.specs.Prelude.{◌≡◌, ◌^◌, ◌<◌, length, IfOk};
ghost use Rattle.row_core.specs.Range.{AllInRange};
ghost use Rattle.row_core.specs.declared.errors.ConvErr.TheVariants;

use crate::buffers::RowBuf;
use std::alloc::{AllocError, AllocFailed, Global};
use thiserror::Error;

/// Out of memory.
#[derive(Clone, Copy, Debug, PartialEq, Eq, Error)]
#[error("out of memory")]
pub struct Memory;

impl From<AllocError> for Memory {
    ghost from_gives = { λ _ _. Unit {0} };

    fn from(_error: AllocError) -> Memory {
        Memory
    }
}

impl<T: Drop> From<AllocFailed<T>> for Memory {
    ghost from_gives = { λ _ _. Unit {0} };

    fn from(_failed: AllocFailed<T>) -> Memory {
        Memory
    }
}

/// What was computed where a number left the range.
#[derive(Clone, Copy, Debug, PartialEq, Eq)]
pub enum OverKind {
    /// The dot product of the two rows.
    Dot,
    /// A combination of the two rows.
    Combine,
    /// The first row times a divisor.
    Scale,
    /// The products by which two fractions are compared.
    Compare,
}

/// Two rows from which a number outside the range was computed.
#[derive(Clone, Debug, Drop, PartialEq, Eq, Error)]
#[error("a number left the range")]
pub struct Overflow {
    pub kind: OverKind,
    /// How many rows of the list were converted before.
    pub step: u64,
    pub left: RowBuf,
    pub right: RowBuf,
    /// The first column at which the range was left, counted from 0.
    pub column: u32,
}

impl Overflow {
    /// Returns the overflow that shows copies of two rows. No conversion came to it, so its step is
    /// 0.
    pub fn of_rows(
        alloc: Global,
        kind: OverKind,
        left: &[i128],
        right: &[i128],
        column: u32,
    ) -> Result<Overflow, Memory>
        requires left { AllInRange left.now × (length left.now < 2 ^ 32) }
        requires right { AllInRange right.now × (length right.now < 2 ^ 32) }
        ensures { IfOk result (λ over. over ≡ record
            { kind = kind; step = 0; left = left.now; right = right.now; column = column }) }
    {
        Ok(Overflow {
            kind,
            step: 0,
            left: RowBuf::new(alloc, left)?,
            right: RowBuf::new(alloc, right)?,
            column,
        })
    }
}

/// Two rows, by their numbers in lists that the call names, from which a number outside the range
/// was computed.
#[derive(Clone, Copy, Debug, PartialEq, Eq, Error)]
#[error("a number left the range")]
pub struct PairOver {
    pub kind: OverKind,
    pub left: usize,
    pub right: usize,
    /// The first column at which the range was left, counted from 0.
    pub column: u32,
    /// Whether the two lists are those of the question with its sides exchanged.
    pub turned: bool,
}

/// Why a conversion gives no answer.
#[derive(Clone, Debug, Drop, PartialEq, Eq, Error)]
pub enum ConvErr {
    #[error("a number left the range")]
    Overflow(Overflow),
    #[error("out of memory")]
    Memory,
}

impl From<Memory> for ConvErr {
    ghost from_gives = { λ _ e. e ≡ TheVariants.Memory };

    fn from(_error: Memory) -> ConvErr {
        ConvErr::Memory
    }
}

impl From<AllocError> for ConvErr {
    ghost from_gives = { λ _ e. e ≡ TheVariants.Memory };

    fn from(_error: AllocError) -> ConvErr {
        ConvErr::Memory
    }
}

impl<T: Drop> From<AllocFailed<T>> for ConvErr {
    ghost from_gives = { λ _ e. e ≡ TheVariants.Memory };

    fn from(_failed: AllocFailed<T>) -> ConvErr {
        ConvErr::Memory
    }
}

impl From<Overflow> for ConvErr {
    ghost from_gives = { λ over e. e ≡ TheVariants.Overflow over };

    fn from(over: Overflow) -> ConvErr {
        ConvErr::Overflow(over)
    }
}
