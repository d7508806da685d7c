//! Why a line was not accepted.
ghost use Rattle.std.specs.Prelude.{◌≡◌, ◌<◌, length};
ghost use Rattle.line_values.specs.Refusals.{refusal_of_reading, refusal_of_text, refusal_of_conversion, refusal_of_generators};
ghost use Rattle.line_values.specs.Pairs.{IsRefusalOfPair};
ghost use Rattle.line_values.specs.declared.refusal.StepErr.TheVariants;

use cons_sys::ConsSys;
use gens_sys::GensSys;
use poly_pair::GenErr;
use reply_text::{Fault, ReadErr};
use row_core::{ConvErr, Memory, Overflow, PairOver};
use std::alloc::Global;
use term_text::ValueErr;
use thiserror::Error;

/// Why a line was not accepted.
#[derive(Debug, Drop, Error)]
pub enum StepErr {
    /// The line is refused.
    #[error("the line is refused")]
    Input(Fault),
    /// The arithmetic of the line left the range.
    #[error("a number left the range")]
    Overflow(Overflow),
    /// Want of memory.
    #[error("out of memory")]
    Memory,
}

impl From<Memory> for StepErr {
    ghost from_gives = { λ _ e. e ≡ TheVariants.Memory };

    fn from(_memory: Memory) -> StepErr {
        StepErr::Memory
    }
}

impl From<ReadErr> for StepErr {
    ghost from_gives = { λ cause e. e ≡ refusal_of_reading cause };

    fn from(cause: ReadErr) -> StepErr {
        match cause {
            ReadErr::Input(fault) => StepErr::Input(fault),
            ReadErr::Memory => StepErr::Memory,
        }
    }
}

impl From<ValueErr> for StepErr {
    ghost from_gives = { λ cause e. e ≡ refusal_of_text cause };

    fn from(cause: ValueErr) -> StepErr {
        match cause {
            ValueErr::OutOfRange => StepErr::Input(Fault::OutOfRange),
            ValueErr::TooLarge => StepErr::Input(Fault::NumberTooLarge),
            ValueErr::ZeroDivisor => StepErr::Input(Fault::ZeroDivisor),
            ValueErr::Memory => StepErr::Memory,
        }
    }
}

impl From<ConvErr> for StepErr {
    ghost from_gives = { λ cause e. e ≡ refusal_of_conversion cause };

    fn from(cause: ConvErr) -> StepErr {
        match cause {
            ConvErr::Overflow(over) => StepErr::Overflow(over),
            ConvErr::Memory => StepErr::Memory,
        }
    }
}

impl From<GenErr> for StepErr {
    ghost from_gives = { λ cause e. e ≡ refusal_of_generators cause };

    fn from(cause: GenErr) -> StepErr {
        match cause {
            GenErr::NoPoint => StepErr::Input(Fault::NoPoint),
            GenErr::Overflow(over) => StepErr::Overflow(over),
            GenErr::Memory => StepErr::Memory,
        }
    }
}

/// The refusal that shows the rows of a pair that leaves the range.
pub fn refusal_of_pair(alloc: Global, cons: &ConsSys, gens: &GensSys, pair: PairOver) -> StepErr
    requires left { pair.left < length cons.now.list }
    requires right { pair.right < length gens.now.list }
    ensures { IsRefusalOfPair cons.now gens.now pair result }
{
    let (left, right) = (cons.row(pair.left), gens.row(pair.right));
    match Overflow::of_rows(alloc, pair.kind, left, right, pair.column) {
        Ok(over) => StepErr::Overflow(over),
        Err(cause) => StepErr::from(cause),
    }
}
