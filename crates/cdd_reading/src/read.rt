//! The readers of files.
ghost use Rattle.std.specs.Prelude.{MatchResult};
ghost use Rattle.cdd_reading.specs.Files.{IsIneFile, IsExtFile};
ghost use Rattle.cdd_reading.specs.Refusals.{tests, NoneOf, IsRefusal};
ghost use Rattle.cdd_reading.specs.declared.format.Format.TheVariants.{Ine, Ext};

use crate::format::Format;
use crate::store::{store_constraints, store_generators};
use crate::table::read_table;
use cons_sys::ConsSys;
use gens_sys::GensSys;
use reply_text::ReadErr;
use std::alloc::Global;

/// The constraints of a file, over d - 1 variables: `b a1 .. an` is `a1*x1 + .. + an*xn + b >= 0`,
/// or an equality where the linearity line names it. A row of fractions stands for its multiple by
/// the least common multiple of their denominators. Each row is made primitive.
///
/// # Errors
/// The first of these that holds: `Truncated` where no line ends the file; `LineTooLong` where a
/// line before that one is over the limit; `CddSyntax` with the line of the first token that can't
/// stand where it is, before and up to the number type; `NumberType` where that is `real`;
/// `CddSyntax` likewise for the numbers; `WrongKind` where the file names the other kind;
/// `TooManyDims` where d - 1 is above 63; `ZeroDivisor` where the digits behind a `/` are all 0;
/// `NumberTooLarge` where an integer, the digits behind a `/`, the least common multiple of a row
/// or a number times it is out of the range; `LinearityIndex` where an index is 0 or above the
/// number of rows.
pub fn read_ine(alloc: Global, bytes: &[u8]) -> Result<ConsSys, ReadErr>
    ensures { MatchResult result (λ cs. IsIneFile bytes.now cs × NoneOf (tests Ine bytes.now))
        (IsRefusal (tests Ine bytes.now)) }
{
    let table = read_table(alloc, bytes, Format::Ine)?;
    Ok(store_constraints(alloc, &table)?)
}

/// The generators of a file, over d - 1 variables: the row `t x1 .. xn` is a point with divisor t,
/// or where t is 0 a ray, and a line where the linearity line names it. Each vector is made
/// primitive. The origin is added at the end where there are rows and none is a point.
///
/// # Errors
/// Those of [`read_ine`], and behind them the first fault of the first row that has one:
/// `NegativeFirst` where t is negative; `LinearityOnVertex` where t is positive and the linearity
/// line names the row; `ZeroVector` where all its numbers are 0.
pub fn read_ext(alloc: Global, bytes: &[u8]) -> Result<GensSys, ReadErr>
    ensures { MatchResult result (λ gs. IsExtFile bytes.now gs × NoneOf (tests Ext bytes.now))
        (IsRefusal (tests Ext bytes.now)) }
{
    let table = read_table(alloc, bytes, Format::Ext)?;
    store_generators(alloc, &table)
}
