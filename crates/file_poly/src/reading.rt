//! Reading a file.
ghost use Rattle.std.specs.Prelude.{IfOk, MatchResult};
ghost use Rattle.cdd_reading.specs.Refusals.{tests, NoneOf, IsRefusal};
ghost use Rattle.file_poly.specs.Files.{IsFit, IsListOf};

use crate::listed::Listed;
use cdd_reading::{Format, read_ext, read_ine};
use reply_text::ReadErr;
use std::alloc::Global;

/// The list of a file that is taken for one of this kind.
///
/// # Errors
///
/// `Input` with the first fault of the file.
pub fn read_file(alloc: Global, want: Format, bytes: &[u8]) -> Result<Listed, ReadErr>
    ensures read { MatchResult result
        (λ list. IsListOf want bytes.now list × NoneOf (tests want bytes.now))
        (IsRefusal (tests want bytes.now)) }
    ensures fit { IfOk result IsFit }
{
    match want {
        Format::Ine => match read_ine(alloc, bytes) {
            Ok(cons) => Ok(Listed::Cons(cons)),
            Err(cause) => Err(cause),
        },
        Format::Ext => match read_ext(alloc, bytes) {
            Ok(gens) => Ok(Listed::Gens(gens)),
            Err(cause) => Err(cause),
        },
    }
}
