//! Files that are converted.
ghost use Rattle.std.specs.Prelude.{◌≡◌, ℕ, List};
ghost use Rattle.std.specs.Io.KnownBytes.{prepend_known};
ghost use Rattle.poly_io.specs.Counts.{HasRisen};
ghost use Rattle.job_texts.specs.Conversions.{GivesConversion};
ghost use Rattle.job_texts.specs.Outcomes.{ConversionOutcome};

use cdd_reading::linearity_after_end;
use file_poly::{Format, read_file};
use line_values::StepErr;
use poly_io::{INPUT_LIMIT, ReadAllErr, Sink, Source, read_all};
use poly_pair::laws::kept_is_pair;
use reply_text::{Fault, Text};
use row_core::Steps;
use std::alloc::Global;
use std::sync::ledger::Ledger;
use written_replies::{Replies, Status};

/// Reads a file whole, and writes that of the other system, or the line of a fault or an overflow.
///
/// # Statuses
///
/// `Done` where the other file is written, and `Refused` where one of these lines is. After
/// `ReadFault` and `InputTooLong` nothing is written. After `WriteFault`, and after `Memory` where
/// the sink wanted it, a front of the reply may be.
pub fn convert_file<S: Source, W: Sink, L: Ledger>(
    alloc: Global,
    want: Format,
    source: &mut S,
    sink: &mut W,
    steps: &mut Steps<L>,
) -> Status
    ensures outcome { (given : List ℕ)
        × (S.left source.old ≡ prepend_known given (S.left source.new))
        × ConversionOutcome want given (S.left source.new) (W.held sink.old) (W.held sink.new)
        result }
    ensures read_fault { result ≡ Status.ReadFault
        → HasRisen (S.faults source.old) (S.faults source.new) }
    ensures write_fault { result ≡ Status.WriteFault
        → HasRisen (W.faults sink.old) (W.faults sink.new) }
    ensures untouched { result ≡ Status.Memory → ¬ (HasRisen (W.wants sink.old) (W.wants sink.new))
        → W.held sink.new ≡ W.held sink.old }
{
    let file = match read_all(alloc, source, INPUT_LIMIT) {
        Ok(file) => file,
        Err(ReadAllErr::Failed) => return Status::ReadFault,
        Err(ReadAllErr::TooLong) => return Status::InputTooLong,
        Err(ReadAllErr::Memory) => return Status::Memory,
    };
    let mut replies = Replies::new(alloc);
    let Ok(()) = replies.add(converted(alloc, want, file.as_slice(), steps)) else {
        return Status::Memory;
    };
    replies.write(sink)
}

/// The file of the other system of a file that is taken for one of this kind.
///
/// # Errors
///
/// `Input` exactly where this is the first test of the file that fails; `Overflow` shows a number
/// outside the range in the conversion of its list.
fn converted<L: Ledger>(
    alloc: Global,
    want: Format,
    file: &[u8],
    steps: &mut Steps<L>,
) -> Result<Text, StepErr>
    ensures { GivesConversion want file.now result }
{
    kept_is_pair();
    let list = match read_file(alloc, want, file) {
        Ok(list) => list,
        Err(cause) => return Err(StepErr::from(cause)),
    };
    if linearity_after_end(file) {
        return Err(StepErr::Input(Fault::LinearityAfterEnd));
    }
    match list.other_file(alloc, steps) {
        Ok(text) => Ok(text),
        Err(cause) => Err(StepErr::from(cause)),
    }
}
