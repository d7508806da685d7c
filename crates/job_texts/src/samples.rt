//! The sample of a number of rows.
ghost use Rattle.std.specs.Prelude.{◌≡◌, ◌++◌, [], length, IfOk, OnOk};
ghost use Rattle.poly_io.specs.Counts.{HasRisen};
ghost use Rattle.line_values.specs.Meaning.{line};
ghost use Rattle.job_texts.specs.Samples.{IsOfSample, GivesSample, counts_text, sample_text, maximum_text};
ghost use Rattle.job_texts.specs.Outcomes.{SampleOutcome};

use line_values::StepErr;
use optimum::{Sup, shown, sup};
use poly_io::Sink;
use poly_pair::laws::kept_is_pair;
use poly_pair::{Poly, Topology};
use reply_text::Text;
use row_core::{Memory, RowBuf, Steps};
use sample_rows::sample_constraints;
use std::alloc::Global;
use std::sync::ledger::Ledger;
use written_replies::{Replies, Status};

/// The expression `B - A`, whose maximum is asked for.
const DIFFERENCE: [i128; 4] = [-1, 1, 0, 0];

/// Converts the sample of `n` rows, and writes its line, or that of an overflow.
///
/// # Statuses
///
/// `Done` where the sample's line is written, and `Refused` where that of an overflow is. After
/// `WriteFault`, and after `Memory` where the sink wanted it, a front of the line may be.
pub fn write_sample<W: Sink, L: Ledger>(
    alloc: Global,
    n: u32,
    sink: &mut W,
    steps: &mut Steps<L>,
) -> Status
    ensures outcome { SampleOutcome n (W.held sink.old) (W.held sink.new) result }
    ensures write_fault { result ≡ Status.WriteFault
        → HasRisen (W.faults sink.old) (W.faults sink.new) }
    ensures untouched { result ≡ Status.Memory → ¬ (HasRisen (W.wants sink.old) (W.wants sink.new))
        → W.held sink.new ≡ W.held sink.old }
{
    let mut replies = Replies::new(alloc);
    let Ok(()) = replies.add(sampled(alloc, n, steps)) else {
        return Status::Memory;
    };
    replies.write(sink)
}

/// The line of the sample of `n` rows: how many constraints and generators are stored of it, and
/// the maximum of `B - A`.
///
/// # Errors
///
/// `Overflow` shows a number outside the range, in the conversion of the rows or in the search for
/// the maximum.
fn sampled<L: Ledger>(alloc: Global, n: u32, steps: &mut Steps<L>) -> Result<Text, StepErr>
    ensures { GivesSample n result }
{
    kept_is_pair();
    let system = sample_constraints(alloc, n as usize)?;
    match Poly::from_cons(alloc, Topology::Closed, &system, steps) {
        Ok(made) => {
            let _ = (made.dim(), made.cons().dim(), made.gens().dim());
            line_of_sample(alloc, n, &made)
        }
        Err(cause) => Err(StepErr::from(cause)),
    }
}

/// The line of a sample whose polyhedron is found.
fn line_of_sample(alloc: Global, n: u32, made: &Poly) -> Result<Text, StepErr>
    requires { IsOfSample n made.now }
    ensures { GivesSample n result }
{
    match sup(made, &DIFFERENCE) {
        Ok(maximum) => Ok(sample_line(alloc, n, made, maximum)?),
        Err(pair) => {
            let row = RowBuf::new(alloc, &DIFFERENCE)?;
            Err(StepErr::Overflow(shown(alloc, row, made.gens(), pair)?))
        }
    }
}

/// The line of a sample whose polyhedron and maximum are found.
fn sample_line(alloc: Global, n: u32, made: &Poly, maximum: Sup) -> Result<Text, Memory>
    ensures { IfOk result (λ text. text ≡ line
        (sample_text n (length made.now.cons.list) (length made.now.gens.list) maximum)) }
{
    let mut text = Text::new(alloc);
    push_line(&mut text, n, made, maximum)?;
    Ok(text)
}

/// Puts that line into an empty text.
fn push_line(text: &mut Text, n: u32, made: &Poly, maximum: Sup) -> Result<(), Memory>
    requires { text.old ≡ [] }
    ensures { OnOk result (text.new ≡ line
        (sample_text n (length made.now.cons.list) (length made.now.gens.list) maximum)) }
{
    push_counts(text, n, made)?;
    text.push(b" max ")?;
    push_maximum(text, maximum)?;
    text.push(b"\n")?;
    Ok(())
}

/// Puts the number of rows, and how many constraints and generators are stored, into an empty text.
fn push_counts(text: &mut Text, n: u32, made: &Poly) -> Result<(), Memory>
    requires { text.old ≡ [] }
    ensures { OnOk result (text.new ≡ counts_text n (length made.now.cons.list)
        (length made.now.gens.list)) }
{
    text.push(b"sample ")?;
    text.push_unsigned(n as u64)?;
    text.push(b" constraints ")?;
    text.push_unsigned(made.cons().len() as u64)?;
    text.push(b" generators ")?;
    text.push_unsigned(made.gens().len() as u64)?;
    Ok(())
}

/// Appends a maximum.
fn push_maximum(text: &mut Text, maximum: Sup) -> Result<(), Memory>
    ensures { OnOk result (text.new ≡ text.old ++ maximum_text maximum) }
{
    match maximum {
        Sup::Empty => text.push(b"empty"),
        Sup::Unbounded => text.push(b"unbounded"),
        Sup::At { num, den, .. } => {
            text.push_signed(num)?;
            text.push(b"/")?;
            text.push_signed(den)
        }
    }
}
