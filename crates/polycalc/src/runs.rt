//! A run of the calculator over the lines of a source, as they come.
ghost use Rattle.std.specs.Prelude.{◌≡◌, ℕ, ◌≤◌, List, [], false, OnOk, OnErr};
ghost use Rattle.std.specs.Io.KnownBytes.{prepend_known};
ghost use Rattle.poly_io.specs.Counts.{HasRisen};
ghost use Rattle.line_values.specs.Replies.{Reply};
ghost use Rattle.calc_state.specs.Line.{Step, Gives};
ghost use Rattle.written_replies.specs.Replies.{written, with_reply};
ghost use Rattle.calc_state.specs.State.{closed};
ghost use Rattle.calc_state.specs.Runs.{at_end};
ghost use Rattle.polycalc.specs.Endings.{Closes};
ghost use Rattle.polycalc.specs.Outcomes.{Outcome, GivesUp};
ghost use Rattle.job_words.specs.declared.job.Job.TheVariants as job;

use calc_state::Calc;
use line_values::StepErr;
use poly_io::{LineAns, LineReader, Sink, Source, WriteAllErr, write_all};
use reply_text::Text;
use row_core::{Memory, Steps};
use std::alloc::Global;
use std::sync::ledger::Ledger;
use written_replies::{Replies, Status};

/// Answers the lines of a source, and writes the replies before more is read.
pub fn run_lines<S: Source, W: Sink, L: Ledger>(
    alloc: Global,
    source: &mut S,
    sink: &mut W,
    steps: &mut Steps<L>,
) -> Status
    ensures outcome { (given : List ℕ)
        × (S.left source.old ≡ prepend_known given (S.left source.new))
        × Outcome job.Run given (S.left source.new) (W.held sink.old) (W.held sink.new) result }
    ensures read_fault { result ≡ Status.ReadFault
        → HasRisen (S.faults source.old) (S.faults source.new) }
    ensures write_fault { result ≡ Status.WriteFault
        → HasRisen (W.faults sink.old) (W.faults sink.new) }
    ensures lines_before { result ≡ Status.Memory
        → ¬ (HasRisen (W.wants sink.old) (W.wants sink.new))
        → GivesUp job.Run (S.left source.old) (S.left source.new) (W.held sink.old)
        (W.held sink.new) }
{
    let Ok(mut reader) = LineReader::new(alloc) else {
        return Status::Memory;
    };
    let mut calc = Calc::new(alloc);
    let mut replies = Replies::new(alloc);
    answer_lines(&mut reader, &mut calc, &mut replies, source, sink, steps)
}

// Answers the lines of a source of which nothing is read yet.
fn answer_lines<S: Source, W: Sink, L: Ledger>(
    reader: &mut LineReader,
    calc: &mut Calc,
    replies: &mut Replies,
    source: &mut S,
    sink: &mut W,
    steps: &mut Steps<L>,
) -> Status
    requires fresh { reader.old ≡ record { pending = []; taken = 0; ended = false; line = [] } }
    requires start { calc.old ≡ closed [] }
    requires silent { replies.old ≡ written [] }
    ensures outcome { (given : List ℕ)
        × (S.left source.old ≡ prepend_known given (S.left source.new))
        × Outcome job.Run given (S.left source.new) (W.held sink.old) (W.held sink.new) result }
    ensures read_fault { result ≡ Status.ReadFault
        → HasRisen (S.faults source.old) (S.faults source.new) }
    ensures write_fault { result ≡ Status.WriteFault
        → HasRisen (W.faults sink.old) (W.faults sink.new) }
    ensures lines_before { result ≡ Status.Memory
        → ¬ (HasRisen (W.wants sink.old) (W.wants sink.new))
        → GivesUp job.Run (S.left source.old) (S.left source.new) (W.held sink.old)
        (W.held sink.new) }
{
    loop {
        match reader.next(source) {
            LineAns::Line => (),
            LineAns::End => return end_script(calc, replies, sink),
            LineAns::Failed => return Status::ReadFault,
            LineAns::TooLong => return Status::InputTooLong,
        }
        let Ok(()) = reply_to(calc, reader.line(), steps, replies) else {
            return replies.give_up(sink);
        };
        if !reader.has_line() {
            match write_all(sink, replies.bytes()) {
                Ok(()) => replies.clear(),
                Err(WriteAllErr::Failed) => return Status::WriteFault,
                Err(WriteAllErr::Memory) => return Status::Memory,
            }
        }
    }
}

// The end of the script, which cuts off a file that is open.
fn end_script<W: Sink>(calc: &mut Calc, replies: &mut Replies, sink: &mut W) -> Status
    requires { replies.old.bytes ≡ [] }
    ensures closes { Closes (at_end calc.old) replies.old.clean (W.held sink.old) (W.held sink.new)
        result }
    ensures no_fewer { W.faults sink.old ≤ W.faults sink.new }
    ensures fault { result ≡ Status.WriteFault → HasRisen (W.faults sink.old) (W.faults sink.new) }
    ensures untouched { result ≡ Status.Memory → ¬ (HasRisen (W.wants sink.old) (W.wants sink.new))
        → W.held sink.new ≡ W.held sink.old }
{
    let Err(fault) = calc.finish() else {
        return if replies.is_clean() {
            Status::Done
        } else {
            Status::Refused
        };
    };
    let Ok(()) = replies.add_fault(&fault) else {
        return Status::Memory;
    };
    match write_all(sink, replies.bytes()) {
        Ok(()) => Status::Refused,
        Err(WriteAllErr::Failed) => Status::WriteFault,
        Err(WriteAllErr::Memory) => Status::Memory,
    }
}

// One line's step, and its reply. Out of memory, the replies are as before.
fn reply_to<L: Ledger>(
    calc: &mut Calc,
    line: &[u8],
    steps: &mut Steps<L>,
    replies: &mut Replies,
) -> Result<(), Memory>
    ensures answered { OnOk result ((reply : Reply) × Step calc.old line.now reply calc.new
        × (replies.new ≡ with_reply replies.old reply)) }
    ensures wanting { OnErr result (replies.new ≡ replies.old) }
{
    replies.add(take_step(calc, line, steps))
}

// The step that one line makes.
fn take_step<L: Ledger>(calc: &mut Calc, line: &[u8], steps: &mut Steps<L>) -> Result<Text, StepErr>
    ensures { Gives calc.old line.now result calc.new }
{
    calc.step(line, steps)
}
