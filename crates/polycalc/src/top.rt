//! The top call.
ghost use Rattle.std.specs.Prelude.{◌≡◌, ◌≢◌, ℕ, ◌^◌, ◌≤◌, ◌↔◌, List, length, Some};
ghost use Rattle.std.specs.Io.KnownBytes.{prepend_known};
ghost use Rattle.poly_io.specs.Counts.{HasRisen};
ghost use Rattle.job_words.specs.Words.{IsAskedBy};
ghost use Rattle.polycalc.specs.Outcomes.{Outcome, EndsAs, TellsSize, IsAnswered, IsSampleAnswered, GivesUp};
ghost use Rattle.polycalc.specs.Sound.{IsSound};
ghost use Rattle.job_words.specs.declared.job.Job.{Job as AnyJob};
ghost use Rattle.job_words.specs.declared.job.Job.TheVariants.{Sample};

use crate::completeness::runs_are_complete;
use crate::runs::run_lines;
use crate::truth::answers_are_sound;
use job_texts::{convert_file, write_sample};
use job_words::{Job, Words};
use poly_io::{Sink, Source};
use row_core::Steps;
use std::alloc::Global;
use std::sync::ledger::Ledger;
use written_replies::Status;

/// Does what the words ask for.
///
/// - `run` reads a script from the source and writes the replies, the faults' and overflows' lines
///   among them, to the sink. The replies to all whole lines that the source gave are written
///   before it is read again.
/// - `ine2ext` reads a file of constraints in the format of cdd and lrs and writes that of the
///   generators of the same points, and `ext2ine` the other way round. Where a file is refused, or
///   its conversion leaves the range, the one line of the fault or the overflow is written.
/// - `sample` and a number of one to four digits, at most 1,000, converts the sample of so many
///   rows and writes how many constraints and generators are stored of it, and the maximum of
///   `B - A`, or the one line of an overflow. The source isn't read.
///
/// What its clauses say:
///
/// - `answered`: where source and sink tell their bytes, no count of faults rose and memory was
///   found, the sink holds what it held and then the replies: of a run over the lines of all bytes,
///   in which each line that must succeed is answered, or to the file that all bytes are, which is
///   converted where it must be.
/// - `sound`: where the same holds, it holds what it held and then, line by line, the replies to
///   the lines of the script: a line whose reply begins with `fault ` or `overflow ` changes
///   nothing, and each other one spells a command, or ends a file, whose reply is true of the
///   points for which the names stand and which makes of them what it says; or to a file a refusal,
///   or the other file of the same points.
/// - `sampled`, `unread`: a sample asks only of the sink, which holds what it held and then the
///   line of the sample, where it must be answered, and nothing is read.
/// - `ends` tells what is written, by the status. Its `done` and `refused`: what the job reads was
///   read to its end and all replies were written; whether one of them is a fault or an overflow.
///   `whole_lines`: after a failed read all whole lines that the source gave are answered; of a
///   file nothing is written. `earlier_lines`: where the script is too long, those that it gave
///   before the last read are. `lines_before`: where memory was wanted elsewhere than at the sink,
///   the lines before are answered, each with its whole reply; of a file and of a sample nothing is
///   written. `partly`: a front of the replies is written, whatever else went wrong.
/// - `too_long`: exactly where the source gave more than so many bytes, and then no more is read.
pub fn polycalc<S: Source, W: Sink, L: Ledger>(
    alloc: Global,
    words: &Words,
    source: &mut S,
    sink: &mut W,
    steps: &mut Steps<L>,
) -> Status
    ensures answered { (job : AnyJob) (script before : List ℕ) → IsAskedBy words.now job
        → S.left source.old ≡ Some script → W.held sink.old ≡ Some before → length script ≤ 2 ^ 26
        → ¬ (HasRisen (S.faults source.old) (S.faults source.new))
        → ¬ (HasRisen (W.faults sink.old) (W.faults sink.new)) → result ≢ Status.Memory
        → IsAnswered job script before (W.held sink.new) result }
    ensures sound { (job : AnyJob) (script before : List ℕ) → IsAskedBy words.now job
        → S.left source.old ≡ Some script → W.held sink.old ≡ Some before → length script ≤ 2 ^ 26
        → ¬ (HasRisen (S.faults source.old) (S.faults source.new))
        → ¬ (HasRisen (W.faults sink.old) (W.faults sink.new)) → result ≢ Status.Memory
        → IsSound job script before (W.held sink.new) }
    ensures sampled { (n : ℕ) (before : List ℕ) → IsAskedBy words.now (Sample n)
        → W.held sink.old ≡ Some before → ¬ (HasRisen (W.faults sink.old) (W.faults sink.new))
        → result ≢ Status.Memory → IsSampleAnswered n before (W.held sink.new) result }
    ensures unread { (n : ℕ) → IsAskedBy words.now (Sample n) → source.new ≡ source.old }
    ensures ends { EndsAs words.now result (HasRisen (W.wants sink.old) (W.wants sink.new))
        (S.left source.old) (S.left source.new) (W.held sink.old) (W.held sink.new) }
    ensures usage { (result ≡ Status.Usage) ↔ ((job : AnyJob) → ¬ (IsAskedBy words.now job)) }
    ensures untouched { result ≡ Status.Usage → (source.new ≡ source.old) × (sink.new ≡ sink.old) }
    ensures read_fault { result ≡ Status.ReadFault
        → HasRisen (S.faults source.old) (S.faults source.new) }
    ensures write_fault { result ≡ Status.WriteFault
        → HasRisen (W.faults sink.old) (W.faults sink.new) }
    ensures too_long { TellsSize result (S.left source.old) (S.left source.new) }
{
    runs_are_complete();
    answers_are_sound();
    match words.job() {
        Some(job) => do_job(alloc, job, source, sink, steps),
        None => Status::Usage,
    }
}

// Does a job.
fn do_job<S: Source, W: Sink, L: Ledger>(
    alloc: Global,
    job: Job,
    source: &mut S,
    sink: &mut W,
    steps: &mut Steps<L>,
) -> Status
    ensures outcome { (given : List ℕ)
        × (S.left source.old ≡ prepend_known given (S.left source.new))
        × Outcome job given (S.left source.new) (W.held sink.old) (W.held sink.new) result }
    ensures read_fault { result ≡ Status.ReadFault
        → HasRisen (S.faults source.old) (S.faults source.new) }
    ensures unread { (n : ℕ) → job ≡ Sample n → source.new ≡ source.old }
    ensures write_fault { result ≡ Status.WriteFault
        → HasRisen (W.faults sink.old) (W.faults sink.new) }
    ensures lines_before { result ≡ Status.Memory
        → ¬ (HasRisen (W.wants sink.old) (W.wants sink.new))
        → GivesUp job (S.left source.old) (S.left source.new) (W.held sink.old) (W.held sink.new) }
{
    match job {
        Job::Run => run_lines(alloc, source, sink, steps),
        Job::Convert(want) => convert_file(alloc, want, source, sink, steps),
        Job::Sample(n) => write_sample(alloc, n, sink, steps),
    }
}
