//! The calculator of convex polyhedra as a program: it reads a script from standard input and
//! writes the replies to standard output, or converts a file of constraints or of generators, or a
//! sample.
#![tactic(auto)]

ghost use Rattle.std.specs.Prelude.{◌≡◌, ◌<◌, ◌↔◌};
ghost use Rattle.poly_io.specs.Counts.{HasRisen};
ghost use Rattle.job_words.specs.Words.{IsAskedBy};
ghost use Rattle.job_words.specs.declared.job.Job.{Job as AnyJob};

mod completeness;
mod runs;
mod top;
mod truth;

use job_words::{Words, words_of};
use poly_io::{StdSink, StdSource};
use row_core::Steps;
use std::alloc::Global;
use std::io::{Stderr, Stdin, Stdout, Write};
use std::marker::Brand;
use std::process::ExitCode;
use std::sync::ledger::{Blank, Ledger};
use top::polycalc;
use usage_text::usage;
use written_replies::{Status, exit_code};

fn main(rt: HostRuntime) -> ExitCode {
    let mut source = StdSource::new(rt.stdin());
    let mut sink = StdSink::new(rt.stdout());
    let status = match words_of(&rt) {
        Ok(words) => status_of::<Brand>(rt.alloc(), &words, &mut source, &mut sink, Blank::new(1)),
        Err(status) => status,
    };
    if status == Status::Usage {
        show_usage(&rt);
    }
    exit_code(status)
}

// The usage text on standard error. Where it is refused, nothing follows from it.
fn show_usage(rt: &HostRuntime) {
    if let Ok(text) = usage(rt.alloc()) {
        let _ = rt.stderr().write_all(text.bytes());
    }
}

// How the call over standard input and standard output ends.
fn status_of<L: Ledger>(
    alloc: Global,
    words: &Words,
    source: &mut StdSource<Stdin>,
    sink: &mut StdSink<Stdout>,
    blank: Blank,
) -> Status
    requires name { blank.name ≡ L.name }
    requires parts { blank.parts ≡ L.parts }
    requires shared { 0 < blank.parts }
    ensures usage { (result ≡ Status.Usage) ↔ ((job : AnyJob) → ¬ (IsAskedBy words.now job)) }
    ensures read_fault { result ≡ Status.ReadFault → HasRisen source.old.1 source.new.1 }
    ensures write_fault { result ≡ Status.WriteFault → HasRisen sink.old.1 sink.new.1 }
{
    polycalc(alloc, words, source, sink, &mut Steps::<L>::new(blank))
}

#[cfg(test)]
mod tests;
