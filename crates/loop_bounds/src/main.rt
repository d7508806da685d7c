//! Bounds of the variables of a loop: it reads a loop from standard input and writes
//! constraints that hold whenever control comes to its head, and constraints that hold whenever
//! it goes on behind the loop.
#![tactic(auto)]

mod reading;
mod report;
mod status;
mod top;

ghost use Rattle.std.specs.Prelude.{◌≡◌, ℕ, ◌<◌, List, None};
ghost use Rattle.poly_io.specs.Counts.{HasRisen};
ghost use Rattle.loop_bounds.specs.Replies.{Outcome};

use poly_io::{StdSink, StdSource};
use row_core::Steps;
use status::{Status, exit_code};
use std::alloc::Global;
use std::io::{Stdin, Stdout};
use std::marker::Brand;
use std::process::ExitCode;
use std::sync::ledger::{Blank, Ledger};
use top::loop_bounds;

fn main(rt: HostRuntime) -> ExitCode {
    let mut source = StdSource::new(rt.stdin());
    let mut sink = StdSink::new(rt.stdout());
    exit_code(status_of::<Brand>(rt.alloc(), &mut source, &mut sink, Blank::new(1)))
}

// How the call over standard input and standard output ends.
fn status_of<L: Ledger>(
    alloc: Global,
    source: &mut StdSource<Stdin>,
    sink: &mut StdSink<Stdout>,
    blank: Blank,
) -> Status
    requires name { blank.name ≡ L.name }
    requires parts { blank.parts ≡ L.parts }
    requires shared { 0 < blank.parts }
    // No contract knows the bytes of the system's streams: it ends as a call over some text does.
    ensures outcome { (given : List ℕ) × Outcome given None None None result }
    ensures read_fault { result ≡ Status.ReadFault → HasRisen source.old.1 source.new.1 }
    ensures write_fault { result ≡ Status.WriteFault → HasRisen sink.old.1 sink.new.1 }
{
    loop_bounds(alloc, source, sink, &mut Steps::<L>::new(blank))
}
