//! The top call.
ghost use Rattle.std.specs.Prelude.{◌≡◌, ℕ, List, IfOk};
ghost use Rattle.std.specs.Io.KnownBytes.{prepend_known};
ghost use Rattle.poly_io.specs.Counts.{HasRisen};
ghost use Rattle.loop_bounds.specs.Replies.{IsReply, Outcome};

use crate::reading::read_loop;
use crate::report::{overflow, refusal, report};
use crate::status::Status;
use expr_text::{Text, constraints_are_read_back};
use loop_analysis::find_bounds;
use poly_io::{INPUT_LIMIT, ReadAllErr, Sink, Source, WriteAllErr, read_all, write_all};
use row_core::{ConvErr, Memory, Steps};
use std::alloc::Global;
use std::sync::ledger::Ledger;

/// A reply, and whether it gives bounds.
#[derive(Drop)]
pub struct Reply {
    pub text: Text,
    pub found: bool,
}

/// The reply to the text of a loop.
fn reply_to<L: Ledger>(alloc: Global, text: &[u8], steps: &mut Steps<L>) -> Result<Reply, Memory>
    ensures { IfOk result (λ reply. IsReply text.now reply.text reply.found) }
{
    constraints_are_read_back();
    let program = match read_loop(alloc, text) {
        Ok(program) => program,
        Err(refused) => {
            let text = refusal(alloc, &refused)?;
            return Ok(Reply { text, found: false });
        }
    };
    match find_bounds(alloc, &program, steps) {
        Ok(bounds) => {
            let _fit = (bounds.head.dim(), bounds.behind.dim());
            let text = report(alloc, &bounds)?;
            Ok(Reply { text, found: true })
        }
        Err(ConvErr::Overflow(over)) => {
            let text = overflow(alloc, &over)?;
            Ok(Reply { text, found: false })
        }
        Err(ConvErr::Memory) => Err(Memory),
    }
}

/// Reads a loop from the source and writes the reply to the sink: constraints on its
/// variables that hold at the head of the loop and behind it in each run, or the line of a
/// refusal or of an overflow.
pub fn loop_bounds<S: Source, W: Sink, L: Ledger>(
    alloc: Global,
    source: &mut S,
    sink: &mut W,
    steps: &mut Steps<L>,
) -> Status
    ensures outcome { (given : List ℕ)
        × (S.left source.old ≡ prepend_known given (S.left source.new))
        × Outcome given (S.left source.new) (W.held sink.old) (W.held sink.new) result }
    ensures read_fault { result ≡ Status.ReadFault
        → HasRisen (S.faults source.old) (S.faults source.new) }
    ensures write_fault { result ≡ Status.WriteFault
        → HasRisen (W.faults sink.old) (W.faults sink.new) }
{
    let text = match read_all(alloc, source, INPUT_LIMIT) {
        Ok(text) => text,
        Err(ReadAllErr::Failed) => return Status::ReadFault,
        Err(ReadAllErr::TooLong) => return Status::InputTooLong,
        Err(ReadAllErr::Memory) => return Status::Memory,
    };
    let Ok(reply) = reply_to(alloc, text.as_slice(), steps) else {
        return Status::Memory;
    };
    match write_all(sink, reply.text.bytes()) {
        Ok(()) if reply.found => Status::Done,
        Ok(()) => Status::Refused,
        Err(WriteAllErr::Failed) => Status::WriteFault,
        Err(WriteAllErr::Memory) => Status::Memory,
    }
}
