//! Replies, gathered before they are written.
ghost use Rattle.std.specs.Prelude.{◌≡◌, ℕ, ◌≤◌, ◌⊎◌, ◌∷◌, ◌++◌, [], take, false, OnErr, OnOk};
ghost use Rattle.std.specs.Io.KnownBytes.{append_known};
ghost use Rattle.line_values.specs.Replies.{Answered, Refused, Overflows};
ghost use Rattle.poly_io.specs.Counts.{HasRisen};
ghost use Rattle.written_replies.specs.Replies.{written, with_reply, Adds};
ghost use Rattle.written_replies.specs.Endings.{Writes};

use crate::status::Status;
use line_values::StepErr;
use poly_io::{Sink, WriteAllErr, write_all};
use reply_text::{Fault, Text, print_fault, print_overflow};
use row_core::{Memory, Overflow};
use std::alloc::Global;
use std::marker::Model;

/// The bytes of replies in order, and whether none of them is a fault or an overflow. After want of
/// memory both are as before.
#[derive(Drop)]
pub struct Replies {
    alloc: Global,
    bytes: Vec<u8>,
    clean: bool,
}

impl Model for Replies {
    ghost use Rattle.written_replies.specs.Replies.{Written};

    ghost Value = { Written };

    ghost view = { λ r. record { bytes = r.bytes.items; clean = r.clean } };
}

impl Replies {
    /// No reply yet.
    pub fn new(alloc: Global) -> Replies
        ensures { result ≡ written [] }
    {
        Replies {
            alloc,
            bytes: Vec::new(alloc),
            clean: true,
        }
    }

    /// Adds the reply that was given. Where memory ran out, here or before, there is none, and the
    /// replies are as before.
    pub fn add(&mut self, given: Result<Text, StepErr>) -> Result<(), Memory>
        ensures added { OnOk result (Adds given self.old self.new) }
        ensures wanting { OnErr result (self.new ≡ self.old) }
    {
        match given {
            Ok(text) => self.add_answer(&text),
            Err(StepErr::Input(fault)) => self.add_fault(&fault),
            Err(StepErr::Overflow(over)) => self.add_overflow(&over),
            Err(StepErr::Memory) => Err(Memory),
        }
    }

    // Adds the lines of an answer.
    fn add_answer(&mut self, text: &Text) -> Result<(), Memory>
        ensures added { OnOk result (self.new ≡ with_reply self.old (Answered text.now)) }
        ensures wanting { OnErr result (self.new ≡ self.old) }
    {
        Ok(self.bytes.extend_from_slice(text.bytes())?)
    }

    /// Adds the line of a fault.
    pub fn add_fault(&mut self, fault: &Fault) -> Result<(), Memory>
        ensures added { OnOk result (self.new ≡ with_reply self.old (Refused fault.now)) }
        ensures wanting { OnErr result (self.new ≡ self.old) }
    {
        self.add_refusal(&print_fault(self.alloc, fault)?)
    }

    // Adds the line of an overflow.
    fn add_overflow(&mut self, over: &Overflow) -> Result<(), Memory>
        ensures added { OnOk result (self.new ≡ with_reply self.old (Overflows over.now)) }
        ensures wanting { OnErr result (self.new ≡ self.old) }
    {
        self.add_refusal(&print_overflow(self.alloc, over)?)
    }

    // Adds the line of a fault or an overflow, and its line feed.
    fn add_refusal(&mut self, line: &Text) -> Result<(), Memory>
        ensures added { OnOk result (self.new ≡ record
            { bytes = self.old.bytes ++ (line.now ++ 10 ∷ []); clean = false }) }
        ensures wanting { OnErr result (self.new ≡ self.old) }
    {
        let line = line.bytes();
        self.bytes.reserve(line.len() + 1)?;
        self.bytes.extend_from_slice(line)?;
        self.bytes.push_reserved(b'\n');
        self.clean = false;
        Ok(())
    }

    /// Forgets the bytes, which were written.
    pub fn clear(&mut self)
        ensures { self.new ≡ record { bytes = []; clean = self.old.clean } }
    {
        self.bytes.clear();
    }

    /// The bytes.
    pub fn bytes(&self) -> &[u8]
        ensures { result.now ≡ self.now.bytes }
    {
        self.bytes.as_slice()
    }

    /// Writes the bytes: `Done` where no reply is a fault or an overflow, and else `Refused`.
    pub fn write<W: Sink>(&self, sink: &mut W) -> Status
        ensures writes { Writes self.now (W.held sink.old) (W.held sink.new) result }
        ensures fault { result ≡ Status.WriteFault
            → HasRisen (W.faults sink.old) (W.faults sink.new) }
        ensures want { result ≡ Status.Memory → HasRisen (W.wants sink.old) (W.wants sink.new) }
    {
        match write_all(sink, self.bytes()) {
            Ok(()) if self.is_clean() => Status::Done,
            Ok(()) => Status::Refused,
            Err(WriteAllErr::Failed) => Status::WriteFault,
            Err(WriteAllErr::Memory) => Status::Memory,
        }
    }

    /// Writes the bytes where a run ends out of memory: all of them, unless the sink wants memory too
    /// or a write fails.
    pub fn give_up<W: Sink>(&self, sink: &mut W) -> Status
        ensures status { (result ≡ Status.WriteFault) ⊎ (result ≡ Status.Memory) }
        ensures partly { (count : ℕ) × (W.held sink.new ≡ append_known (W.held sink.old)
            (take count self.now.bytes)) }
        ensures whole { result ≡ Status.Memory → ¬ (HasRisen (W.wants sink.old) (W.wants sink.new))
            → W.held sink.new ≡ append_known (W.held sink.old) self.now.bytes }
        ensures no_fewer { W.faults sink.old ≤ W.faults sink.new }
        ensures fault { result ≡ Status.WriteFault
            → HasRisen (W.faults sink.old) (W.faults sink.new) }
    {
        let gathered = self.bytes();
        match write_all(sink, gathered) {
            Err(WriteAllErr::Failed) => Status::WriteFault,
            Ok(()) | Err(WriteAllErr::Memory) => Status::Memory,
        }
    }

    /// Whether no reply is a fault or an overflow.
    pub fn is_clean(&self) -> bool
        ensures { result ≡ self.now.clean }
    {
        self.clean
    }
}
