//! Sinks that hold their bytes in memory.
ghost use Rattle.std.specs.Prelude.{◌≡◌, ◌≢◌, ℕ, ◌<◌, ◌≤◌, ◌↔◌, ◌⊎◌, List, [], length, min, Option, Some, IfOk};
ghost use Rattle.poly_io.specs.Counts.{HasRisen};
ghost use Rattle.poly_io.specs.Writes.{Writes, wants_after};
ghost use Rattle.poly_io.specs.Timetable.{FailsNext, at_start, after_failure, after_success};

use super::timetable::Timetable;
use super::writing::{Sink, WriteAns};
use std::alloc::{AllocError, Global};
use std::marker::Model;

/// Gathers bytes in memory. No write fails except out of memory, and how often it was refused is
/// counted.
#[derive(Drop)]
pub struct SafeSink {
    bytes: Vec<u8>,
    piece: usize,
    wants: u64,
}

impl Model for SafeSink {
    ghost use Rattle.std.specs.Prelude.{◌≤◌};
    ghost use Rattle.poly_io.specs.Memory.{Store};

    ghost Value = { Store };

    ghost view = { λ s. record { held = s.bytes.items; piece = s.piece; wants = s.wants } };

    ghost invariant = { λ s. 1 ≤ s.piece };
}

impl SafeSink {
    /// Holds nothing yet, and takes at most `piece` bytes a call.
    pub fn new(alloc: Global, piece: usize) -> SafeSink
        requires { 1 ≤ piece }
        ensures { result ≡ record { held = []; piece = piece; wants = 0 } }
    {
        SafeSink {
            bytes: Vec::new(alloc),
            piece,
            wants: 0,
        }
    }

    /// The bytes held.
    pub fn held(&self) -> &[u8]
        ensures { result.now ≡ self.now.held }
    {
        self.bytes.as_slice()
    }
}

impl Sink for SafeSink {
    ghost held = { λ s. Some s.held };

    ghost faults = { λ _. 0 };

    ghost wants = { λ s. s.wants };

    fn write(&mut self, buf: &[u8]) -> WriteAns
        requires { 0 < length buf.now }
        ensures appended { Writes (Some self.old.held) (Some self.new.held) buf.now result }
        ensures exact { (result ≡ WriteAns.Memory)
            ⊎ (result ≡ WriteAns.Took (min (length buf.now) self.old.piece)) }
        ensures memory_by_want { result ≡ WriteAns.Memory → HasRisen self.old.wants self.new.wants }
        ensures wants_counted { self.old.wants ≤ self.new.wants }
        ensures wanted { self.new.wants ≡ wants_after self.old.wants result }
        ensures piece { self.new.piece ≡ self.old.piece }
    {
        let count = buf.len().min(self.piece);
        match self.bytes.extend_from_slice(&buf[..count]) {
            Ok(()) => WriteAns::Took(count),
            Err(_) => {
                self.wants = self.wants.saturating_add(1);
                WriteAns::Memory
            }
        }
    }
}

/// Gathers bytes in memory, where the calls with some numbers fail.
#[derive(Drop)]
pub struct MemSink {
    sink: SafeSink,
    timetable: Timetable,
}

impl Model for MemSink {
    ghost use Rattle.poly_io.specs.Memory.{Shelf};

    ghost Value = { Shelf };

    ghost view = { λ s. record { store = s.sink; faults = s.timetable } };
}

impl MemSink {
    /// Holds nothing yet, takes at most `piece` bytes a call, and fails at the calls whose
    /// numbers, counted from 1, stand in `fails`.
    pub fn new(alloc: Global, piece: usize, fails: &[u64]) -> Result<MemSink, AllocError>
        requires { 1 ≤ piece }
        ensures bytes { IfOk result
            (λ s. s.store ≡ record { held = []; piece = piece; wants = 0 }) }
        ensures faults { IfOk result (λ s. s.faults ≡ at_start fails.now) }
    {
        Ok(MemSink {
            sink: SafeSink::new(alloc, piece),
            timetable: Timetable::new(alloc, fails)?,
        })
    }

    /// The bytes held.
    pub fn held(&self) -> &[u8]
        ensures { result.now ≡ self.now.store.held }
    {
        self.sink.held()
    }
}

impl Sink for MemSink {
    ghost held = { λ s. Some s.store.held };

    ghost faults = { λ s. s.faults.count };

    ghost wants = { λ s. s.store.wants };

    fn write(&mut self, buf: &[u8]) -> WriteAns
        requires { 0 < length buf.now }
        ensures appended { Writes (Some self.old.store.held)
            (Some self.new.store.held) buf.now result }
        ensures failed_by_fault { result ≡ WriteAns.Failed
            → HasRisen self.old.faults.count self.new.faults.count }
        ensures counted { self.old.faults.count ≤ self.new.faults.count }
        ensures fails { (result ≡ WriteAns.Failed) ↔ FailsNext self.old.faults }
        ensures failure { result ≡ WriteAns.Failed
            → self.new ≡ record { store = self.old.store; faults = after_failure self.old.faults } }
        ensures success { result ≢ WriteAns.Failed
            → ((result ≡ WriteAns.Memory)
            ⊎ (result ≡ WriteAns.Took (min (length buf.now) self.old.store.piece)))
            × (self.new.faults ≡ after_success self.old.faults) }
        ensures memory_by_want { result ≡ WriteAns.Memory
            → HasRisen self.old.store.wants self.new.store.wants }
        ensures wants_counted { self.old.store.wants ≤ self.new.store.wants }
        ensures wanted { self.new.store.wants ≡ wants_after self.old.store.wants result }
        ensures piece { self.new.store.piece ≡ self.old.store.piece }
    {
        if self.timetable.fails_now() {
            return WriteAns::Failed;
        }
        self.sink.write(buf)
    }
}
