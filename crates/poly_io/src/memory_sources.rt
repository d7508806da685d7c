//! Sources over bytes in memory.
ghost use Rattle.std.specs.Prelude.{◌≡◌, ◌≢◌, ℕ, ◌<◌, ◌≤◌, ◌↔◌, List, length, take, min, Option, Some, IfOk};
ghost use Rattle.poly_io.specs.Counts.{HasRisen};
ghost use Rattle.poly_io.specs.Reads.{Reads};
ghost use Rattle.poly_io.specs.Timetable.{FailsNext, at_start, after_failure, after_success};
ghost use Rattle.poly_io.specs.Memory.{answer_from};

use super::reading::{ReadAns, Source};
use super::timetable::Timetable;
use std::alloc::{AllocError, Global};
use std::marker::Model;

// Copies the first bytes, at most `piece` of them, to the front of the buffer.
fn copy_front(bytes: &[u8], piece: usize, buf: &mut [u8]) -> usize
    ensures count { result ≡ min (length buf.old) (min piece (length bytes.now)) }
    ensures front { take result buf.new ≡ take result bytes.now }
{
    let count = buf.len().min(piece.min(bytes.len()));
    buf[..count].copy_from_slice(&bytes[..count]);
    count
}

/// Bytes in memory, given out in pieces. No read fails.
#[derive(Drop)]
pub struct SafeSource {
    bytes: Vec<u8>,
    at: usize,
    piece: usize,
}

impl Model for SafeSource {
    ghost use Rattle.std.specs.Prelude.{◌≤◌, drop, vec_len};
    ghost use Rattle.poly_io.specs.Memory.{Stock};

    ghost Value = { Stock };

    ghost view = { λ s. record { left = drop s.at s.bytes.items; piece = s.piece } };

    ghost invariant = { λ s. (s.at ≤ vec_len s.bytes) × (1 ≤ s.piece) };
}

impl SafeSource {
    /// Gives these bytes, at most `piece` of them a call.
    pub fn new(alloc: Global, bytes: &[u8], piece: usize) -> Result<SafeSource, AllocError>
        requires { 1 ≤ piece }
        ensures { IfOk result (λ s. s ≡ record { left = bytes.now; piece = piece }) }
    {
        Ok(SafeSource {
            bytes: Vec::from_slice(alloc, bytes)?,
            at: 0,
            piece,
        })
    }
}

impl Source for SafeSource {
    ghost left = { λ s. Some s.left };

    ghost faults = { λ _. 0 };

    fn read(&mut self, buf: &mut [u8]) -> ReadAns
        requires { 0 < length buf.old }
        ensures moved { Reads (Some self.old.left) (Some self.new.left) buf.new result }
        ensures exact { result ≡ answer_from self.old (length buf.old) }
        ensures piece { self.new.piece ≡ self.old.piece }
    {
        let rest = self.bytes.len() - self.at;
        if rest == 0 {
            return ReadAns::End;
        }
        let count = copy_front(&self.bytes[self.at..], self.piece, buf);
        self.at += count;
        ReadAns::Got(count)
    }
}

/// Bytes in memory, given out in pieces, where the calls with some numbers fail.
#[derive(Drop)]
pub struct MemSource {
    source: SafeSource,
    timetable: Timetable,
}

impl Model for MemSource {
    ghost use Rattle.poly_io.specs.Memory.{Feed};

    ghost Value = { Feed };

    ghost view = { λ s. record { stock = s.source; faults = s.timetable } };
}

impl MemSource {
    /// Gives these bytes, at most `piece` of them a call, and fails at the calls whose numbers,
    /// counted from 1, stand in `fails`.
    pub fn new(
        alloc: Global,
        bytes: &[u8],
        piece: usize,
        fails: &[u64],
    ) -> Result<MemSource, AllocError>
        requires { 1 ≤ piece }
        ensures bytes { IfOk result (λ s. s.stock ≡ record { left = bytes.now; piece = piece }) }
        ensures faults { IfOk result (λ s. s.faults ≡ at_start fails.now) }
    {
        Ok(MemSource {
            source: SafeSource::new(alloc, bytes, piece)?,
            timetable: Timetable::new(alloc, fails)?,
        })
    }
}

impl Source for MemSource {
    ghost left = { λ s. Some s.stock.left };

    ghost faults = { λ s. s.faults.count };

    fn read(&mut self, buf: &mut [u8]) -> ReadAns
        requires { 0 < length buf.old }
        ensures moved { Reads (Some self.old.stock.left) (Some self.new.stock.left) buf.new result }
        ensures failed_by_fault { result ≡ ReadAns.Failed
            → HasRisen self.old.faults.count self.new.faults.count }
        ensures counted { self.old.faults.count ≤ self.new.faults.count }
        ensures fails { (result ≡ ReadAns.Failed) ↔ FailsNext self.old.faults }
        ensures failure { result ≡ ReadAns.Failed
            → self.new ≡ record { stock = self.old.stock; faults = after_failure self.old.faults } }
        ensures success { result ≢ ReadAns.Failed
            → (result ≡ answer_from self.old.stock (length buf.old))
            × (self.new.faults ≡ after_success self.old.faults) }
        ensures piece { self.new.stock.piece ≡ self.old.stock.piece }
    {
        if self.timetable.fails_now() {
            return ReadAns::Failed;
        }
        self.source.read(buf)
    }
}
