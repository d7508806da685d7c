//! Readers and writers of the standard library as sources and sinks.
ghost use Rattle.std.specs.Prelude.{◌≡◌, ℕ, ◌<◌, ◌≤◌, List, length, take, Option, None, IfOk};
ghost use Rattle.std.specs.Io.KnownBytes.{Appends};
ghost use Rattle.poly_io.specs.Counts.{HasRisen};
ghost use Rattle.poly_io.specs.Reads.{Reads};
ghost use Rattle.poly_io.specs.Writes.{Writes};
ghost use Rattle.poly_io.specs.Edges.{Means, Sends, answer_to_read, answer_to_write, count_after_read, count_after_write};

use super::reading::{ReadAns, Source};
use super::writing::{Sink, WriteAns};
use std::io;
use std::io::{Read, Write};
use std::marker::Model;

// What a reader's answer means: no byte is the end, and an error is a failure.
fn read_answer(outcome: io::Result<usize>) -> ReadAns
    ensures { result ≡ answer_to_read outcome }
{
    match outcome {
        Ok(0) => ReadAns::End,
        Ok(count) => ReadAns::Got(count),
        Err(_) => ReadAns::Failed,
    }
}

// What a writer's answer means: no byte and an error are failures.
fn write_answer(outcome: io::Result<usize>) -> WriteAns
    ensures { result ≡ answer_to_write outcome }
{
    match outcome {
        Ok(0) => WriteAns::Failed,
        Ok(count) => WriteAns::Took(count),
        Err(_) => WriteAns::Failed,
    }
}

/// A reader as a source, seen as the reader and the count of its errors. It tells nothing of its
/// bytes.
#[derive(Drop)]
pub struct StdSource<R: Read + Drop> {
    reader: R,
    count: u64,
}

impl<R: Read + Drop> Model for StdSource<R> {
    ghost use Rattle.std.specs.Prelude.{ℕ};

    ghost Value = { R × ℕ };

    ghost view = { λ s. (s.reader, s.count) };
}

impl<R: Read + Drop> StdSource<R> {
    /// No error so far.
    pub fn new(reader: R) -> StdSource<R>
        ensures { result ≡ (reader, 0) }
    {
        StdSource { reader, count: 0 }
    }
}

impl<R: Read + Drop> Source for StdSource<R> {
    ghost left = { λ _. None };

    ghost faults = { λ s. s.1 };

    fn read(&mut self, buf: &mut [u8]) -> ReadAns
        requires { 0 < length buf.old }
        ensures moved { Reads None None buf.new result }
        ensures failed_by_fault { result ≡ ReadAns.Failed → HasRisen self.old.1 self.new.1 }
        ensures counted { self.old.1 ≤ self.new.1 }
        // A failure counts one fault, and any other answer counts none.
        ensures exact { self.new.1 ≡ count_after_read self.old.1 result }
        ensures means { Means (R.remaining self.old.0) (R.remaining self.new.0) buf.new result }
    {
        let answer = read_answer(self.reader.read(buf));
        if matches!(&answer, ReadAns::Failed) {
            self.count = self.count.saturating_add(1);
        }
        answer
    }
}

// Writes, and flushes what was taken: an error of either is one of both.
fn write_through<W: Write>(writer: &mut W, buf: &[u8]) -> io::Result<usize>
    ensures bound { IfOk result (λ count. count ≤ length buf.now) }
    ensures sent { IfOk result
        (λ count. Appends (W.contents writer.old) (W.contents writer.new) (take count buf.now)) }
{
    let count = writer.write(buf)?;
    writer.flush()?;
    Ok(count)
}

/// A writer as a sink, seen as the writer and the count of its errors. It tells nothing of its
/// bytes.
#[derive(Drop)]
pub struct StdSink<W: Write + Drop> {
    writer: W,
    count: u64,
}

impl<W: Write + Drop> Model for StdSink<W> {
    ghost use Rattle.std.specs.Prelude.{ℕ};

    ghost Value = { W × ℕ };

    ghost view = { λ s. (s.writer, s.count) };
}

impl<W: Write + Drop> StdSink<W> {
    /// No error so far.
    pub fn new(writer: W) -> StdSink<W>
        ensures { result ≡ (writer, 0) }
    {
        StdSink { writer, count: 0 }
    }
}

impl<W: Write + Drop> Sink for StdSink<W> {
    ghost held = { λ _. None };

    ghost faults = { λ s. s.1 };

    ghost wants = { λ _. 0 };

    /// What is taken is flushed at once. An error of the writer, a flush that fails and a write
    /// that takes no byte each count as a fault.
    fn write(&mut self, buf: &[u8]) -> WriteAns
        requires { 0 < length buf.now }
        ensures appended { Writes None None buf.now result }
        ensures failed_by_fault { result ≡ WriteAns.Failed → HasRisen self.old.1 self.new.1 }
        ensures counted { self.old.1 ≤ self.new.1 }
        // A failure counts one fault, and any other answer counts none.
        ensures exact { self.new.1 ≡ count_after_write self.old.1 result }
        ensures sent { Sends (W.contents self.old.0) (W.contents self.new.0) buf.now result }
    {
        let answer = write_answer(write_through(&mut self.writer, buf));
        if matches!(&answer, WriteAns::Failed) {
            self.count = self.count.saturating_add(1);
        }
        answer
    }
}
