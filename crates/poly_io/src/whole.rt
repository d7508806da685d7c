//! Reading all of a source, and writing all of some bytes.
ghost use Rattle.std.specs.Prelude.{◌≡◌, ℕ, ◌^◌, ◌<◌, ◌≤◌, ◌↔◌, List, length, take, vec_len, IfOk, OnOk, OnErr, IsErrOf};
ghost use Rattle.std.specs.Io.KnownBytes.{append_known, IsAtEnd};
ghost use Rattle.poly_io.specs.Counts.{HasRisen};
ghost use Rattle.poly_io.specs.Reads.{Gave};
ghost use Rattle.poly_io.specs.Whole.{AnswersGiven};
ghost use Rattle.poly_io.specs.declared.whole.ReadAllErr.TheVariants.{Memory as ReadMemory};

use super::reading::{ReadAns, Source};
use super::writing::{Sink, WriteAns};
use std::alloc::{AllocError, Global};

/// Why a source could not be read whole.
#[derive(Clone, Copy, Debug, PartialEq, Eq)]
pub enum ReadAllErr {
    /// A read failed.
    Failed,
    /// The source gave more bytes than the limit.
    TooLong,
    /// Memory was refused.
    Memory,
}

impl From<AllocError> for ReadAllErr {
    ghost from_gives = { λ _ e. e ≡ ReadMemory };

    fn from(_e: AllocError) -> ReadAllErr {
        ReadAllErr::Memory
    }
}

/// Why bytes could not be written whole.
#[derive(Clone, Copy, Debug, PartialEq, Eq)]
pub enum WriteAllErr {
    /// A write failed.
    Failed,
    /// Memory was refused.
    Memory,
}

/// How many bytes are asked for at a time, 2^16.
pub const ROOM: usize = 65_536;

/// Reads a source to its end, unless it gives more than `limit` bytes: then no more is read.
pub fn read_all<S: Source>(
    alloc: Global,
    source: &mut S,
    limit: usize,
) -> Result<Vec<u8>, ReadAllErr>
    ensures given { Gave (S.left source.old) (S.left source.new)
        (λ given. AnswersGiven given limit (2 ^ 16) result) }
    ensures end { OnOk result (IsAtEnd (S.left source.new)) }
    ensures failed_by_fault { IsErrOf result ReadAllErr.Failed
        → HasRisen (S.faults source.old) (S.faults source.new) }
    ensures counted { S.faults source.old ≤ S.faults source.new }
{
    let mut buf = room_of(alloc, ROOM)?;
    gather(alloc, source, &mut buf, limit)
}

// A buffer with room for so many bytes.
fn room_of(alloc: Global, count: usize) -> Result<Vec<u8>, AllocError>
    ensures { IfOk result (λ buf. vec_len buf ≡ count) }
{
    vec![in alloc; 0u8; count]
}

// Reads all, through a buffer.
fn gather<S: Source>(
    alloc: Global,
    source: &mut S,
    buf: &mut [u8],
    limit: usize,
) -> Result<Vec<u8>, ReadAllErr>
    requires { 0 < length buf.old }
    ensures given { Gave (S.left source.old) (S.left source.new)
        (λ given. AnswersGiven given limit (length buf.old) result) }
    ensures end { OnOk result (IsAtEnd (S.left source.new)) }
    ensures failed_by_fault { IsErrOf result ReadAllErr.Failed
        → HasRisen (S.faults source.old) (S.faults source.new) }
    ensures counted { S.faults source.old ≤ S.faults source.new }
{
    let mut bytes = Vec::new(alloc);
    loop {
        match source.read(buf) {
            ReadAns::Got(count) => {
                if count > limit - bytes.len() {
                    return Err(ReadAllErr::TooLong);
                }
                bytes.extend_from_slice(&buf[..count])?;
            }
            ReadAns::End => return Ok(bytes),
            ReadAns::Failed => return Err(ReadAllErr::Failed),
        }
    }
}

/// Writes all the bytes, in as many calls as the sink wants.
#[tactic(auto, using(crate::proofs::Known::write_steps))]
pub fn write_all<W: Sink>(sink: &mut W, bytes: &[u8]) -> Result<(), WriteAllErr>
    ensures written { OnOk result (W.held sink.new ≡ append_known (W.held sink.old) bytes.now) }
    ensures partly { (count : ℕ)
        × (W.held sink.new ≡ append_known (W.held sink.old) (take count bytes.now)) }
    ensures failed_by_fault { IsErrOf result WriteAllErr.Failed
        → HasRisen (W.faults sink.old) (W.faults sink.new) }
    ensures counted { W.faults sink.old ≤ W.faults sink.new }
    ensures memory_by_want { IsErrOf result WriteAllErr.Memory
        → HasRisen (W.wants sink.old) (W.wants sink.new) }
    ensures wants_counted { W.wants sink.old ≤ W.wants sink.new }
{
    let mut at = 0;
    while at < bytes.len() {
        match sink.write(&bytes[at..]) {
            WriteAns::Took(count) => at += count,
            WriteAns::Failed => return Err(WriteAllErr::Failed),
            WriteAns::Memory => return Err(WriteAllErr::Memory),
        }
    }
    Ok(())
}
