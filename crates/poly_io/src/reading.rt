//! What a source of bytes is.
ghost use Rattle.std.specs.Prelude.{◌≡◌, ℕ, ◌<◌, ◌≤◌, List, length, Option};
ghost use Rattle.poly_io.specs.Counts.{HasRisen};
ghost use Rattle.poly_io.specs.Reads.{Reads};

/// What a source answers to a read.
#[derive(Clone, Copy, Debug, PartialEq, Eq)]
pub enum ReadAns {
    /// This many bytes stand at the front of the buffer, one at least.
    Got(usize),
    /// No byte is left.
    End,
    /// The read failed, and no byte was taken.
    Failed,
}

/// Bytes to be read, in pieces of the source's choice.
pub trait Source {
    // The bytes left, where the source tells them.
    ghost left: { Self → Option (List ℕ) };

    // How many faults there were so far.
    ghost faults: { Self → ℕ };

    /// Moves the first bytes of what is left to the front of the buffer.
    fn read(&mut self, buf: &mut [u8]) -> ReadAns
        requires { 0 < length buf.old }
        ensures moved { Reads (left self.old) (left self.new) buf.new result }
        ensures failed_by_fault { result ≡ ReadAns.Failed
            → HasRisen (faults self.old) (faults self.new) }
        ensures counted { faults self.old ≤ faults self.new };
}
