//! What a sink for bytes is.
ghost use Rattle.std.specs.Prelude.{◌≡◌, ℕ, ◌<◌, ◌≤◌, List, length, Option};
ghost use Rattle.poly_io.specs.Counts.{HasRisen};
ghost use Rattle.poly_io.specs.Writes.{Writes};

/// What a sink answers to a write.
#[derive(Clone, Copy, Debug, PartialEq, Eq)]
pub enum WriteAns {
    /// This many bytes were taken from the front, one at least.
    Took(usize),
    /// The write failed, and no byte was taken.
    Failed,
    /// Memory was refused, and no byte was taken.
    Memory,
}

/// A place that bytes are written to, in pieces of the sink's choice.
pub trait Sink {
    // The bytes held, where the sink tells them.
    ghost held: { Self → Option (List ℕ) };

    // How many faults there were so far.
    ghost faults: { Self → ℕ };

    // How often memory was refused to it so far.
    ghost wants: { Self → ℕ };

    /// Appends the first bytes of the buffer to what is held.
    fn write(&mut self, buf: &[u8]) -> WriteAns
        requires { 0 < length buf.now }
        ensures appended { Writes (held self.old) (held self.new) buf.now result }
        ensures failed_by_fault { result ≡ WriteAns.Failed
            → HasRisen (faults self.old) (faults self.new) }
        ensures counted { faults self.old ≤ faults self.new }
        ensures memory_by_want { result ≡ WriteAns.Memory
            → HasRisen (wants self.old) (wants self.new) }
        ensures wants_counted { wants self.old ≤ wants self.new };
}
