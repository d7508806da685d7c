//! How a call ended.
ghost use Rattle.std.specs.Prelude.{◌≡◌};
ghost use Rattle.std.specs.Process.{exit_status};
ghost use Rattle.written_replies.specs.Statuses.{code_of};

use std::process::ExitCode;

/// How a call ended, numbered from 0 as the program's exit code.
#[derive(Clone, Copy, Debug, PartialEq, Eq)]
pub enum Status {
    /// All replies were written, and none is a fault or an overflow.
    Done,
    /// All replies were written, and some is a fault or an overflow.
    Refused,
    /// The words have no meaning. Nothing was read or written.
    Usage,
    /// A read failed.
    ReadFault,
    /// A write failed.
    WriteFault,
    /// Memory was refused.
    Memory,
    /// The source gave more than 2^26 bytes.
    InputTooLong,
}

impl Status {
    /// The program's exit code.
    pub fn code(self) -> u8
        ensures { result ≡ code_of self }
    {
        self as u8
    }
}

/// The program's end with this status.
pub fn exit_code(status: Status) -> ExitCode
    ensures { exit_status result ≡ code_of status }
{
    ExitCode::from(status.code())
}
