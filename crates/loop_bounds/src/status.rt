//! How a call ended.
ghost use Rattle.std.specs.Prelude.{◌≡◌};
ghost use Rattle.std.specs.Process.{exit_status};
ghost use Rattle.loop_bounds.specs.Statuses.{code_of};

use std::process::ExitCode;

/// How a call ended. The codes are those of `polycalc`.
#[derive(Clone, Copy)]
pub enum Status {
    /// The bounds were written.
    Done = 0,
    /// The line of a refusal or of an overflow was written.
    Refused = 1,
    /// A read failed.
    ReadFault = 3,
    /// A write failed.
    WriteFault = 4,
    /// Memory was refused.
    Memory = 5,
    /// The source gave more than 2^26 bytes.
    InputTooLong = 6,
}

/// The program's end with this status.
pub fn exit_code(status: Status) -> ExitCode
    ensures { exit_status result ≡ code_of status }
{
    ExitCode::from(status as u8)
}
