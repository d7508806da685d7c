//! A line of the calculator, as a command.
ghost use Rattle.std.specs.Prelude.{IfOk, MatchResult};
ghost use Rattle.script_text.specs.Line.{Spells, IsUnread, PartsMatch, PartsTold};

use crate::command::Command;
use crate::making::command_of;
use line_forms::{form_of, split_word};
use reply_text::{Fault, ReadErr};
use std::alloc::Global;

/// The most bytes of a line.
const MAX_LINE: usize = 65_535;

/// The command that a line spells.
///
/// # Errors
/// `LineTooLong` exactly where the line has more than 65,535 bytes. Else `Syntax` exactly where it
/// is no line of any command, with the least column such that the bytes up to it begin no line of
/// any command, or the length plus 1 where the whole line begins one.
pub fn read_command(alloc: Global, line: &[u8]) -> Result<Command, ReadErr>
    ensures command { MatchResult result (Spells line.now) (IsUnread line.now) }
    ensures parts { IfOk result PartsMatch }
    ensures told { IfOk result PartsTold }
{
    if line.len() > MAX_LINE {
        return Err(ReadErr::Input(Fault::LineTooLong));
    }
    let (word, rest) = split_word(line);
    match form_of(line, word, rest) {
        Ok(form) => command_of(alloc, form, rest),
        Err(column) => Err(ReadErr::Input(Fault::Syntax(column as u64))),
    }
}
