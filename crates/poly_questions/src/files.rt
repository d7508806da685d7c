//! The command that writes a file.
ghost use Rattle.poly_questions.specs.Files.{write as write_of};
ghost use Rattle.line_values.specs.Performed.{IsPerformed};

use file_poly::write_file;
use line_values::{StepErr, format_of};
use poly_pair::{Poly, Topology};
use reply_text::{Fault, Text};
use row_core::Memory;
use std::alloc::Global;

/// Writes the file of the constraints, or of the generators.
pub fn write(alloc: Global, ext: bool, p: &Poly) -> Result<Text, StepErr>
    ensures { IsPerformed (write_of ext p.now) result }
{
    if p.topology() != Topology::Closed {
        return Err(StepErr::Input(Fault::NotClosed));
    }
    match write_file(alloc, format_of(ext), p) {
        Ok(text) => Ok(text),
        Err(Memory) => Err(StepErr::Memory),
    }
}
