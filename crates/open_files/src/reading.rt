//! A file that is being read.
ghost use Rattle.std.specs.Prelude.{◌≡◌, ◌<◌, [], take, IfOk, OnOk, OnErr, MatchResult};
ghost use Rattle.cdd_reading.specs.Refusals.{tests, NoneOf, IsRefusal};
ghost use Rattle.file_poly.specs.Files.{IsFit, IsListOf};
ghost use Rattle.line_values.specs.Operands.{format_of as named_format};
ghost use Rattle.open_files.specs.OpenFiles.{with_line, IsFileRead};

use file_poly::{Listed, read_file};
use line_values::{StepErr, format_of, is_proper};
use poly_pair::Poly;
use reply_text::{Fault, ReadErr, Text};
use row_core::{Memory, Steps};
use std::alloc::Global;
use std::marker::Model;
use std::sync::ledger::Ledger;

/// How many bytes of a line are kept.
const KEPT: usize = 65_536;

/// A file that is being read.
pub struct OpenFile {
    /// The name of its polyhedron.
    pub name: Text,
    /// Whether it is a file of generators.
    pub ext: bool,
    /// Its lines so far, each with its line end.
    pub text: Vec<u8>,
}

// Written by hand, so that a function that drops a file calls this one, and doesn't free each part
// itself.
impl Drop for OpenFile {
    fn drop(self) {
        let OpenFile {
            name: _,
            ext: _,
            text: _,
        } = self;
    }
}

impl Model for OpenFile {
    ghost use Rattle.open_files.specs.OpenFiles.{OpenFile as SoFar};

    ghost Value = { SoFar };

    ghost view = { λ f. record { name = f.name; ext = f.ext; text = f.text.items } };
}

// The bytes of a line that are kept.
fn first_bytes(line: &[u8]) -> &[u8]
    ensures { result.now ≡ take 65536 line.now }
{
    if line.len() > KEPT {
        &line[..KEPT]
    } else {
        line
    }
}

impl OpenFile {
    /// A file without lines so far.
    pub fn new(alloc: Global, name: &Text, ext: bool) -> Result<OpenFile, Memory>
        ensures { IfOk result (λ file. file ≡ record { name = name.now; ext = ext; text = [] }) }
    {
        Ok(OpenFile {
            name: name.clone()?,
            ext,
            text: Vec::new(alloc),
        })
    }

    /// Adds a line. Out of memory, the file is as before.
    pub fn add_line(&mut self, line: &[u8]) -> Result<(), Memory>
        ensures ok { OnOk result (self.new ≡ with_line self.old line.now) }
        ensures err { OnErr result (self.new ≡ self.old) }
    {
        let kept = first_bytes(line);
        self.text.reserve(kept.len() + 2)?;
        self.text.extend_from_slice(kept)?;
        self.text.push_reserved(b'\r');
        self.text.push_reserved(b'\n');
        Ok(())
    }

    /// The file with one line more.
    pub fn with_last(&self, alloc: Global, line: &[u8]) -> Result<OpenFile, Memory>
        ensures { IfOk result (λ file. file ≡ with_line self.now line.now) }
    {
        let mut file = OpenFile {
            name: self.name.clone()?,
            ext: self.ext,
            text: Vec::from_slice(alloc, self.text.as_slice())?,
        };
        file.add_line(line)?;
        Ok(file)
    }

    // Its list.
    fn read(&self, alloc: Global) -> Result<Listed, ReadErr>
        ensures read { MatchResult result
            (λ list. IsListOf (named_format self.now.ext) self.now.text list
            × NoneOf (tests (named_format self.now.ext) self.now.text))
            (IsRefusal (tests (named_format self.now.ext) self.now.text)) }
        ensures fit { IfOk result IsFit }
    {
        read_file(alloc, format_of(self.ext), self.text.as_slice())
    }
}

/// The polyhedron of a whole file, where there is room for its name.
pub fn read_whole<L: Ledger>(
    alloc: Global,
    file: &OpenFile,
    full: bool,
    steps: &mut Steps<L>,
) -> Result<Poly, StepErr>
    ensures { IsFileRead full file.now result }
{
    let list = match file.read(alloc) {
        Ok(list) => list,
        Err(cause) => return Err(StepErr::from(cause)),
    };
    if full {
        return Err(StepErr::Input(Fault::TooManyNames));
    }
    let made = match list.polyhedron(alloc, steps) {
        Ok(made) => made,
        Err(cause) => return Err(StepErr::from(cause)),
    };
    is_proper(&made);
    Ok(made)
}
