//! Loops from their texts.
ghost use Rattle.std.specs.Prelude.{◌≡◌, ◌≤◌, ◌<◌, ◌++◌, length, codes, Ok, Err, IfOk, IsTrue, ◌↔◌, MatchOption, MatchResult};
ghost use Rattle.stored_systems.specs.PointSets.{AreClosed};
ghost use Rattle.poly_pair.specs.declared.topology.TheConstants.{MAX_DIM};
ghost use Rattle.reply_text.specs.declared.faults.Fault.TheVariants.{Syntax};
ghost use Rattle.reply_text.specs.declared.faults.ReadErr.TheVariants.{Input};
ghost use Rattle.loop_analysis.specs.Loops.{IsAssignment};
ghost use Rattle.loop_bounds.specs.Reading.{IsSilent, HasPart, IsBehind, assignment_word, refused_behind, IsDimension, IsClosedCons, IsValue, IsAssignmentLine, IsDimensionFault, IsConstraintFault, IsVariableFault, IsLineFault, IsAssignmentFault, IsRefusedFor, Adds, HasFault, Says, IsLineRefused, IsDraft, IsPartial, Spells, IsTextRefused};

use cons_sys::{ConKind, ConsSys};
use expr_text::{Fault, ReadErr, Text, read_cons, read_expr, read_frac};
use loop_analysis::{Assignment, Loop};
use poly_pair::MAX_DIM;
use row_core::Memory;
use std::alloc::Global;

/// What the lines so far say.
#[derive(Drop)]
pub enum Draft {
    /// Nothing.
    Nothing,
    /// How many variables there are.
    Dimension(usize),
    /// Where the loop starts as well.
    Started(ConsSys),
    /// The guard as well, and the assignments so far.
    Whole(Loop),
}

/// Why a text isn't a loop.
#[derive(Drop)]
pub struct LoopErr {
    /// The first line that is refused, counted from 1.
    pub line: u64,
    /// Its fault, or that memory ran out.
    pub cause: ReadErr,
}

/// Whether the line is empty or a comment.
fn is_silent(line: &[u8]) -> bool
    ensures { IsTrue result ↔ IsSilent line.now }
{
    line.is_empty() || line[0] == b'#'
}

/// What stands behind the word with which a line begins.
fn part_of<'a>(line: &'a [u8], word: &[u8]) -> Result<&'a [u8], ReadErr>
    ensures { MatchResult result (λ part. line.now ≡ word.now ++ part.now)
        (λ cause. (¬ (HasPart word.now line.now)) × (cause ≡ Input (Syntax 1))) }
{
    line.strip_prefix(word)
        .ok_or(ReadErr::Input(Fault::Syntax(1)))
}

/// What was read of the part behind a word, where a fault is shown at its column in the line.
fn read_behind<T>(word: &[u8], read: Result<T, ReadErr>) -> Result<T, ReadErr>
    ensures { MatchResult read (λ x. result ≡ Ok x)
        (λ cause. result ≡ Err (refused_behind (length word.now) cause)) }
{
    read.map_err(|cause| match cause {
        ReadErr::Input(Fault::Syntax(column)) => {
            ReadErr::Input(Fault::Syntax(column.saturating_add(word.len() as u64)))
        }
        other => other,
    })
}

/// The number of variables.
#[tactic(auto, using(crate::proofs::ReadingLemmas::number_wide, crate::proofs::ReadingLemmas::dimension_read, crate::proofs::ReadingLemmas::wrong_number, crate::proofs::ReadingLemmas::no_number))]
fn dimension_of(alloc: Global, part: &[u8]) -> Result<usize, ReadErr>
    ensures { MatchResult result (λ dim. IsDimension dim part.now)
        (IsRefusedFor (IsDimensionFault part.now)) }
{
    let row = read_expr(alloc, 0, part)?;
    match usize::try_from(row.cells()[0]) {
        Ok(dim) if dim <= MAX_DIM => Ok(dim),
        _ => Err(ReadErr::Input(Fault::TooManyDims)),
    }
}

/// The number of variables behind its word.
#[tactic(auto, using(crate::proofs::ReadingLemmas::no_word))]
fn read_dimension(alloc: Global, line: &[u8]) -> Result<usize, ReadErr>
    ensures { MatchResult result (λ dim. IsBehind (codes "variables ") line.now (IsDimension dim))
        (IsRefusedFor (IsLineFault (codes "variables ") line.now IsDimensionFault)) }
{
    let word = b"variables ";
    read_behind(word, dimension_of(alloc, part_of(line, word)?))
}

/// Whether no constraint is strict.
fn are_closed(cons: &ConsSys) -> bool
    ensures { IsTrue result ↔ AreClosed cons.now }
{
    for index in 0..cons.len() {
        if cons.kind(index) == ConKind::Gt {
            return false;
        }
    }
    true
}

/// Constraints of which none is strict.
#[tactic(auto, using(crate::proofs::ReadingLemmas::no_constraints, crate::proofs::ReadingLemmas::strict_constraints, crate::proofs::ReadingLemmas::closed_constraints))]
fn constraints_of(alloc: Global, dim: usize, part: &[u8]) -> Result<ConsSys, ReadErr>
    requires { dim ≤ MAX_DIM }
    ensures { MatchResult result (λ cs. IsClosedCons dim cs part.now)
        (IsRefusedFor (IsConstraintFault dim part.now)) }
{
    let cons = read_cons(alloc, dim, part)?;
    if !are_closed(&cons) {
        return Err(ReadErr::Input(Fault::StrictInClosed));
    }
    Ok(cons)
}

/// The constraints behind a word.
#[tactic(auto, using(crate::proofs::ReadingLemmas::no_word))]
fn read_constraints(alloc: Global, word: &[u8], dim: usize, line: &[u8]) -> Result<ConsSys, ReadErr>
    requires { dim ≤ MAX_DIM }
    ensures { MatchResult result (λ cs. IsBehind word.now line.now (IsClosedCons dim cs))
        (IsRefusedFor (IsLineFault word.now line.now (IsConstraintFault dim))) }
{
    read_behind(word, constraints_of(alloc, dim, part_of(line, word)?))
}

/// What begins an assignment to a variable.
fn assignment_word(alloc: Global, variable: usize) -> Result<Text, Memory>
    ensures { IfOk result (λ word. word ≡ assignment_word variable) }
{
    let mut word = Text::new(alloc);
    word.push(&[b'A' + (variable % 26) as u8])?;
    if variable / 26 != 0 {
        word.push_unsigned((variable / 26) as u64)?;
    }
    word.push(b" := ")?;
    Ok(word)
}

/// The assignment of a fraction to a variable.
#[tactic(auto, using(crate::proofs::ReadingLemmas::no_fraction, crate::proofs::ReadingLemmas::fraction_read))]
fn assignment_of(
    alloc: Global,
    dim: usize,
    variable: usize,
    part: &[u8],
) -> Result<Assignment, ReadErr>
    requires { dim ≤ MAX_DIM }
    ensures { MatchResult result (λ a. IsValue dim variable a part.now × IsAssignment dim a)
        (IsRefusedFor (IsVariableFault dim variable part.now)) }
{
    if variable >= dim {
        return Err(ReadErr::Input(Fault::OutOfRange));
    }
    let value = read_frac(alloc, dim, part)?;
    let _in_range = value.expr.cells();
    Ok(Assignment { variable, value })
}

/// An assignment of the body.
fn read_assignment(alloc: Global, dim: usize, line: &[u8]) -> Result<Assignment, ReadErr>
    requires { dim ≤ MAX_DIM }
    ensures { MatchResult result (λ a. IsAssignmentLine dim line.now a × IsAssignment dim a)
        (IsRefusedFor (IsAssignmentFault dim line.now)) }
{
    for variable in 0..MAX_DIM {
        let word = assignment_word(alloc, variable)?;
        if let Ok(part) = part_of(line, word.bytes()) {
            return read_behind(word.bytes(), assignment_of(alloc, dim, variable, part));
        }
    }
    Err(ReadErr::Input(Fault::Syntax(1)))
}

/// What the lines say with one more that isn't silent.
fn add_line(alloc: Global, draft: Draft, line: &[u8]) -> Result<Draft, ReadErr>
    requires { IsDraft draft }
    ensures { MatchResult result (Adds draft line.now) (IsRefusedFor (HasFault draft line.now)) }
{
    match draft {
        Draft::Nothing => Ok(Draft::Dimension(read_dimension(alloc, line)?)),
        Draft::Dimension(dim) => Ok(Draft::Started(read_constraints(alloc, b"start ", dim, line)?)),
        Draft::Started(start) => {
            let guard = read_constraints(alloc, b"while ", start.dim(), line)?;
            Ok(Draft::Whole(Loop::new(alloc, start, guard)))
        }
        Draft::Whole(mut program) => {
            let assignment = read_assignment(alloc, program.dim(), line)?;
            program.push(assignment)?;
            Ok(Draft::Whole(program))
        }
    }
}

/// What the lines say with one more.
fn read_line(alloc: Global, draft: Draft, line: &[u8]) -> Result<Draft, ReadErr>
    requires { IsDraft draft }
    ensures { MatchResult result (Says draft line.now) (IsLineRefused draft line.now) }
{
    if is_silent(line) {
        return Ok(draft);
    }
    add_line(alloc, draft, line)
}

/// The loop, where the lines give all of it.
fn whole(draft: Draft) -> Option<Loop>
    ensures { MatchOption result (IsPartial draft) (λ l. draft ≡ Draft.Whole l) }
{
    match draft {
        Draft::Whole(program) => Some(program),
        _ => None,
    }
}

/// The loop that a text spells. Its first lines give the number of variables, the constraints of
/// the start and those of the guard; each further line is an assignment. Empty lines and lines that
/// begin with `#` say nothing.
///
/// # Errors
///
/// The first line that is refused, with its fault; or `Truncated` where the guard's
/// line is missing.
pub fn read_loop(alloc: Global, text: &[u8]) -> Result<Loop, LoopErr>
    ensures { MatchResult result (Spells text.now) (IsTextRefused text.now) }
{
    let mut draft = Draft::Nothing;
    let mut number = 0u64;
    for line in text.split(|byte| *byte == b'\n') {
        number = number.saturating_add(1);
        draft = match read_line(alloc, draft, line) {
            Ok(next) => next,
            Err(cause) => return Err(LoopErr {
                line: number,
                cause,
            }),
        };
    }
    let cause = ReadErr::Input(Fault::Truncated);
    whole(draft).ok_or(LoopErr {
        line: number,
        cause,
    })
}
