//! Lines that answer a question.
ghost use Rattle.std.specs.Prelude.{◌≡◌, ◌++◌, ◌∷◌, [], ◌≤◌, codes, IfOk, MatchResult};
ghost use Rattle.row_core.specs.Points.{IsPoint};
ghost use Rattle.row_core.specs.Content.{IsPrimitive};
ghost use Rattle.gens_sys.specs.declared.kind.GenKind.TheVariants.{Point};
ghost use Rattle.expr_text.specs.Printed.{generator_text};
ghost use Rattle.poly_pair.specs.declared.topology.TheConstants.{MAX_DIM};
ghost use Rattle.line_values.specs.Meaning.{line, answer_line};
ghost use Rattle.line_values.specs.declared.refusal.StepErr.TheVariants as refusal;

use crate::change::as_line;
use crate::refusal::StepErr;
use expr_text::print_gen;
use gens_sys::{GenKind, GenPushErr, GensSys};
use reply_text::Text;
use row_core::{Memory, RowBuf};
use std::alloc::Global;

/// The line `yes` or `no`.
pub fn answer(alloc: Global, holds: bool) -> Result<Text, StepErr>
    ensures { MatchResult result (λ text. text ≡ answer_line holds)
        (λ cause. cause ≡ refusal.Memory) }
{
    let mut text = Text::new(alloc);
    text.push(if holds { b"yes\n" } else { b"no\n" })?;
    Ok(text)
}

/// The line `no` with a point.
pub fn no_with_point(alloc: Global, dim: usize, point: RowBuf) -> Result<Text, Memory>
    requires narrow { dim ≤ MAX_DIM }
    requires point { IsPoint dim point }
    requires primitive { IsPrimitive point }
    ensures { IfOk result (λ text. text ≡ line (codes "no " ++ generator_text dim (point, Point))) }
{
    let gens = only_point(alloc, dim, point)?;
    let mut text = Text::new(alloc);
    text.push(b"no ")?;
    text.push(print_gen(alloc, &gens, 0)?.bytes())?;
    as_line(text)
}

/// The system of the one point.
fn only_point(alloc: Global, dim: usize, point: RowBuf) -> Result<GensSys, Memory>
    requires narrow { dim ≤ MAX_DIM }
    requires point { IsPoint dim point }
    requires primitive { IsPrimitive point }
    ensures dim { IfOk result (λ gens. gens.dim ≡ dim) }
    ensures list { IfOk result (λ gens. gens.list ≡ (point, Point) ∷ []) }
{
    let mut gens = GensSys::new(alloc, dim);
    match gens.push_row(point, GenKind::Point) {
        Ok(()) => Ok(gens),
        Err(GenPushErr::Memory) => Err(Memory),
        Err(_) => unreachable!(),
    }
}
