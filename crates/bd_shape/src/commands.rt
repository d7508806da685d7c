//! The commands that make bounded-difference shapes, and those that combine, ask and print them.
ghost use Rattle.std.specs.Prelude.{◌≡◌, IfOk, IfErr};
ghost use Rattle.std.specs.Option.{option_copied};
ghost use Rattle.row_core.specs.Refusals.{IsOverflowIn};
ghost use Rattle.grammar.specs.Form.{Matches};
ghost use Rattle.grammar.specs.Grammar.{alone};
ghost use Rattle.grammar.specs.Cases.{cons_cases};
ghost use Rattle.script_text.specs.Commands.{is_strict};
ghost use Rattle.expr_text.specs.Printed.{constraints_text};
ghost use Rattle.bd_shape.specs.Rows.{shape_constraints};
ghost use Rattle.line_values.specs.Meaning.{on_one, on_two, line};
ghost use Rattle.bd_shape.specs.Commands.{shape as make_shape, bounds as make_bounds, of_two_shapes as make_of_two, shape_contains as ask_contains, shape_print as tell_shape, shape_poly as make_poly, refusal_of_shape as named_refusal, IsSetOfShapes, LeavesInShapes};
ghost use Rattle.line_values.specs.Performed.{IsPerformed};

use crate::given::shape_from;
use crate::listing::{self, shape_rows};
use crate::pairs::{self, shape_hull, shape_meet};
use crate::refusal::ShapeErr;
use crate::shape::Shape;
use crate::suprema::shape_of;
use expr_text::{one_answer, print_cons};
use line_values::{StepErr, answer, as_line, constraints_of};
use poly_pair::{MAX_DIM, Poly, Topology};
use reply_text::{Fault, Text};
use row_core::{ConvErr, Memory, Steps};
use script_text::{Part, ShapeOperator};
use std::alloc::Global;
use std::sync::ledger::Ledger;

/// The smallest shape that includes a closed polyhedron.
pub fn shape_of_set(alloc: Global, p: Option<&Poly>, full: bool) -> Result<Shape, StepErr>
    ensures { IsPerformed (on_one (option_copied p.entry) (make_shape full)) result }
{
    let Some(p) = p else {
        return Err(StepErr::Input(Fault::UnknownName));
    };
    if p.topology() != Topology::Closed {
        return Err(StepErr::Input(Fault::NotClosed));
    }
    if full {
        return Err(StepErr::Input(Fault::TooManyNames));
    }
    match shape_of(alloc, p) {
        Ok(made) => Ok(made),
        Err(cause) => Err(StepErr::from(cause)),
    }
}

/// Why a line is refused that makes no shape. A constraint that bounds no difference comes before
/// want of room for a name, and this before an overflow.
fn refusal_of_shape(cause: ShapeErr, full: bool) -> StepErr
    ensures { result ≡ named_refusal cause full }
{
    match cause {
        ShapeErr::NotDifference => StepErr::Input(Fault::NotDifference),
        ShapeErr::Overflow(_) if full => StepErr::Input(Fault::TooManyNames),
        ShapeErr::Overflow(over) => StepErr::Overflow(over),
        ShapeErr::Memory => StepErr::Memory,
    }
}

/// The shape of the points at which the constraints of a text hold.
pub fn bounds(alloc: Global, n: u64, part: &Part, full: bool) -> Result<Shape, StepErr>
    requires form { Matches (alone cons_cases) part.now.text }
    requires told { part.now.strict ≡ is_strict part.now.text }
    ensures { IsPerformed (make_bounds full n part.now) result }
{
    one_answer();
    if n > MAX_DIM as u64 {
        return Err(StepErr::Input(Fault::TooManyDims));
    }
    let system = match constraints_of(alloc, Topology::Closed, part, n as usize) {
        Ok(system) => system,
        Err(cause) => return Err(cause),
    };
    match shape_from(alloc, &system) {
        Ok(_) if full => Err(StepErr::Input(Fault::TooManyNames)),
        Ok(made) => Ok(made),
        Err(cause) => Err(refusal_of_shape(cause, full)),
    }
}

/// The meet or the hull.
fn combine(alloc: Global, op: ShapeOperator, s: &Shape, t: &Shape) -> Result<Shape, ConvErr>
    requires { t.now.dim ≡ s.now.dim }
    ensures dim { IfOk result (λ r. r.dim ≡ s.now.dim) }
    ensures set { IfOk result (IsSetOfShapes op s.now t.now) }
    ensures overflow { IfErr result (IsOverflowIn (LeavesInShapes op s.now t.now)) }
{
    match op {
        ShapeOperator::Meet => shape_meet(alloc, s, t),
        ShapeOperator::Hull => shape_hull(alloc, s, t),
    }
}

/// The points that are in both shapes, or the smallest shape that includes both.
pub fn of_two_shapes(
    alloc: Global,
    op: ShapeOperator,
    s: Option<&Shape>,
    t: Option<&Shape>,
    full: bool,
) -> Result<Shape, StepErr>
    ensures { IsPerformed (on_two (option_copied s.entry) (option_copied t.entry)
        (make_of_two op full)) result }
{
    let Some(s) = s else {
        return Err(StepErr::Input(Fault::UnknownName));
    };
    let Some(t) = t else {
        return Err(StepErr::Input(Fault::UnknownName));
    };
    if s.dim() != t.dim() {
        return Err(StepErr::Input(Fault::DimMismatch));
    }
    if full {
        return Err(StepErr::Input(Fault::TooManyNames));
    }
    match combine(alloc, op, s, t) {
        Ok(made) => Ok(made),
        Err(cause) => Err(StepErr::from(cause)),
    }
}

/// Whether each point of the second shape is in the first.
pub fn shape_contains(alloc: Global, s: Option<&Shape>, t: Option<&Shape>) -> Result<Text, StepErr>
    ensures { IsPerformed (on_two (option_copied s.entry) (option_copied t.entry) ask_contains)
        result }
{
    let Some(s) = s else {
        return Err(StepErr::Input(Fault::UnknownName));
    };
    let Some(t) = t else {
        return Err(StepErr::Input(Fault::UnknownName));
    };
    if s.dim() != t.dim() {
        return Err(StepErr::Input(Fault::DimMismatch));
    }
    match pairs::shape_contains(alloc, s, t) {
        Ok(holds) => answer(alloc, holds),
        Err(cause) => Err(StepErr::from(cause)),
    }
}

/// The constraints of a shape.
pub fn shape_print(alloc: Global, s: Option<&Shape>) -> Result<Text, StepErr>
    ensures { IsPerformed (on_one (option_copied s.entry) tell_shape) result }
{
    let Some(s) = s else {
        return Err(StepErr::Input(Fault::UnknownName));
    };
    Ok(shape_line(alloc, s)?)
}

/// The line of the constraints of a shape.
fn shape_line(alloc: Global, s: &Shape) -> Result<Text, Memory>
    ensures { IfOk result (λ text. text ≡ line (constraints_text (shape_constraints s.now))) }
{
    let rows = shape_rows(alloc, s)?;
    as_line(print_cons(alloc, &rows)?)
}

/// The polyhedron of a shape's points.
pub fn shape_poly<L: Ledger>(
    alloc: Global,
    s: Option<&Shape>,
    full: bool,
    steps: &mut Steps<L>,
) -> Result<Poly, StepErr>
    ensures { IsPerformed (on_one (option_copied s.entry) (make_poly full)) result }
{
    let Some(s) = s else {
        return Err(StepErr::Input(Fault::UnknownName));
    };
    if full {
        return Err(StepErr::Input(Fault::TooManyNames));
    }
    let _kept = s.dim();
    match listing::shape_poly(alloc, s, steps) {
        Ok(made) => Ok(made),
        Err(cause) => Err(StepErr::from(cause)),
    }
}
