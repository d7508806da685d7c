//! What the parts of commands say.
ghost use Rattle.std.specs.Prelude.{◌≡◌, ◌≤◌, MatchBool, MatchResult};
ghost use Rattle.grammar.specs.Form.{Matches};
ghost use Rattle.grammar.specs.Grammar.{alone};
ghost use Rattle.grammar.specs.Cases.{con_cases, cons_cases, expr_cases, gens_cases, point_cases, frac_cases};
ghost use Rattle.script_text.specs.Commands.{is_strict};
ghost use Rattle.poly_pair.specs.declared.topology.TheConstants.{MAX_DIM};
ghost use Rattle.line_values.specs.Texts.{IsStrictIn, constraints_fault, generators_fault, point_fault, constraint_fault, expression_fault, IsTextRefusal, refusal_of_unread, ReadsConstraints, ReadsGenerators, ReadsPoint, ReadsConstraint, ReadsExpression, IsStrictFor, fraction_fault, ReadsFraction};

use crate::refusal::StepErr;
use cons_sys::ConsSys;
use expr_text::{gens_of, one_answer};
use gens_sys::GensSys;
use poly_pair::{Poly, Topology};
use reply_text::{Fault, ReadErr};
use row_core::RowBuf;
use script_text::{Part, Rel};
use std::alloc::Global;
use term_text::{Frac, OneCon, con_of, cons_of, expr_of};

/// Whether a strict relation or a closure point stands in the part, for a closed polyhedron.
fn is_strict_in(topology: Topology, part: &Part) -> bool
    ensures { MatchBool result (IsStrictIn topology part.now) (¬ (IsStrictIn topology part.now)) }
{
    match topology {
        Topology::Closed => part.strict,
        Topology::Nnc => false,
    }
}

/// The system of the constraints that the part says, for a polyhedron of the topology.
pub fn constraints_of(
    alloc: Global,
    topology: Topology,
    part: &Part,
    dim: usize,
) -> Result<ConsSys, StepErr>
    requires narrow { dim ≤ MAX_DIM }
    requires form { Matches (alone cons_cases) part.now.text }
    requires told { part.now.strict ≡ is_strict part.now.text }
    ensures { MatchResult result (ReadsConstraints topology dim part.now)
        (IsTextRefusal (constraints_fault topology dim part.now)) }
{
    one_answer();
    let strict = is_strict_in(topology, part);
    match cons_of(alloc, dim, part.text.bytes()) {
        Ok(_) if strict => Err(StepErr::Input(Fault::StrictInClosed)),
        Ok(system) => Ok(system),
        Err(cause) => Err(StepErr::from(cause)),
    }
}

/// The system of the generators that the part says, for a polyhedron of the topology.
pub fn generators_of(
    alloc: Global,
    topology: Topology,
    part: &Part,
    dim: usize,
) -> Result<GensSys, StepErr>
    requires narrow { dim ≤ MAX_DIM }
    requires form { Matches (alone gens_cases) part.now.text }
    requires told { part.now.strict ≡ is_strict part.now.text }
    ensures { MatchResult result (ReadsGenerators topology dim part.now)
        (IsTextRefusal (generators_fault topology dim part.now)) }
{
    one_answer();
    let strict = is_strict_in(topology, part);
    match gens_of(alloc, dim, part.text.bytes()) {
        Ok(_) if strict => Err(StepErr::Input(Fault::StrictInClosed)),
        Ok(system) => Ok(system),
        Err(cause) => Err(unread_refusal(cause, strict)),
    }
}

/// Why generators are refused that were not read. A closure point that is refused comes before a
/// zero vector.
fn unread_refusal(cause: ReadErr, strict: bool) -> StepErr
    ensures { result ≡ refusal_of_unread cause strict }
{
    match cause {
        ReadErr::Input(Fault::ZeroVector) if strict => StepErr::Input(Fault::StrictInClosed),
        cause => StepErr::from(cause),
    }
}

/// The vector of the point that the part says.
pub fn point_of(alloc: Global, part: &Part, dim: usize) -> Result<RowBuf, StepErr>
    requires narrow { dim ≤ MAX_DIM }
    requires form { Matches (alone point_cases) part.now.text }
    ensures { MatchResult result (ReadsPoint dim part.now)
        (IsTextRefusal (point_fault dim part.now)) }
{
    one_answer();
    match term_text::point_of(alloc, dim, part.text.bytes()) {
        Ok(point) => Ok(point),
        Err(cause) => Err(StepErr::from(cause)),
    }
}

/// The row and the kind of the constraint that the part says.
pub fn constraint_of(alloc: Global, part: &Part, dim: usize) -> Result<OneCon, StepErr>
    requires narrow { dim ≤ MAX_DIM }
    requires form { Matches (alone con_cases) part.now.text }
    ensures { MatchResult result (λ con. ReadsConstraint dim part.now con.row con.kind)
        (IsTextRefusal (constraint_fault dim part.now)) }
{
    one_answer();
    match con_of(alloc, dim, part.text.bytes()) {
        Ok(con) => Ok(con),
        Err(cause) => Err(StepErr::from(cause)),
    }
}

/// The row of the expression that the part says.
pub fn expression_of(alloc: Global, part: &Part, dim: usize) -> Result<RowBuf, StepErr>
    requires narrow { dim ≤ MAX_DIM }
    requires form { Matches (alone expr_cases) part.now.text }
    ensures { MatchResult result (ReadsExpression dim part.now)
        (IsTextRefusal (expression_fault dim part.now)) }
{
    one_answer();
    match expr_of(alloc, dim, part.text.bytes()) {
        Ok(row) => Ok(row),
        Err(cause) => Err(StepErr::from(cause)),
    }
}

/// Whether the relation is strict, and the set closed.
fn is_strict_for(topology: Topology, rel: Rel) -> bool
    ensures { MatchBool result (IsStrictFor topology rel) (¬ (IsStrictFor topology rel)) }
{
    match (topology, rel) {
        (Topology::Closed, Rel::Gt) => true,
        (Topology::Closed, Rel::Lt) => true,
        _ => false,
    }
}

/// The expression and the divisor that the part says, for a variable of the set that stands so to
/// them.
pub fn fraction_of(alloc: Global, p: &Poly, v: u64, rel: Rel, part: &Part) -> Result<Frac, StepErr>
    requires form { Matches (alone frac_cases) part.now.text }
    ensures { MatchResult result
        (λ frac. ReadsFraction p.now.topology p.now.cons.dim v rel part.now frac.expr frac.den)
        (IsTextRefusal (fraction_fault p.now.topology p.now.cons.dim v rel part.now)) }
{
    one_answer();
    let strict = is_strict_for(p.topology(), rel);
    let dim = p.dim();
    if v >= dim as u64 {
        return Err(StepErr::Input(Fault::OutOfRange));
    }
    match term_text::frac_of(alloc, dim, part.text.bytes()) {
        Ok(_) if strict => Err(StepErr::Input(Fault::StrictInClosed)),
        Ok(frac) => Ok(frac),
        Err(cause) => Err(StepErr::from(cause)),
    }
}
