//! The commands that make the ranking functions of a relation, and that say one of them.
ghost use Rattle.std.specs.Prelude.{◌≡◌, ◌≢◌, ◌%◌, ◌≤◌, MatchBool, IfOk};
ghost use Rattle.std.specs.Option.{option_copied};
ghost use Rattle.poly_pair.specs.declared.topology.Topology.TheVariants.{Closed};
ghost use Rattle.line_values.specs.Meaning.{on_one};
ghost use Rattle.ranking.specs.Commands.{rank as make_rank, ranking as tell_ranking, IsRankingLine};
ghost use Rattle.line_values.specs.Performed.{IsPerformed};

use crate::printing::print_ranking;
use crate::sets::ranking_set;
use line_values::{StepErr, as_line, is_proper};
use poly_pair::{Poly, Topology};
use reply_text::{Fault, Text};
use row_core::{Memory, Steps};
use std::alloc::Global;
use std::sync::ledger::Ledger;

/// Whether the polyhedron is closed.
fn is_closed(p: &Poly) -> bool
    ensures { MatchBool result (p.now.topology ≡ Closed) (p.now.topology ≢ Closed) }
{
    p.topology() == Topology::Closed
}

/// Whether a relation has as many variables of states as of their successors.
fn has_even_dim(p: &Poly) -> bool
    ensures { MatchBool result (p.now.cons.dim % 2 ≡ 0) (p.now.cons.dim % 2 ≢ 0) }
{
    p.dim() % 2 == 0
}

/// The ranking functions of a relation, as points of their coefficients and their constant.
pub fn rank<L: Ledger>(
    alloc: Global,
    r: Option<&Poly>,
    full: bool,
    steps: &mut Steps<L>,
) -> Result<Poly, StepErr>
    ensures { IsPerformed (on_one (option_copied r.entry) (make_rank full)) result }
{
    let Some(r) = r else {
        return Err(StepErr::Input(Fault::UnknownName));
    };
    if !is_closed(r) {
        return Err(StepErr::Input(Fault::NotClosed));
    }
    if !has_even_dim(r) {
        return Err(StepErr::Input(Fault::DimMismatch));
    }
    if full {
        return Err(StepErr::Input(Fault::TooManyNames));
    }
    match ranking_set(alloc, r, steps) {
        Ok(made) => Ok(made),
        Err(cause) => Err(StepErr::from(cause)),
    }
}

/// One of the ranking functions of a relation, or that there is none.
pub fn ranking<L: Ledger>(
    alloc: Global,
    r: Option<&Poly>,
    steps: &mut Steps<L>,
) -> Result<Text, StepErr>
    ensures { IsPerformed (on_one (option_copied r.entry) tell_ranking) result }
{
    let Some(r) = r else {
        return Err(StepErr::Input(Fault::UnknownName));
    };
    if !is_closed(r) {
        return Err(StepErr::Input(Fault::NotClosed));
    }
    if !has_even_dim(r) {
        return Err(StepErr::Input(Fault::DimMismatch));
    }
    match ranking_set(alloc, r, steps) {
        Ok(functions) => Ok(ranking_line(alloc, &functions)?),
        Err(cause) => Err(StepErr::from(cause)),
    }
}

/// The line of one of the functions.
fn ranking_line(alloc: Global, functions: &Poly) -> Result<Text, Memory>
    requires closed { functions.now.topology ≡ Closed }
    requires some { 1 ≤ functions.now.cons.dim }
    ensures { IfOk result (IsRankingLine functions.now) }
{
    is_proper(functions);
    as_line(print_ranking(alloc, functions)?)
}
