//! Rounds of a loop, on sets of states.
ghost use Rattle.std.specs.Prelude.{◌≡◌, ◌<◌, ◌≤◌, length, slice_get, Some, IfOk, IfErr};
ghost use Rattle.row_core.specs.Refusals.{IsOverflowIn};
ghost use Rattle.poly_pair.specs.ClosedPolyhedra.{IsClosedOver};
ghost use Rattle.widening.specs.RunLaws.{IsFound};
ghost use Rattle.loop_analysis.specs.Loops.{IsAssignment};
ghost use Rattle.loop_analysis.specs.Rounds.{IsImageOf, IsRound, IsJoined, LeavesInImage, LeavesInRound, LeavesInJoin, ConvertsAssignment, ConvertsRound, ConvertsJoin};

use crate::loops::{Assignment, Loop};
use affine_maps::{ImageRel, image};
use lattice_ops::grown;
use poly_pair::Poly;
use row_core::{ConvErr, Steps};
use std::alloc::Global;
use std::sync::ledger::Ledger;
use widening::Turns;

/// What the states of a set become by an assignment.
fn assigned<L: Ledger>(
    alloc: Global,
    assignment: &Assignment,
    set: &Poly,
    steps: &mut Steps<L>,
) -> Result<Poly, ConvErr>
    requires fits { IsAssignment set.now.cons.dim assignment.now }
    ensures image { IfOk result (IsImageOf assignment.now set.now) }
    ensures overflow { IfErr result (IsOverflowIn (LeavesInImage assignment.now set.now)) }
    ensures no_fewer { steps.old ≤ steps.new }
    ensures conversion { ConvertsAssignment assignment.now set.now steps.old steps.new result }
{
    let expr = assignment.value.expr.cells();
    let den = assignment.value.den;
    let made = image(
        alloc,
        set,
        assignment.variable,
        ImageRel::Eq,
        expr,
        den,
        steps,
    )?;
    let _kept = made.dim();
    Ok(made)
}

/// What the states of a set at which the guard holds become by the body.
pub fn round<L: Ledger>(
    alloc: Global,
    program: &Loop,
    set: &Poly,
    steps: &mut Steps<L>,
) -> Result<Poly, ConvErr>
    requires { IsClosedOver program.now.dim set.now }
    ensures round { IfOk result (IsRound program.now set.now) }
    ensures closed { IfOk result (IsClosedOver program.now.dim) }
    ensures overflow { IfErr result (IsOverflowIn (LeavesInRound program.now set.now)) }
    ensures no_fewer { steps.old ≤ steps.new }
    ensures conversion { ConvertsRound program.now set.now steps.old steps.new result }
{
    let mut states = set.add_cons(program.guard(), steps)?;
    let _kept = states.dim();
    for index in 0..program.len() {
        states = assigned(alloc, program.assignment(index), &states, steps)?;
    }
    Ok(states)
}

/// What a set grows to by a round from its own states, if it grows.
fn joined<L: Ledger>(
    alloc: Global,
    program: &Loop,
    set: &Poly,
    steps: &mut Steps<L>,
) -> Result<Option<Poly>, ConvErr>
    requires { IsClosedOver program.now.dim set.now }
    ensures found { IfOk result (IsFound (IsJoined program.now set.now) set.now) }
    ensures overflow { IfErr result (IsOverflowIn (LeavesInJoin program.now set.now)) }
    ensures no_fewer { steps.old ≤ steps.new }
    ensures conversion { ConvertsJoin program.now set.now steps.old steps.new result }
{
    let states = round(alloc, program, set, steps)?;
    grown(alloc, set, &states, steps)
}

/// Lends the first set.
pub fn first(sets: &[Poly]) -> &Poly
    requires { 0 < length sets.now }
    ensures { slice_get sets.now 0 ≡ Some result.now }
{
    &sets[0]
}

/// The loop as the one turn of a run: the states of a round join those at the head.
#[derive(Drop)]
pub struct HeadTurn<'a> {
    pub program: &'a Loop,
}

impl Turns for HeadTurn<'_> {
    ghost use Rattle.loop_analysis.specs.Loops.{IsAssignment};
    ghost use Rattle.loop_analysis.specs.Rounds.{turns_of};

    ghost turns = { λ t. turns_of t.program.now };

    fn count(&self) -> usize {
        let _kept = self.program.dim();
        1
    }

    fn place(&self, _index: usize) -> usize {
        0
    }

    fn source(&self, _index: usize) -> usize {
        0
    }

    fn found<L: Ledger>(
        &self,
        alloc: Global,
        _index: usize,
        sets: &[Poly],
        steps: &mut Steps<L>,
    ) -> Result<Option<Poly>, ConvErr> {
        joined(alloc, self.program, first(sets), steps)
    }
}
