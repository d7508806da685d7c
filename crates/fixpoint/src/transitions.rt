//! The transitions of a system as turns of a run.
ghost use Rattle.std.specs.Prelude.{◌≡◌, ◌*◌, ◌≤◌, IfOk, IfErr};
ghost use Rattle.poly_pair.specs.ClosedPolyhedra.{IsClosedOver};
ghost use Rattle.row_core.specs.Refusals.{IsOverflowIn};
ghost use Rattle.widening.specs.RunLaws.{IsFound};
ghost use Rattle.fixpoint.specs.Runs.{IsHullWithSuccessors, LeavesByGenerators, LeavesByPost, LeavesBothWays, ConvertsByGenerators, ConvertsByPost, ConvertsBothWays};

use crate::successors::post;
use affine_maps::post_generators;
use lattice_ops::{grown, grown_by};
use poly_pair::Poly;
use row_core::{ConvErr, Steps};
use std::alloc::Global;
use std::sync::ledger::Ledger;
use trans_sys::{System, set_of};
use widening::Turns;

/// What [`joined`] gives, by generators of the post, which isn't made where the set of the target
/// has all that they span.
fn joined_by_generators<L: Ledger>(
    alloc: Global,
    source: &Poly,
    relation: &Poly,
    old: &Poly,
    steps: &mut Steps<L>,
) -> Result<Option<Poly>, ConvErr>
    requires source { IsClosedOver old.now.cons.dim source.now }
    requires relation { IsClosedOver (2 * old.now.cons.dim) relation.now }
    requires old { IsClosedOver old.now.cons.dim old.now }
    ensures found { IfOk result
        (IsFound (IsHullWithSuccessors source.now relation.now old.now) old.now) }
    ensures overflow { IfErr result
        (IsOverflowIn (LeavesByGenerators source.now relation.now old.now)) }
    ensures no_fewer { steps.old ≤ steps.new }
    ensures conversion { ConvertsByGenerators source.now relation.now old.now steps.old steps.new
        result }
{
    let _fit = old.cons().dim();
    let found = match post_generators(alloc, source, relation, steps) {
        Ok(found) => found,
        Err(cause) => return Err(cause),
    };
    let Some(generators) = found else {
        return Ok(None);
    };
    grown_by(alloc, old, &generators, steps)
}

/// What [`joined`] gives, by the post.
fn joined_by_post<L: Ledger>(
    alloc: Global,
    source: &Poly,
    relation: &Poly,
    old: &Poly,
    steps: &mut Steps<L>,
) -> Result<Option<Poly>, ConvErr>
    requires source { IsClosedOver old.now.cons.dim source.now }
    requires relation { IsClosedOver (2 * old.now.cons.dim) relation.now }
    requires old { IsClosedOver old.now.cons.dim old.now }
    ensures found { IfOk result
        (IsFound (IsHullWithSuccessors source.now relation.now old.now) old.now) }
    ensures overflow { IfErr result (IsOverflowIn (LeavesByPost source.now relation.now old.now)) }
    ensures no_fewer { steps.old ≤ steps.new }
    ensures conversion { ConvertsByPost source.now relation.now old.now steps.old steps.new result }
{
    let successors = match post(alloc, source, relation, steps) {
        Ok(successors) => successors,
        Err(cause) => return Err(cause),
    };
    let _kept = successors.dim();
    grown(alloc, old, &successors, steps)
}

/// What the set of a transition's target grows to by the post of that of its source, if it grows:
/// by generators of the post, and behind an overflow of these by the post.
fn joined<L: Ledger>(
    alloc: Global,
    source: &Poly,
    relation: &Poly,
    old: &Poly,
    steps: &mut Steps<L>,
) -> Result<Option<Poly>, ConvErr>
    requires source { IsClosedOver old.now.cons.dim source.now }
    requires relation { IsClosedOver (2 * old.now.cons.dim) relation.now }
    requires old { IsClosedOver old.now.cons.dim old.now }
    ensures found { IfOk result
        (IsFound (IsHullWithSuccessors source.now relation.now old.now) old.now) }
    ensures overflow { IfErr result
        (IsOverflowIn (LeavesBothWays source.now relation.now old.now)) }
    ensures no_fewer { steps.old ≤ steps.new }
    ensures conversion { ConvertsBothWays source.now relation.now old.now steps.old steps.new
        result }
{
    match joined_by_generators(alloc, source, relation, old, steps) {
        Ok(found) => Ok(found),
        Err(ConvErr::Memory) => Err(ConvErr::Memory),
        Err(ConvErr::Overflow(_)) => joined_by_post(alloc, source, relation, old, steps),
    }
}

/// The transitions of a system in order.
#[derive(Drop)]
pub(crate) struct Transitions<'a> {
    pub(crate) system: &'a System,
}

impl Turns for Transitions<'_> {
    ghost use Rattle.fixpoint.specs.Runs.{turns_of};

    ghost turns = { λ t. turns_of t.system.now };

    fn count(&self) -> usize {
        self.system.trans_len()
    }

    fn place(&self, index: usize) -> usize {
        self.system.trans(index).target
    }

    fn source(&self, index: usize) -> usize {
        self.system.trans(index).source
    }

    fn found<L: Ledger>(
        &self,
        alloc: Global,
        index: usize,
        sets: &[Poly],
        steps: &mut Steps<L>,
    ) -> Result<Option<Poly>, ConvErr> {
        let transition = self.system.trans(index);
        joined(
            alloc,
            set_of(sets, transition.source),
            &transition.relation,
            set_of(sets, transition.target),
            steps,
        )
    }
}
