//! The turns of an automaton.
ghost use Rattle.std.specs.Prelude.{◌≡◌, ◌+◌, ◌*◌, ◌≤◌, ◌<◌, length, slice_get, Some, IfOk, IfErr};
ghost use Rattle.poly_pair.specs.declared.topology.TheConstants.{MAX_DIM};
ghost use Rattle.poly_pair.specs.Polyhedra.{Polyhedron};
ghost use Rattle.trans_sys.specs.declared.transition.Transition.{Transition};
ghost use Rattle.poly_pair.specs.ClosedPolyhedra.{IsClosedOver};
ghost use Rattle.row_core.specs.Refusals.{IsOverflowIn};
ghost use Rattle.widening.specs.RunLaws.{AreSetsOf, IsFound};
ghost use Rattle.hybrid.specs.Steps.{IsTimePost, IsJumpPost};
ghost use Rattle.hybrid.specs.Turns.{IsHullWithPost, IsOfTime, IsOfJump, LeavesOnTimeTurn, LeavesOnJumpTurn, LeavesInTime, LeavesInJump, CountsInTime, CountsInJump};
ghost use Rattle.poly_pair.specs.Work.{conv_overflow, overflow_in};
ghost use Rattle.hybrid.specs.Conversions.{ConvertsTimeTurn, ConvertsJumpTurn};

use crate::hybrid::Hybrid;
use crate::jumps::jump_post;
use crate::times::time_post;
use lattice_ops::grown;
use poly_pair::{MAX_DIM, Poly};
use row_core::{ConvErr, Steps};
use std::alloc::Global;
use std::sync::ledger::Ledger;
use trans_sys::set_of;
use widening::Turns;

/// What a set grows to by what time does to it, if it grows.
fn time_joined<L: Ledger>(
    alloc: Global,
    old: &Poly,
    inv: &Poly,
    flow: &Poly,
    steps: &mut Steps<L>,
) -> Result<Option<Poly>, ConvErr>
    requires old { IsClosedOver inv.now.cons.dim old.now }
    requires inv { IsClosedOver inv.now.cons.dim inv.now }
    requires flow { IsClosedOver inv.now.cons.dim flow.now }
    ensures found { IfOk result
        (IsFound (IsHullWithPost (IsTimePost old.now inv.now flow.now) old.now) old.now) }
    ensures overflow { IfErr result (IsOverflowIn (LeavesOnTimeTurn old.now inv.now flow.now)) }
    ensures no_fewer { steps.old ≤ steps.new }
    ensures conversion { ConvertsTimeTurn old.now inv.now flow.now steps.old steps.new result }
{
    let post = match time_post(alloc, old, inv, flow, steps) {
        Ok(post) => post,
        Err(cause) => return Err(cause),
    };
    grown(alloc, old, &post, steps)
}

/// What the set of a transition's target grows to by what the transition leads to, if it grows.
fn jump_joined<L: Ledger>(
    source: &Poly,
    inv: &Poly,
    relation: &Poly,
    old: &Poly,
    target_inv: &Poly,
    steps: &mut Steps<L>,
) -> Result<Option<Poly>, ConvErr>
    requires narrow { target_inv.now.cons.dim + target_inv.now.cons.dim ≤ MAX_DIM }
    requires source { IsClosedOver target_inv.now.cons.dim source.now }
    requires inv { IsClosedOver target_inv.now.cons.dim inv.now }
    requires relation { IsClosedOver (2 * target_inv.now.cons.dim) relation.now }
    requires old { IsClosedOver target_inv.now.cons.dim old.now }
    requires target_inv { IsClosedOver target_inv.now.cons.dim target_inv.now }
    ensures found { IfOk result (IsFound
        (IsHullWithPost (IsJumpPost source.now inv.now relation.now target_inv.now) old.now)
        old.now) }
    ensures overflow { IfErr result (IsOverflowIn
        (LeavesOnJumpTurn source.now inv.now relation.now old.now target_inv.now)) }
    ensures no_fewer { steps.old ≤ steps.new }
    ensures conversion { ConvertsJumpTurn source.now inv.now relation.now old.now target_inv.now
        steps.old steps.new result }
{
    let alloc = old.cons().allocator();
    let post = match jump_post(alloc, source, inv, relation, target_inv, steps) {
        Ok(post) => post,
        Err(cause) => return Err(cause),
    };
    grown(alloc, old, &post, steps)
}

/// The time turn of a location.
fn time_turn<L: Ledger>(
    alloc: Global,
    h: &Hybrid,
    location: usize,
    sets: &[Poly],
    steps: &mut Steps<L>,
) -> Result<Option<Poly>, ConvErr>
    requires location { location < length h.now.system.initial }
    requires sets { AreSetsOf h.now.system.dim (length h.now.system.initial) sets.now }
    ensures found { IfOk result (λ o. (old : Polyhedron) → slice_get sets.now location ≡ Some old
        → IsFound (IsOfTime h.now location sets.now) old o) }
    ensures overflow { IfErr result (IsOverflowIn (LeavesInTime h.now location sets.now)) }
    ensures no_fewer { steps.old ≤ steps.new }
    ensures conversion { CountsInTime h.now location sets.now steps.old steps.new
        (overflow_in conv_overflow result) }
{
    let _kept = h.system();
    time_joined(
        alloc,
        set_of(sets, location),
        h.inv(location),
        h.flow(location),
        steps,
    )
}

/// The jump turn of a transition.
fn jump_turn<L: Ledger>(
    h: &Hybrid,
    index: usize,
    sets: &[Poly],
    steps: &mut Steps<L>,
) -> Result<Option<Poly>, ConvErr>
    requires index { index < length h.now.system.transitions }
    requires sets { AreSetsOf h.now.system.dim (length h.now.system.initial) sets.now }
    ensures found { IfOk result (λ o. (t : Transition) (old : Polyhedron)
        → slice_get h.now.system.transitions index ≡ Some t → slice_get sets.now t.target ≡ Some old
        → IsFound (IsOfJump h.now t sets.now) old o) }
    ensures overflow { IfErr result (IsOverflowIn (λ over. (t : Transition)
        → slice_get h.now.system.transitions index ≡ Some t → LeavesInJump h.now t sets.now over)) }
    ensures no_fewer { steps.old ≤ steps.new }
    ensures conversion { (t : Transition) → slice_get h.now.system.transitions index ≡ Some t
        → CountsInJump h.now t sets.now steps.old steps.new (overflow_in conv_overflow result) }
{
    let transition = h.system().trans(index);
    jump_joined(
        set_of(sets, transition.source),
        h.inv(transition.source),
        &transition.relation,
        set_of(sets, transition.target),
        h.inv(transition.target),
        steps,
    )
}

impl Turns for Hybrid {
    ghost use Rattle.hybrid.specs.Turns.{turns_of};

    ghost turns = { turns_of };

    fn count(&self) -> usize {
        self.system().locs() + self.system().trans_len()
    }

    fn place(&self, index: usize) -> usize {
        let locations = self.system().locs();
        if index < locations {
            return index;
        }
        self.system().trans(index - locations).target
    }

    fn source(&self, index: usize) -> usize {
        let locations = self.system().locs();
        if index < locations {
            return index;
        }
        self.system().trans(index - locations).source
    }

    fn found<L: Ledger>(
        &self,
        alloc: Global,
        index: usize,
        sets: &[Poly],
        steps: &mut Steps<L>,
    ) -> Result<Option<Poly>, ConvErr> {
        let locations = self.system().locs();
        if index < locations {
            return time_turn(alloc, self, index, sets, steps);
        }
        jump_turn(self, index - locations, sets, steps)
    }
}
