//! The states that an automaton may come to.
ghost use Rattle.std.specs.Prelude.{◌≡◌, ◌<◌, ◌≤◌, ◌⊎◌, length, slice_get, Some, IfOk, IfErr};
ghost use Rattle.row_core.specs.Refusals.{IsOverflowIn};
ghost use Rattle.widening.specs.RunLaws.{AreSetsOf};
ghost use Rattle.hybrid.specs.Reaches.{IsPartAt, AreParts, AreReached, LeavesInPart, LeavesInParts, LeavesInReach, ConvertsPart, ConvertsParts, ConvertsReach, IncludeInitial, AreClosedUnderFlow, AreClosedUnderJumps};

use crate::hybrid::Hybrid;
use crate::parts::part_in;
use poly_pair::Poly;
use row_core::{ConvErr, Steps};
use std::alloc::Global;
use std::sync::ledger::Ledger;
use trans_sys::set_of;

/// The states of the set of a location that are in its invariant.
fn part_of<L: Ledger>(
    alloc: Global,
    h: &Hybrid,
    location: usize,
    sets: &[Poly],
    steps: &mut Steps<L>,
) -> Result<Poly, ConvErr>
    requires location { location < length sets.now }
    requires sets { AreSetsOf h.now.system.dim (length h.now.system.initial) sets.now }
    ensures part { IfOk result (IsPartAt h.now.invariants sets.now location) }
    ensures overflow { IfErr result
        (IsOverflowIn (LeavesInPart h.now.invariants sets.now location)) }
    ensures no_fewer { steps.old ≤ steps.new }
    ensures conversion { ConvertsPart h.now.invariants sets.now location steps.old steps.new
        result }
{
    let _kept = h.system();
    part_in(alloc, set_of(sets, location), h.inv(location), steps)
}

/// In each location the states of its set that are in its invariant.
fn parts_of<L: Ledger>(
    alloc: Global,
    h: &Hybrid,
    sets: &[Poly],
    steps: &mut Steps<L>,
) -> Result<Vec<Poly>, ConvErr>
    requires { AreSetsOf h.now.system.dim (length h.now.system.initial) sets.now }
    ensures parts { IfOk result (λ parts. AreParts h.now.invariants sets.now parts.items) }
    ensures overflow { IfErr result (IsOverflowIn (LeavesInParts h.now.invariants sets.now)) }
    ensures no_fewer { steps.old ≤ steps.new }
    ensures conversion { ConvertsParts h.now.invariants sets.now steps.old steps.new result }
{
    let mut parts = Vec::new(alloc);
    for location in 0..sets.len() {
        let part = match part_of(alloc, h, location, sets, steps) {
            Ok(part) => part,
            Err(cause) => return Err(cause),
        };
        parts.push(part)?;
    }
    Ok(parts)
}

/// For each location a polyhedron of states that the automaton may come to: the part in its
/// invariant of its set in the limit of the turns.
///
/// The run starts with the initial sets. A round takes the time turns of the locations in order,
/// and then the jump turns of the transitions in order. A time turn joins to the set of a location
/// what its states in the invariant come to inside the invariant as time passes with velocities of
/// the flow; a jump turn joins to the set of a transition's target the successors, in the target's
/// invariant, of the states of the source's set in the source's invariant. Where a set grows so,
/// the hull replaces it, at most `delay` times for each location, and later its widening does. The
/// limit is the table that a whole round leaves as it is. Each run comes to it.
///
/// # Errors
///
/// An overflow is one of a turn that the run comes to, or of the last meets with the invariants.
pub fn reach<L: Ledger>(
    alloc: Global,
    h: &Hybrid,
    delay: u32,
    steps: &mut Steps<L>,
) -> Result<Vec<Poly>, ConvErr>
    ensures reached { IfOk result (λ parts. AreReached h.now delay parts.items) }
    ensures includes_initial { IfOk result (λ parts. IncludeInitial h.now parts.items) }
    ensures closed_under_flow { IfOk result (λ parts. AreClosedUnderFlow h.now parts.items) }
    ensures closed_under_jumps { IfOk result (λ parts. AreClosedUnderJumps h.now parts.items) }
    ensures overflow { IfErr result (IsOverflowIn (LeavesInReach h.now delay)) }
    ensures no_fewer { steps.old ≤ steps.new }
    ensures conversion { ConvertsReach h.now delay steps.old steps.new result }
{
    let initial = h.system().init_sets()?;
    let sets = match widening::run(alloc, h, initial, delay, steps) {
        Ok(sets) => sets,
        Err(cause) => return Err(cause),
    };
    parts_of(alloc, h, &sets, steps)
}
