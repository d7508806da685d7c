//! Runs of transition systems.
ghost use Rattle.std.specs.Prelude.{◌≤◌, IfOk, IfErr};
ghost use Rattle.row_core.specs.Refusals.{IsOverflowIn};
ghost use Rattle.fixpoint.specs.Runs.{HasLimit};
ghost use Rattle.fixpoint.specs.RunOverflows.{LeavesInRun};
ghost use Rattle.fixpoint.specs.RunConversions.{ConvertsRun};
ghost use Rattle.fixpoint.specs.RunLaws.{AreSetsOf, IncludeInitial, AreClosedUnder};

use crate::transitions::Transitions;
use poly_pair::Poly;
use row_core::{ConvErr, Steps};
use std::alloc::Global;
use std::sync::ledger::Ledger;
use trans_sys::System;

/// The limit of the system's rounds, one set for each location.
///
/// The run starts with the initial sets. A round takes each transition in order and forms the hull
/// of the set of its target and the post of that of its source. Where this isn't the set of the
/// target it replaces it, at most `delay` times for each location, and later its widening does. The
/// limit is the table that a whole round leaves as it is. Each run comes to it.
///
/// # Errors
///
/// An overflow is one of a turn that the run comes to: of its post, of its hull or of its widening.
pub fn run<L: Ledger>(
    alloc: Global,
    system: &System,
    delay: u32,
    steps: &mut Steps<L>,
) -> Result<Vec<Poly>, ConvErr>
    ensures limit { IfOk result (λ sets. HasLimit system.now delay sets.items) }
    ensures sets { IfOk result (λ sets. AreSetsOf system.now sets.items) }
    ensures includes_initial { IfOk result (λ sets. IncludeInitial system.now sets.items) }
    ensures closed_under_transitions { IfOk result
        (λ sets. AreClosedUnder system.now.transitions sets.items) }
    ensures overflow { IfErr result (IsOverflowIn (LeavesInRun system.now delay)) }
    ensures no_fewer { steps.old ≤ steps.new }
    ensures conversion { ConvertsRun system.now delay steps.old steps.new result }
{
    let initial = system.init_sets()?;
    widening::run(alloc, &Transitions { system }, initial, delay, steps)
}
