//! The states at the head of a loop and behind it.
ghost use Rattle.std.specs.Prelude.{◌≡◌, ◌∷◌, [], IfOk, IfErr};
ghost use Rattle.row_core.specs.Refusals.{IsOverflowIn};
ghost use Rattle.poly_pair.specs.Polyhedra.{IsKept, IsOfConstraints};
ghost use Rattle.poly_pair.specs.declared.topology.Topology.TheVariants.{Closed};
ghost use Rattle.poly_pair.specs.ClosedPolyhedra.{IsClosedOver};
ghost use Rattle.loop_analysis.specs.Runs.{HoldAtHead, HoldBehind};
ghost use Rattle.loop_analysis.specs.Analysis.{IsStart, IsInvariant, IsStable, IsHead, IsBehind, AreBoundsOf, LeavesAtStart, LeavesInHead, LeavesBehind, LeavesInAnalysis};

use crate::loops::Loop;
use crate::rounds::{HeadTurn, first, round};
use cons_sys::ConsSys;
use enclosures::{bounding_box, difference};
use lattice_ops::hull;
use poly_pair::{Poly, Topology};
use row_core::{ConvErr, Memory, Steps};
use std::alloc::Global;
use std::sync::ledger::Ledger;
use widening::run;

/// How often the set at the head is replaced by what it grows to before it is widened.
pub const DELAY: u32 = 3;

/// Bounds of the variables at the head of a loop, and behind it.
#[derive(Drop)]
pub struct Bounds {
    pub head: ConsSys,
    pub behind: ConsSys,
}

/// The set alone.
fn one_set(alloc: Global, set: &Poly) -> Result<Vec<Poly>, Memory>
    ensures { IfOk result (λ sets. sets.items ≡ set.now ∷ []) }
{
    let mut sets = Vec::new(alloc);
    sets.push(set.try_copy()?)?;
    Ok(sets)
}

/// A set with the states of the start that a round from its own states doesn't leave.
fn invariant<L: Ledger>(
    alloc: Global,
    program: &Loop,
    start: &Poly,
    steps: &mut Steps<L>,
) -> Result<Poly, ConvErr>
    requires { IsClosedOver program.now.dim start.now }
    ensures invariant { IfOk result (IsInvariant program.now start.now) }
    ensures stable { IfOk result (IsStable program.now start.now) }
    ensures closed { IfOk result (IsClosedOver program.now.dim) }
    ensures overflow { IfErr result (IsOverflowIn (LeavesInHead program.now start.now)) }
{
    let initial = one_set(alloc, start)?;
    let sets = run(alloc, &HeadTurn { program }, initial, DELAY, steps)?;
    let set = first(sets.as_slice()).try_copy()?;
    Ok(set)
}

/// The start and a last round from the invariant: where the widening gave up a bound, the guard
/// may give one again.
fn head<L: Ledger>(
    alloc: Global,
    program: &Loop,
    start: &Poly,
    steps: &mut Steps<L>,
) -> Result<Poly, ConvErr>
    requires { IsClosedOver program.now.dim start.now }
    ensures head { IfOk result (IsHead program.now start.now) }
    ensures closed { IfOk result (IsClosedOver program.now.dim) }
    ensures overflow { IfErr result (IsOverflowIn (LeavesInHead program.now start.now)) }
{
    let invariant = invariant(alloc, program, start, steps)?;
    let states = round(alloc, program, &invariant, steps)?;
    let made = hull(alloc, start, &states, steps)?;
    let _kept = made.dim();
    Ok(made)
}

/// The states of the head at which the guard doesn't hold.
fn behind<L: Ledger>(
    alloc: Global,
    program: &Loop,
    head: &Poly,
    steps: &mut Steps<L>,
) -> Result<Poly, ConvErr>
    requires { IsClosedOver program.now.dim head.now }
    ensures behind { IfOk result (IsBehind program.now head.now) }
    ensures overflow { IfErr result (IsOverflowIn (LeavesBehind program.now head.now)) }
{
    let opened = Poly::from_cons(alloc, Topology::Nnc, head.cons(), steps)?;
    let made = difference(alloc, &opened, program.guard(), steps)?;
    let _kept = made.dim();
    Ok(made)
}

/// Bounds of the variables that hold along each run of the loop.
///
/// The set at the head grows, by rounds, from the start to one that a round doesn't leave; later it
/// is widened (P. Cousot and N. Halbwachs, 1978). The bounds are those of the start and a last
/// round from it.
///
/// # Errors
///
/// An overflow is one of a conversion on the way, or of the search for a bound.
pub fn find_bounds<L: Ledger>(
    alloc: Global,
    program: &Loop,
    steps: &mut Steps<L>,
) -> Result<Bounds, ConvErr>
    ensures head { IfOk result (λ b. HoldAtHead program.now b.head) }
    ensures behind { IfOk result (λ b. HoldBehind program.now b.behind) }
    ensures exact { IfOk result (AreBoundsOf program.now) }
    ensures overflow { IfErr result (IsOverflowIn (LeavesInAnalysis program.now)) }
{
    let start = Poly::from_cons(alloc, Topology::Closed, program.start(), steps)?;
    let _kept = start.dim();
    let head = head(alloc, program, &start, steps)?;
    let behind = behind(alloc, program, &head, steps)?;
    let head_bounds = bounding_box(alloc, &head)?;
    let behind_bounds = bounding_box(alloc, &behind)?;
    Ok(Bounds {
        head: head_bounds,
        behind: behind_bounds,
    })
}
