//! The successors of the states of a set by a relation.
ghost use Rattle.std.specs.Prelude.{◌≡◌, ◌*◌, ◌≤◌, IfOk};
ghost use Rattle.poly_pair.specs.declared.topology.Topology.TheVariants.{Closed};
ghost use Rattle.poly_pair.specs.declared.topology.TheConstants.{MAX_DIM};
ghost use Rattle.affine_maps.specs.Posts.{IsPost, SpanPostIfAny};
ghost use Rattle.affine_maps.specs.PostLists.{later, IsStepSystem, AreOfStepsIfAny, ConvertsSteps, ConvertsFirstSteps};

use crate::shadows::{shadow_from, shadow_generators_from};
use cons_sys::ConsSys;
use gens_sys::GensSys;
use mapped_systems::padded_constraints;
use poly_pair::{MAX_DIM, Poly};
use row_core::{ConvErr, Memory, Steps};
use std::alloc::Global;
use std::sync::ledger::Ledger;

/// The variables behind the first, so many of both.
pub fn later_variables(alloc: Global, count: usize) -> Result<Vec<usize>, Memory>
    requires { 2 * count ≤ MAX_DIM }
    ensures { IfOk result (λ vars. vars.items ≡ later count) }
{
    let mut vars = Vec::new(alloc);
    for place in 0..count {
        vars.push(count + place)?;
    }
    Ok(vars)
}

/// The constraints of a relation, and then those of a set on the first variables of a pair.
fn step_constraints(alloc: Global, cons: &ConsSys, relation: &ConsSys) -> Result<ConsSys, Memory>
    requires narrow { relation.now.dim ≤ MAX_DIM }
    requires dim { relation.now.dim ≡ 2 * cons.now.dim }
    ensures { IfOk result (IsStepSystem cons.now relation.now) }
{
    let front = padded_constraints(alloc, cons, cons.dim(), cons.dim())?;
    relation.followed_by(&front)
}

/// The post of a set, from the stored pair of the relation: all y such that some x in the set has
/// (x, y) in the relation, whose variables are those of x and then those of y.
///
/// # Errors
///
/// An overflow is one of the conversion of the list of the relation's constraints and then the
/// set's, or of the generator list of their successors, or of its second list.
pub fn post_from<L: Ledger>(
    alloc: Global,
    p: &Poly,
    relation: &Poly,
    steps: &mut Steps<L>,
) -> Result<Poly, ConvErr>
    requires closed { p.now.topology ≡ Closed }
    requires closed_relation { relation.now.topology ≡ Closed }
    requires dim { relation.now.cons.dim ≡ 2 * p.now.cons.dim }
    ensures points { IfOk result (IsPost p.now relation.now) }
    ensures conversion { ConvertsSteps p.now relation.now steps.old steps.new result }
{
    prove!(relation.dim() <= MAX_DIM);
    let pairs = step_constraints(alloc, p.cons(), relation.cons())?;
    let columns = later_variables(alloc, p.dim())?;
    shadow_from(alloc, relation, &pairs, &columns, steps)
}

/// Generators of what [`post_from`] gives, or nothing where no state of the set has a successor.
///
/// # Errors
///
/// An overflow is one of the conversion of the list of the relation's constraints and then the
/// set's.
pub fn post_generators<L: Ledger>(
    alloc: Global,
    p: &Poly,
    relation: &Poly,
    steps: &mut Steps<L>,
) -> Result<Option<GensSys>, ConvErr>
    requires closed { p.now.topology ≡ Closed }
    requires closed_relation { relation.now.topology ≡ Closed }
    requires dim { relation.now.cons.dim ≡ 2 * p.now.cons.dim }
    ensures generators { IfOk result (SpanPostIfAny p.now relation.now) }
    ensures system { IfOk result (AreOfStepsIfAny p.now relation.now) }
    ensures conversion { ConvertsFirstSteps p.now relation.now steps.old steps.new result }
{
    prove!(relation.dim() <= MAX_DIM);
    let pairs = step_constraints(alloc, p.cons(), relation.cons())?;
    let columns = later_variables(alloc, p.dim())?;
    shadow_generators_from(alloc, relation, &pairs, &columns, steps)
}
