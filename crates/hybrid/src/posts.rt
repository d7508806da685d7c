//! Successors by a relation.
ghost use Rattle.std.specs.Prelude.{◌≡◌, ◌+◌, ◌*◌, ◌≤◌, IfOk, IfErr};
ghost use Rattle.poly_pair.specs.declared.topology.TheConstants.{MAX_DIM};
ghost use Rattle.poly_pair.specs.ClosedPolyhedra.{IsClosedOver};
ghost use Rattle.row_core.specs.Refusals.{IsOverflowIn};
ghost use Rattle.affine_maps.specs.Posts.{IsPost};
ghost use Rattle.hybrid.specs.Steps.{behind, LeavesOnEmbedding, LeavesOnEmbeddedPost};
ghost use Rattle.hybrid.specs.Conversions.{ConvertsByEmbedding, ConvertsPost};

use crate::parts::part_in;
use affine_maps::post_from;
use dimensions::{embed, remove_dims};
use poly_pair::{MAX_DIM, Poly};
use row_core::{ConvErr, Memory, Steps};
use std::alloc::Global;
use std::sync::ledger::Ledger;

/// The first variables, so many.
fn first_variables(alloc: Global, count: usize) -> Result<Vec<usize>, Memory>
    ensures { IfOk result (λ vars. vars.items ≡ behind count) }
{
    let mut vars = Vec::new(alloc);
    for var in 0..count {
        vars.push(var)?;
    }
    Ok(vars)
}

/// The successors, by the set with as many free variables behind its own.
fn post_of_embedded<L: Ledger>(
    alloc: Global,
    set: &Poly,
    relation: &Poly,
    steps: &mut Steps<L>,
) -> Result<Poly, ConvErr>
    requires narrow { set.now.cons.dim + set.now.cons.dim ≤ MAX_DIM }
    requires set { IsClosedOver set.now.cons.dim set.now }
    requires relation { IsClosedOver (2 * set.now.cons.dim) relation.now }
    ensures post { IfOk result (IsPost set.now relation.now) }
    ensures overflow { IfErr result (IsOverflowIn (LeavesOnEmbedding set.now relation.now)) }
    ensures no_fewer { steps.old ≤ steps.new }
    ensures conversion { ConvertsByEmbedding set.now relation.now steps.old steps.new result }
{
    let dim = set.dim();
    let embedded = match embed(alloc, set, dim, steps) {
        Ok(embedded) => embedded,
        Err(cause) => return Err(cause),
    };
    let _kept = embedded.dim();
    let pairs = match part_in(alloc, &embedded, relation, steps) {
        Ok(pairs) => pairs,
        Err(cause) => return Err(cause),
    };
    let vars = first_variables(alloc, dim)?;
    remove_dims(alloc, &pairs, &vars, steps)
}

/// All successors of the states of a set by a relation, whose variables are those of a state and
/// then those of its successor. The stored pair of the relation is taken first; where that comes to
/// an overflow, the set with free variables is.
pub(crate) fn post<L: Ledger>(
    alloc: Global,
    set: &Poly,
    relation: &Poly,
    steps: &mut Steps<L>,
) -> Result<Poly, ConvErr>
    requires narrow { set.now.cons.dim + set.now.cons.dim ≤ MAX_DIM }
    requires set { IsClosedOver set.now.cons.dim set.now }
    requires relation { IsClosedOver (2 * set.now.cons.dim) relation.now }
    ensures post { IfOk result (IsPost set.now relation.now) }
    ensures overflow { IfErr result (IsOverflowIn (LeavesOnEmbeddedPost set.now relation.now)) }
    ensures no_fewer { steps.old ≤ steps.new }
    ensures conversion { ConvertsPost set.now relation.now steps.old steps.new result }
{
    match post_from(alloc, set, relation, steps) {
        Ok(successors) => Ok(successors),
        Err(ConvErr::Memory) => Err(ConvErr::Memory),
        Err(ConvErr::Overflow(_)) => post_of_embedded(alloc, set, relation, steps),
    }
}
