//! All ranking functions of a relation.
ghost use Rattle.std.specs.Prelude.{◌≡◌, ◌/◌, ◌%◌, ◌≤◌, IfOk, IfErr};
ghost use Rattle.poly_pair.specs.declared.topology.Topology.TheVariants.{Closed};
ghost use Rattle.row_core.specs.Refusals.{IsOverflowIn};
ghost use Rattle.ranking.specs.Rankings.{IsRankingSet};
ghost use Rattle.ranking.specs.Refusals.{LeavesInRanking, ConvertsRanking};

use crate::systems::ranking_system;
use poly_pair::{Poly, Topology};
use row_core::{ConvErr, Steps};
use std::alloc::Global;
use std::sync::ledger::Ledger;

/// The affine functions of the states that rank a relation: at each pair of a state and its
/// successor they are at least 0 at the state, and at least 1 less at the successor. The variables
/// of the relation are those of the state and then those of the successor; a function is the point
/// of its coefficients and then its constant.
///
/// # Errors
///
/// An overflow shows a generator of the relation twice and the first variable in which the state
/// less the successor leaves the range, or is one of the conversion of the list of the generators'
/// constraints, or of its second list.
pub fn ranking_set<L: Ledger>(
    alloc: Global,
    relation: &Poly,
    steps: &mut Steps<L>,
) -> Result<Poly, ConvErr>
    requires closed { relation.now.topology ≡ Closed }
    requires even { relation.now.cons.dim % 2 ≡ 0 }
    ensures points { IfOk result (IsRankingSet (relation.now.cons.dim / 2) relation.now) }
    ensures overflow { IfErr result
        (IsOverflowIn (LeavesInRanking (relation.now.cons.dim / 2) relation.now.gens)) }
    ensures no_fewer { steps.old ≤ steps.new }
    ensures conversion { ConvertsRanking (relation.now.cons.dim / 2) relation.now.gens
        steps.old steps.new result }
{
    let states = relation.dim() / 2;
    let system = match ranking_system(alloc, relation.gens(), states) {
        Ok(system) => system,
        Err(cause) => return Err(cause),
    };
    Poly::from_cons(alloc, Topology::Closed, &system, steps)
}
