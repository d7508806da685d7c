//! Variables added and taken away.
ghost use Rattle.std.specs.Prelude.{◌≡◌, ℕ, ◌+◌, ◌<◌, ◌≤◌, length, All, IfOk, IfErr};
ghost use Rattle.poly_pair.specs.Starts.{CanStart};
ghost use Rattle.poly_pair.specs.declared.topology.TheConstants.{MAX_DIM};
ghost use Rattle.mapped_systems.specs.Maps.{with_zeros, without, remaining, kept_variables};
ghost use Rattle.dimensions.specs.AddedVariables.{LeavesWithZeros};
ghost use Rattle.dimensions.specs.Results.{IsImage, IsPreimage, IsProjection, IsProduct, IsStoredOfMapped, IsStoredOfPulled, IsStoredOfJoined};
ghost use Rattle.row_core.specs.Refusals.{IsOverflowIn};
ghost use Rattle.dimensions.specs.Refusals.{LeavesOnMapped, LeavesOnPulled, ConvertsMapped, ConvertsJoined};
ghost use Rattle.dimensions.specs.PairConversions.{ConvertsEmbedding, ConvertsProjection};

use crate::added_variables::{embedded_pair, projected_pair};
use mapped_systems::{
    joined_constraints, padded_constraints, padded_generators, remaining_generators,
};
use poly_pair::{MAX_DIM, Poly};
use row_core::{ConvErr, Steps};
use std::alloc::Global;
use std::sync::ledger::Ledger;

/// The points that are in a set without their last variables, `count` in number, which are free.
/// The stored pair of a closed set with a point is kept, and the axes of the variables are lines.
///
/// # Errors
///
/// An overflow is one of the conversion of the list of the constraints with the new columns, or of
/// its second list.
pub fn embed<L: Ledger>(
    alloc: Global,
    p: &Poly,
    count: usize,
    steps: &mut Steps<L>,
) -> Result<Poly, ConvErr>
    requires { p.now.cons.dim + count ≤ MAX_DIM }
    ensures points { IfOk result (IsPreimage (without p.now.cons.dim (p.now.cons.dim + count))
        (p.now.cons.dim + count) p.now) }
    ensures stored { IfOk result (IsStoredOfPulled (with_zeros p.now.cons.dim count)
        (p.now.cons.dim + count) p.now) }
    ensures overflow { IfErr result (IsOverflowIn
        (LeavesOnPulled (with_zeros p.now.cons.dim count) (p.now.cons.dim + count) p.now)) }
    ensures no_fewer { steps.old ≤ steps.new }
    ensures conversion { ConvertsEmbedding count p.now steps.old steps.new result }
{
    let padded = padded_constraints(alloc, p.cons(), p.dim(), count)?;
    if let Some(embedding) = embedded_pair(alloc, p, count, &padded, steps)? {
        return Ok(embedding);
    }
    Poly::from_cons(alloc, p.topology(), &padded, steps)
}

/// The points of a set with more variables behind, `count` in number, all 0. The stored pair of a
/// closed set with a point is kept, and each of the variables has an equality.
///
/// # Errors
///
/// An overflow is one of the conversion of the list of the generators with the new columns, or of
/// its second list. Of a closed set with a point these are converted only where the stored pair
/// leaves the range.
pub fn project<L: Ledger>(
    alloc: Global,
    p: &Poly,
    count: usize,
    steps: &mut Steps<L>,
) -> Result<Poly, ConvErr>
    requires { p.now.cons.dim + count ≤ MAX_DIM }
    ensures points { IfOk result (IsProjection count p.now) }
    ensures stored { IfOk result (IsStoredOfMapped (with_zeros p.now.cons.dim count)
        (p.now.cons.dim + count) p.now) }
    ensures overflow { IfErr result (IsOverflowIn
        (LeavesOnMapped (with_zeros p.now.cons.dim count) (p.now.cons.dim + count) p.now)) }
    ensures pair { IfErr result (IsOverflowIn (λ _. CanStart p.now → LeavesWithZeros count p.now)) }
    ensures no_fewer { steps.old ≤ steps.new }
    ensures conversion { ConvertsProjection count p.now steps.old steps.new result }
{
    let padded = padded_generators(alloc, p.gens(), count)?;
    if let Some(projection) = projected_pair(alloc, p, count, &padded, steps)? {
        return Ok(projection);
    }
    Poly::from_gens_with_point(alloc, p.topology(), &padded, steps)
}

/// The points that those of a set become without the named variables. The others keep their order;
/// one that is named again counts once.
///
/// # Errors
///
/// An overflow is one of the conversion of the list of the generators without these columns, or of
/// its second list.
pub fn remove_dims<L: Ledger>(
    alloc: Global,
    p: &Poly,
    vars: &[usize],
    steps: &mut Steps<L>,
) -> Result<Poly, ConvErr>
    requires { All (λ (i : ℕ). i < p.now.cons.dim) vars.now }
    ensures points { IfOk result (IsImage (remaining p.now.cons.dim vars.now)
        (length (kept_variables p.now.cons.dim vars.now)) p.now) }
    ensures stored { IfOk result (IsStoredOfMapped (remaining p.now.cons.dim vars.now)
        (length (kept_variables p.now.cons.dim vars.now)) p.now) }
    ensures conversion { ConvertsMapped (remaining p.now.cons.dim vars.now)
        (length (kept_variables p.now.cons.dim vars.now)) p.now steps.old steps.new result }
{
    let remaining = remaining_generators(alloc, p.gens(), vars)?;
    Poly::from_gens_with_point(alloc, p.topology(), &remaining, steps)
}

/// The product of two sets: the points whose first variables are in the first and whose others are
/// in the second.
///
/// # Errors
///
/// An overflow is one of the conversion of the list of the constraints of both, or of its second
/// list.
pub fn concat<L: Ledger>(
    alloc: Global,
    p: &Poly,
    q: &Poly,
    steps: &mut Steps<L>,
) -> Result<Poly, ConvErr>
    requires topology { p.now.topology ≡ q.now.topology }
    requires narrow { p.now.cons.dim + q.now.cons.dim ≤ MAX_DIM }
    ensures points { IfOk result (IsProduct p.now q.now) }
    ensures stored { IfOk result (IsStoredOfJoined p.now q.now) }
    ensures conversion { ConvertsJoined p.now q.now steps.old steps.new result }
{
    let joined = joined_constraints(alloc, p.cons(), q.cons())?;
    Poly::from_cons(alloc, p.topology(), &joined, steps)
}
