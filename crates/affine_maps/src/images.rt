//! Images and preimages by a relation between a variable and an expression.
ghost use Rattle.std.specs.Prelude.{◌≡◌, ◌+◌, ◌<◌, ◌≤◌, ◌⊎◌, length, pos, ◌<ℤ◌, IfOk, IfErr};
ghost use Rattle.row_core.specs.Range.{InRange, AllInRange};
ghost use Rattle.affine_maps.specs.SubstitutedSets.{IsSubstitutedImage, IsSubstitutedPreimage, IsStoredOfSubstituted, IsStoredOfPulledBack};
ghost use Rattle.affine_maps.specs.Relations.{IsRelationFor, IsImageBy, IsPreimageBy};
ghost use Rattle.affine_maps.specs.ImageResults.{IsStoredOfImage, LeavesInImageBy, ConvertsImageBy, IsStoredOfPreimage, LeavesInPreimageBy, ConvertsPreimageBy};
ghost use Rattle.row_core.specs.Refusals.{IsOverflowIn};
ghost use Rattle.mapped_systems.specs.Refusals.{SomeLeavesInImage, SomeLeavesInPullback};
ghost use Rattle.affine_maps.specs.SubstitutedSets.{LeavesOnSubstituted, LeavesOnPulledBack};
ghost use Rattle.affine_maps.specs.PairConversions.{ConvertsImage, ConvertsPreimage};

use crate::collapsing::paired_image;
use crate::inverse_maps::carried_preimage;
use crate::related::{related_image, related_preimage};
use crate::relations::ImageRel;
use mapped_systems::{image_generators, preimage_constraints};
use poly_pair::Poly;
use row_core::{ConvErr, Steps};
use std::alloc::Global;
use std::sync::ledger::Ledger;

/// The points that those of a set become where a variable is replaced by the expression over the
/// divisor. The generators are mapped, and their list is converted where the stored pair can't be
/// mapped as a whole.
///
/// # Errors
///
/// An overflow shows a generator whose map leaves the range, or is one of the conversion of the
/// list of the mapped generators, or of its second list.
fn substituted_image<L: Ledger>(
    alloc: Global,
    p: &Poly,
    var: usize,
    expr: &[i128],
    den: i128,
    steps: &mut Steps<L>,
) -> Result<Poly, ConvErr>
    requires var { var < p.now.cons.dim }
    requires wide { length expr.now ≡ p.now.cons.dim + 1 }
    requires in_range { AllInRange expr.now }
    requires den_in_range { InRange den }
    requires positive { pos 0 <ℤ den }
    ensures points { IfOk result (IsSubstitutedImage var expr.now den p.now) }
    ensures stored { IfOk result (IsStoredOfSubstituted var expr.now den p.now) }
    ensures overflow { IfErr result (IsOverflowIn (λ over. SomeLeavesInImage var expr.now den
        p.now.gens.list over ⊎ LeavesOnSubstituted var expr.now den p.now over)) }
    ensures conversion { ConvertsImage var expr.now den p.now steps.old steps.new result }
{
    let mapped = match image_generators(alloc, p.gens(), var, expr, den) {
        Ok(mapped) => mapped,
        Err(cause) => return Err(cause),
    };
    if let Some(image) = paired_image(p, var, expr, den, &mapped, steps)? {
        return Ok(image);
    }
    Poly::from_gens_with_point(alloc, p.topology(), &mapped, steps)
}

/// The points of a set in which a variable has any value that stands in the relation to that of the
/// expression over the divisor. All other variables keep their values.
///
/// Where the relation is equality the generators are mapped, and their list is converted; where the
/// map can be undone, those of a closed set are paired with its constraints, mapped too, and both
/// are brought to canonical form without a conversion; where the variable gives its value up, the
/// system of the constraints of a closed set takes in the variable's axis alone, and with the
/// equality of its new value the mapped generators are thinned by it. Else the list of the
/// constraints with one more variable is converted, and then that of their generators where this
/// variable has taken the place of the one.
///
/// # Errors
///
/// An overflow shows a generator whose map leaves the range, or is one of the conversion of one of
/// these lists, or of the second list of the last.
pub fn image<L: Ledger>(
    alloc: Global,
    p: &Poly,
    var: usize,
    rel: ImageRel,
    expr: &[i128],
    den: i128,
    steps: &mut Steps<L>,
) -> Result<Poly, ConvErr>
    requires var { var < p.now.cons.dim }
    requires rel { IsRelationFor p.now.topology rel }
    requires wide { length expr.now ≡ p.now.cons.dim + 1 }
    requires in_range { AllInRange expr.now }
    requires den_in_range { InRange den }
    requires positive { pos 0 <ℤ den }
    ensures points { IfOk result (IsImageBy rel var expr.now den p.now) }
    ensures stored { IfOk result (IsStoredOfImage rel var expr.now den p.now) }
    ensures overflow { IfErr result (IsOverflowIn (LeavesInImageBy rel var expr.now den p.now)) }
    ensures no_fewer { steps.old ≤ steps.new }
    ensures conversion { ConvertsImageBy rel var expr.now den p.now steps.old steps.new result }
{
    if rel == ImageRel::Eq {
        return substituted_image(alloc, p, var, expr, den, steps);
    }
    related_image(p, var, rel, expr, den, steps)
}

/// The points that are in a set once a variable is replaced by the expression over the divisor. The
/// rows of the constraints are mapped, and their list is converted where the stored pair can't be
/// mapped as a whole.
///
/// # Errors
///
/// An overflow shows a constraint whose map leaves the range, or is one of the conversion of the
/// list of the mapped constraints, or of its second list.
fn substituted_preimage<L: Ledger>(
    alloc: Global,
    p: &Poly,
    var: usize,
    expr: &[i128],
    den: i128,
    steps: &mut Steps<L>,
) -> Result<Poly, ConvErr>
    requires var { var < p.now.cons.dim }
    requires wide { length expr.now ≡ p.now.cons.dim + 1 }
    requires in_range { AllInRange expr.now }
    requires den_in_range { InRange den }
    requires positive { pos 0 <ℤ den }
    ensures points { IfOk result (IsSubstitutedPreimage var expr.now den p.now) }
    ensures stored { IfOk result (IsStoredOfPulledBack var expr.now den p.now) }
    ensures overflow { IfErr result (IsOverflowIn (λ over. SomeLeavesInPullback var expr.now den
        p.now.cons.list over ⊎ LeavesOnPulledBack var expr.now den p.now over)) }
    ensures conversion { ConvertsPreimage var expr.now den p.now steps.old steps.new result }
{
    let pulled = match preimage_constraints(alloc, p.cons(), var, expr, den, steps) {
        Ok(pulled) => pulled,
        Err(cause) => return Err(cause),
    };
    if let Some(preimage) = carried_preimage(p, var, expr, den, &pulled, steps)? {
        return Ok(preimage);
    }
    Poly::from_cons(alloc, p.topology(), &pulled, steps)
}

/// The points that are in a set once a variable is replaced by some value that stands in the
/// relation to that of the expression over the divisor.
///
/// Where the relation is equality the rows of the constraints are mapped, and their list is
/// converted; where the map can be undone, those of a closed set are paired with its generators,
/// mapped too, and both are brought to canonical form without a conversion. Else the list of the
/// constraints with one more variable in the place of the one is converted, and then that of their
/// generators without it.
///
/// # Errors
///
/// An overflow shows a constraint whose map leaves the range, or is one of the conversion of one of
/// these lists, or of the second list of the last.
pub fn preimage<L: Ledger>(
    alloc: Global,
    p: &Poly,
    var: usize,
    rel: ImageRel,
    expr: &[i128],
    den: i128,
    steps: &mut Steps<L>,
) -> Result<Poly, ConvErr>
    requires var { var < p.now.cons.dim }
    requires rel { IsRelationFor p.now.topology rel }
    requires wide { length expr.now ≡ p.now.cons.dim + 1 }
    requires in_range { AllInRange expr.now }
    requires den_in_range { InRange den }
    requires positive { pos 0 <ℤ den }
    ensures points { IfOk result (IsPreimageBy rel var expr.now den p.now) }
    ensures stored { IfOk result (IsStoredOfPreimage rel var expr.now den p.now) }
    ensures overflow { IfErr result (IsOverflowIn (LeavesInPreimageBy rel var expr.now den p.now)) }
    ensures no_fewer { steps.old ≤ steps.new }
    ensures conversion { ConvertsPreimageBy rel var expr.now den p.now steps.old steps.new result }
{
    if rel == ImageRel::Eq {
        return substituted_preimage(alloc, p, var, expr, den, steps);
    }
    related_preimage(p, var, rel, expr, den, steps)
}
