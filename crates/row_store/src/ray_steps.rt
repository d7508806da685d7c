//! The step with a row that is 0 on all lines.
ghost use Rattle.std.specs.Prelude.{◌≡◌, ◌+◌, ◌<◌, ◌≤◌, Bool, true, false};
ghost use Rattle.std.specs.Prelude.{List, [], ◌∷◌, ◌++◌, length, replicate, All};
ghost use Rattle.std.specs.Prelude.{MatchResult, OnErr};
ghost use Rattle.row_core.specs.Range.{InRange};
ghost use Rattle.row_core.specs.Lists.{vectors, AreMarked};
ghost use Rattle.row_store.specs.Vectors.{IsAppended, HasSame};
ghost use Rattle.row_core.specs.Pairs.{IsPairAt};
ghost use Rattle.row_store.specs.Changes.{ArePairs, IsPairCombined, HasMade, IsGrown, IsRayChange};
ghost use Rattle.row_store.specs.Faults.{IsPairFault};

use crate::fault::{CombineFault, Part, Place};
use crate::vectors::VectorList;
use row_core::Steps;
use std::sync::ledger::Ledger;

/// Appends the ray of a pair that is 0 on the row. After a fault the rays are as before.
fn push_pair<L: Ledger>(
    rays: &mut VectorList,
    values: &[i128],
    pair: (usize, usize),
    steps: &mut Steps<L>,
) -> Result<(), CombineFault>
    requires spare { 0 < rays.old.spare }
    requires as_many { length values.now ≤ length rays.old.rows }
    requires in_range { All InRange values.now }
    requires opposite { IsPairAt values.now pair.0 pair.1 }
    requires marked { AreMarked false rays.old.rows }
    ensures counted { steps.new ≡ steps.old + 1 }
    ensures combined { let Is = IsPairCombined values.now rays.old.rows pair in
        let Leaves = IsPairFault values.now (pair ∷ []) (vectors rays.old.rows) in
        MatchResult result (λ _. IsAppended false Is rays.old rays.new)
        (λ fault. HasSame rays.old rays.new × Leaves fault) }
{
    let (above, below) = pair;
    let combined = rays.push_combination(above, values[above], below, values[below], steps);
    if let Err(column) = combined {
        let part = Part::Rays;
        let left = Place { part, index: above };
        let right = Place { part, index: below };
        return Err(CombineFault {
            left,
            right,
            column,
        });
    }
    Ok(())
}

/// Appends one ray for each pair, 0 on the row.
fn push_made<L: Ledger>(
    rays: &mut VectorList,
    values: &[i128],
    pairs: &[(usize, usize)],
    steps: &mut Steps<L>,
) -> Result<(), CombineFault>
    requires spare { length pairs.now ≤ rays.old.spare }
    requires as_many { length values.now ≡ length rays.old.rows }
    requires in_range { All InRange values.now }
    requires opposite { ArePairs values.now pairs.now }
    requires marked { AreMarked false rays.old.rows }
    ensures counted { (steps.old ≤ steps.new) × (steps.new ≤ steps.old + length pairs.now) }
    ensures width { rays.new.width ≡ rays.old.width }
    ensures grown { IsGrown rays.old.rows rays.new.rows }
    ensures made { let old = rays.old.rows in
        MatchResult result (λ _. HasMade values.now old pairs.now old rays.new.rows)
        (IsPairFault values.now pairs.now (vectors old)) }
    ensures marked { AreMarked false rays.new.rows }
{
    for index in 0..pairs.len() {
        push_pair(rays, values, pairs[index], steps)?;
    }
    Ok(())
}

/// Keeps the marked rays, and appends one ray for each pair, for which there is room: the marks are
/// those of the old rays, and true for each pair. After a fault the rays are as before.
pub fn ray_step<L: Ledger>(
    rays: &mut VectorList,
    values: &[i128],
    keep: &[bool],
    pairs: &[(usize, usize)],
    steps: &mut Steps<L>,
) -> Result<(), CombineFault>
    requires spare { length pairs.now ≤ rays.old.spare }
    requires as_many { length values.now ≡ length rays.old.rows }
    requires marks { length keep.now ≡ length rays.old.rows + length pairs.now }
    requires in_range { All InRange values.now }
    requires opposite { ArePairs values.now pairs.now }
    requires marked { AreMarked false rays.old.rows }
    ensures counted { (steps.old ≤ steps.new) × (steps.new ≤ steps.old + length pairs.now) }
    ensures width { rays.new.width ≡ rays.old.width }
    ensures change { let old = rays.old.rows in
        let new = rays.new.rows in
        let more = replicate (length pairs.now) true in
        MatchResult result
        (λ _. (marks : List Bool) → keep.now ≡ marks ++ more →
        IsRayChange values.now marks pairs.now old new)
        (IsPairFault values.now pairs.now (vectors old)) }
    ensures marked { AreMarked false rays.new.rows }
    ensures same { OnErr result (HasSame rays.old rays.new) }
{
    let count = rays.len();
    if let Err(fault) = push_made(rays, values, pairs, steps) {
        rays.truncate(count);
        return Err(fault);
    }
    rays.keep_rows(keep);
    Ok(())
}
