//! Whether one powerset covers another.
ghost use Rattle.std.specs.Prelude.{◌≡◌, ◌≤◌, All, IfErr, IfOk, MatchOption};
ghost use Rattle.poly_pair.specs.Polyhedra.{Polyhedron};
ghost use Rattle.cover_search.specs.Inequalities.{AreInequalities};
ghost use Rattle.row_core.specs.Refusals.{IsOverflowIn};
ghost use Rattle.cover_search.specs.Branches.{AreCovered};
ghost use Rattle.powerset.specs.Covers.{IsCover, systems_of, LeavesOnCover, HasUncovered, LeavesOnSome, ConvertsMembers, ConvertsCover};

use crate::powersets::Powerset;
use cover_search::{Walls, uncovered};
use poly_pair::Poly;
use row_core::{ConvErr, Memory, RowBuf, Steps};
use std::alloc::Global;
use std::sync::ledger::Ledger;

/// Whether a powerset covers another: a point of the other that it lacks, if there is one.
#[derive(Drop)]
pub enum Cover {
    /// Each point of the other powerset is in it.
    Yes,
    /// This point of the other powerset isn't.
    No(RowBuf),
}

/// The inequalities of each polyhedron.
fn all_inequalities(alloc: Global, members: &[Poly]) -> Result<Vec<Walls>, Memory>
    ensures { IfOk result (λ systems. systems.items ≡ systems_of members.now) }
{
    let mut systems = Vec::new(alloc);
    for index in 0..members.len() {
        systems.push(Walls::of(alloc, members[index].cons())?)?;
    }
    Ok(systems)
}

/// A point of one of the polyhedra at which no system holds, if there is one.
fn some_uncovered<L: Ledger>(
    alloc: Global,
    members: &[Poly],
    systems: &[Walls],
    steps: &mut Steps<L>,
) -> Result<Option<RowBuf>, ConvErr>
    requires dims { All (λ (p : Polyhedron). All
        (λ rows. rows.dim ≡ p.cons.dim) systems.now) members.now }
    requires inequalities { All AreInequalities systems.now }
    ensures found { IfOk result
        (λ found. MatchOption found
        (All (λ (p : Polyhedron). AreCovered p.cons systems.now) members.now)
        (HasUncovered members.now systems.now)) }
    ensures overflow { IfErr result (IsOverflowIn (LeavesOnSome members.now systems.now)) }
    ensures no_fewer { steps.old ≤ steps.new }
    ensures conversion { ConvertsMembers members.now systems.now steps.old steps.new result }
{
    for index in 0..members.len() {
        let point = uncovered(alloc, members[index].cons(), systems, steps)?;
        if point.is_some() {
            return Ok(point);
        }
    }
    Ok(None)
}

/// Whether each point of t is in s.
///
/// Each member of t is parted by the inequalities of the members of s that it meets, and a part
/// that is outside of all members of s has a point that isn't covered. Where a number leaves the
/// range, it is parted again by all members of s in their order, so that each list that is
/// converted is that of a branch. Both ways are counted, one member of t after another.
///
/// # Errors
///
/// An overflow is one of the conversion of the encoded list of the constraints of a branch: those
/// of a member of t, and then, for each of the first members of s, some of its inequalities and the
/// complement of the next.
pub fn covers<L: Ledger>(
    alloc: Global,
    s: &Powerset,
    t: &Powerset,
    steps: &mut Steps<L>,
) -> Result<Cover, ConvErr>
    requires topology { s.now.topology ≡ t.now.topology }
    requires dim { s.now.dim ≡ t.now.dim }
    ensures answer { IfOk result (IsCover s.now t.now) }
    ensures overflow { IfErr result (IsOverflowIn (LeavesOnCover s.now t.now)) }
    ensures no_fewer { steps.old ≤ steps.new }
    ensures conversion { ConvertsCover s.now t.now steps.old steps.new result }
{
    let systems = all_inequalities(alloc, s.members())?;
    match some_uncovered(alloc, t.members(), &systems, steps) {
        Ok(None) => Ok(Cover::Yes),
        Ok(Some(point)) => Ok(Cover::No(point)),
        Err(cause) => Err(cause),
    }
}
