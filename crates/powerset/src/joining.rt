//! Joins of two powersets, and their common points.
ghost use Rattle.std.specs.Prelude.{◌≡◌, ◌≤◌, ◌++◌, ◌∷◌, [], All, IfErr, IfOk, OnOk};
ghost use Rattle.poly_pair.specs.Polyhedra.{Polyhedron, AreAlike};
ghost use Rattle.row_core.specs.Refusals.{IsOverflowIn};
ghost use Rattle.powerset.specs.Joins.{IsJoin, LeavesOnJoin, AreMeets, HasMeets, IsPairMeet, LeavesOnMeet, LeavesOnPairMeet, ConvertsMeets, ConvertsPairs, ConvertsPairMeet};

use crate::powersets::Powerset;
use crate::reducing::reduced;
use lattice_ops::meet;
use poly_pair::Poly;
use row_core::{ConvErr, Memory, Steps};
use std::alloc::Global;
use std::sync::ledger::Ledger;

/// Copies of the polyhedra of both lists.
fn copies(alloc: Global, first: &[Poly], second: &[Poly]) -> Result<Vec<Poly>, Memory>
    ensures { IfOk result (λ all. all.items ≡ first.now ++ second.now) }
{
    let mut all = Vec::new(alloc);
    append_copies(&mut all, first)?;
    append_copies(&mut all, second)?;
    Ok(all)
}

/// Appends copies of the polyhedra.
fn append_copies(all: &mut Vec<Poly>, members: &[Poly]) -> Result<(), Memory>
    ensures { OnOk result (all.new.items ≡ all.old.items ++ members.now) }
{
    for index in 0..members.len() {
        all.push(members[index].try_copy()?)?;
    }
    Ok(())
}

/// The union of both: the members of s and then those of t, without those that are empty or that
/// another one includes.
///
/// # Errors
///
/// A constraint and a generator of two of these members whose dot leaves the range: the
/// first to which the tests come. The members are asked in order, and each is compared with
/// the others in order.
pub fn join(alloc: Global, s: &Powerset, t: &Powerset) -> Result<Powerset, ConvErr>
    requires topology { s.now.topology ≡ t.now.topology }
    requires dim { s.now.dim ≡ t.now.dim }
    ensures join { IfOk result (IsJoin s.now t.now) }
    ensures overflow { IfErr result (IsOverflowIn (LeavesOnJoin s.now t.now)) }
{
    let all = copies(alloc, s.members(), t.members())?;
    let members = reduced(alloc, all)?;
    Ok(Powerset::from_members(s.topology(), s.dim(), members))
}

/// Appends the meets of a polyhedron with each of the others, in their order.
fn append_meets<L: Ledger>(
    alloc: Global,
    meets: &mut Vec<Poly>,
    p: &Poly,
    others: &[Poly],
    steps: &mut Steps<L>,
) -> Result<(), ConvErr>
    requires { All (AreAlike p.now) others.now }
    ensures meets { OnOk result (HasMeets p.now others.now meets.old.items meets.new.items) }
    ensures overflow { IfErr result (IsOverflowIn (LeavesOnMeet (p.now ∷ []) others.now)) }
    ensures no_fewer { steps.old ≤ steps.new }
    ensures conversion { ConvertsMeets p.now others.now steps.old steps.new result }
{
    for index in 0..others.len() {
        match meet(alloc, p, &others[index], steps) {
            Ok(both) => {
                let _kept = both.dim();
                meets.push(both)?;
            }
            Err(cause) => return Err(cause),
        }
    }
    Ok(())
}

/// The meets of each polyhedron of the first list with each of the second, in the order of the
/// first list first.
fn all_meets<L: Ledger>(
    alloc: Global,
    first: &[Poly],
    second: &[Poly],
    steps: &mut Steps<L>,
) -> Result<Vec<Poly>, ConvErr>
    requires { All (λ (p : Polyhedron). All (AreAlike p) second.now) first.now }
    ensures meets { IfOk result (λ meets. AreMeets first.now second.now meets.items) }
    ensures overflow { IfErr result (IsOverflowIn (LeavesOnMeet first.now second.now)) }
    ensures no_fewer { steps.old ≤ steps.new }
    ensures conversion { ConvertsPairs first.now second.now steps.old steps.new result }
{
    let mut meets = Vec::new(alloc);
    for index in 0..first.len() {
        append_meets(alloc, &mut meets, &first[index], second, steps)?;
    }
    Ok(meets)
}

/// The points that are in both: the meets of each member of s with each of t, without those that
/// are empty or that another one includes.
///
/// # Errors
///
/// An overflow is one of a meet, or of the dot of a constraint and a generator of two of the meets.
pub fn pmeet<L: Ledger>(
    alloc: Global,
    s: &Powerset,
    t: &Powerset,
    steps: &mut Steps<L>,
) -> Result<Powerset, ConvErr>
    requires topology { s.now.topology ≡ t.now.topology }
    requires dim { s.now.dim ≡ t.now.dim }
    ensures meet { IfOk result (IsPairMeet s.now t.now) }
    ensures overflow { IfErr result (IsOverflowIn (LeavesOnPairMeet s.now t.now)) }
    ensures no_fewer { steps.old ≤ steps.new }
    ensures conversion { ConvertsPairMeet s.now t.now steps.old steps.new result }
{
    let meets = match all_meets(alloc, s.members(), t.members(), steps) {
        Ok(meets) => meets,
        Err(cause) => return Err(cause),
    };
    let members = match reduced(alloc, meets) {
        Ok(members) => members,
        Err(cause) => return Err(cause),
    };
    Ok(Powerset::from_members(s.topology(), s.dim(), members))
}
