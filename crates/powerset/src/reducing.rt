//! Lists of polyhedra without members that others include.
ghost use Rattle.std.specs.Prelude.{◌≡◌, ◌↔◌, ◌<◌, false, length, slice_get, IfErr, IfOk, IsTrue, Some, MatchBool, remove};
ghost use Rattle.flat_rows.specs.Flat.{marked};
ghost use Rattle.poly_pair.specs.Polyhedra.{Polyhedron, IsIncluded};
ghost use Rattle.lattice_ops.specs.Questions.{LeavesRange};
ghost use Rattle.row_core.specs.Refusals.{IsOverflowIn};
ghost use Rattle.powerset.specs.Reductions.{Supersedes, IsSuperseded, HaveOneDimension, IsLeftOut, AreMarks, IsReduced, IsAnswered, IsDecided, IsAsked, LeavesInTest, LeavesInAsking, LeavesAt, LeavesBetween};

use lattice_ops::contains;
use poly_pair::Poly;
use row_core::{ConvErr, Memory, Overflow, PairOver};
use std::alloc::Global;

/// The overflow that shows the constraint of p and the generator of q of a pair.
fn shown(alloc: Global, p: &Poly, q: &Poly, pair: PairOver) -> Result<Overflow, Memory>
    requires { LeavesRange p.now.cons.list q.now.gens.list false pair }
    ensures { IfOk result (LeavesInTest p.now q.now) }
{
    let (left, right) = (p.cons().row(pair.left), q.gens().row(pair.right));
    Overflow::of_rows(alloc, pair.kind, left, right, pair.column)
}

/// Whether each point of q is in p.
///
/// # Errors
///
/// A constraint of p and a generator of q to which the test comes, and whose dot leaves the range.
fn includes(alloc: Global, p: &Poly, q: &Poly) -> Result<bool, ConvErr>
    requires { p.now.cons.dim ≡ q.now.cons.dim }
    ensures holds { IfOk result (λ b. IsTrue b ↔ IsIncluded q.now p.now) }
    ensures answered { IfOk result (λ _. IsAnswered p.now q.now) }
    ensures overflow { IfErr result (IsOverflowIn (LeavesInTest p.now q.now)) }
{
    match contains(p, q) {
        Ok(answer) => Ok(answer),
        Err(pair) => Err(ConvErr::Overflow(shown(alloc, p, q, pair)?)),
    }
}

/// Whether the other polyhedron includes the one, and stands before it or has further points.
fn supersedes(alloc: Global, one: &Poly, other: &Poly, before: bool) -> Result<bool, ConvErr>
    requires { one.now.cons.dim ≡ other.now.cons.dim }
    ensures answer { let supersedes = Supersedes one.now other.now (IsTrue before) in
        IfOk result (λ b. MatchBool b supersedes (¬ supersedes)) }
    ensures decided { IfOk result (λ _. IsDecided one.now other.now (IsTrue before)) }
    ensures overflow { IfErr result
        (IsOverflowIn (LeavesInAsking one.now other.now (IsTrue before))) }
{
    if !includes(alloc, other, one)? {
        return Ok(false);
    }
    if before {
        return Ok(true);
    }
    let same = includes(alloc, one, other)?;
    Ok(!same)
}

/// Whether another member supersedes the one at the index.
fn is_superseded(alloc: Global, members: &[Poly], index: usize) -> Result<bool, ConvErr>
    requires index { index < length members.now }
    requires dims { HaveOneDimension members.now }
    ensures answer { (p : Polyhedron) → slice_get members.now index ≡ Some p
        → let superseded = IsSuperseded members.now index p in
        IfOk result (λ b. MatchBool b superseded (¬ superseded)) }
    ensures asked { (p : Polyhedron) → slice_get members.now index ≡ Some p
        → IfOk result (λ _. IsAsked members.now index p) }
    ensures overflow { IfErr result (IsOverflowIn (LeavesAt members.now index)) }
{
    for other in 0..members.len() {
        if other != index {
            let superseded = supersedes(alloc, &members[index], &members[other], other < index)?;
            if superseded {
                return Ok(true);
            }
        }
    }
    Ok(false)
}

/// Whether the member at the index is left out.
fn is_left_out(alloc: Global, members: &[Poly], index: usize) -> Result<bool, ConvErr>
    requires index { index < length members.now }
    requires dims { HaveOneDimension members.now }
    ensures answer { (p : Polyhedron) → slice_get members.now index ≡ Some p
        → let left_out = IsLeftOut members.now index p in
        IfOk result (λ b. MatchBool b left_out (¬ left_out)) }
    ensures asked { (p : Polyhedron) → slice_get members.now index ≡ Some p
        → IfOk result (λ _. IsAsked members.now index p) }
    ensures overflow { IfErr result (IsOverflowIn (LeavesAt members.now index)) }
{
    if members[index].is_empty() {
        return Ok(true);
    }
    is_superseded(alloc, members, index)
}

/// Which members stay.
fn marks_of(alloc: Global, members: &[Poly]) -> Result<Vec<bool>, ConvErr>
    requires { HaveOneDimension members.now }
    ensures marks { IfOk result
        (λ keep. (length keep.items ≡ length members.now) × AreMarks members.now keep.items) }
    ensures overflow { IfErr result (IsOverflowIn (LeavesBetween members.now)) }
{
    let mut keep = Vec::new(alloc);
    for index in 0..members.len() {
        let left_out = is_left_out(alloc, members, index)?;
        keep.push(!left_out)?;
    }
    Ok(keep)
}

/// Takes a member out.
fn take_out(members: &mut Vec<Poly>, index: usize)
    requires { index < length members.old.items }
    ensures { members.new.items ≡ remove members.old.items index }
{
    let _left_out = members.remove(index);
}

/// The members that are marked; the others are taken out.
fn marked_alone(members: Vec<Poly>, keep: &[bool]) -> Vec<Poly>
    requires { length keep.now ≡ length members.items }
    ensures { result.items ≡ marked keep.now members.items }
{
    let mut part = members;
    let mut index = part.len();
    while index > 0 {
        index -= 1;
        if !keep[index] {
            take_out(&mut part, index);
        }
    }
    part
}

/// The members that no other one makes superfluous, in their order.
///
/// # Errors
///
/// A constraint and a generator of two members whose dot leaves the range: the first to
/// which the tests come.
pub(crate) fn reduced(alloc: Global, members: Vec<Poly>) -> Result<Vec<Poly>, ConvErr>
    requires { HaveOneDimension members.items }
    ensures reduced { IfOk result (λ part. IsReduced members.items part.items) }
    ensures overflow { IfErr result (IsOverflowIn (LeavesBetween members.items)) }
{
    let keep = marks_of(alloc, &members)?;
    Ok(marked_alone(members, &keep))
}
