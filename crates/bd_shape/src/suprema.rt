//! The smallest shape that includes a polyhedron.
ghost use Rattle.std.specs.Prelude.{◌≡◌, ◌≢◌, ◌↔◌, ◌+◌, ◌<◌, ◌≤◌, ℕ, [], length, IfSome, IfOk, IfErr, OnOk, Ok, Err, None};
ghost use Rattle.gens_sys.specs.Generators.{FitDimension};
ghost use Rattle.poly_pair.specs.Polyhedra.{HasNoPoint};
ghost use Rattle.optimum.specs.Search.{SeekLeaves};
ghost use Rattle.difference_bounds.specs.Fractions.{IsFraction};
ghost use Rattle.difference_bounds.specs.Tables.{bounds_of};
ghost use Rattle.row_core.specs.Refusals.{IsOverflowIn};
ghost use Rattle.bd_shape.specs.Differences.{difference};
ghost use Rattle.bd_shape.specs.Suprema.{IsSupremumOf, AreSuprema, IsSmallest, IsFoundAt, AreFound, IsFinding, answered, LeavesInSupremum, LeavesInSuprema};

use crate::rows::difference;
use crate::shape::Shape;
use difference_bounds::{BoundTable, Fraction};
use optimum::{Sup, shown, sup};
use poly_pair::{Poly, Topology};
use row_core::ConvErr;
use std::alloc::Global;

/// The bound that an answer gives.
fn bound_of(answer: Sup) -> Option<Fraction>
    ensures { result ≡ answered answer }
{
    match answer {
        Sup::Empty => None,
        Sup::Unbounded => None,
        Sup::At {
            num,
            den,
            attained: _,
            index: _,
        } => Some(Fraction { num, den }),
    }
}

/// The supremum of the difference of two places.
fn supremum(alloc: Global, p: &Poly, i: usize, j: usize) -> Result<Option<Fraction>, ConvErr>
    requires topology { p.now.topology ≡ Topology.Closed }
    requires points { p.now.gens.list ≢ [] }
    requires first { i ≤ p.now.cons.dim }
    requires second { j ≤ p.now.cons.dim }
    ensures supremum { IfOk result (IsSupremumOf p.now i j) }
    ensures fraction { IfOk result (λ bound. IfSome bound IsFraction) }
    ensures found { OnOk result (IsFoundAt p.now i j) }
    ensures overflow { IfErr result
        (IsOverflowIn (LeavesInSupremum (difference p.now.cons.dim i j) p.now.gens)) }
{
    let row = difference(alloc, p.dim(), i, j)?;
    let gens = p.gens();
    let _dim = gens.dim();
    match sup(p, row.cells()) {
        Ok(answer) => Ok(bound_of(answer)),
        Err(pair) => Err(ConvErr::Overflow(shown(alloc, row, gens, pair)?)),
    }
}

/// Finds the bound of place `i` less place `j`, if they are two.
fn find(alloc: Global, p: &Poly, bounds: &mut BoundTable, i: usize, j: usize) -> Result<(), ConvErr>
    requires topology { p.now.topology ≡ Topology.Closed }
    requires points { p.now.gens.list ≢ [] }
    requires places { bounds.old.places ≡ p.now.cons.dim + 1 }
    requires first { i < p.now.cons.dim + 1 }
    requires second { j < p.now.cons.dim + 1 }
    ensures places { bounds.new.places ≡ bounds.old.places }
    ensures found { OnOk result
        (IsFinding p.now bounds.old i j → IsFinding p.now bounds.new i (j + 1)) }
    ensures overflow { IfErr result
        (IsOverflowIn (λ over. IsFinding p.now bounds.old i j → LeavesInSuprema p.now over)) }
{
    if i == j {
        return Ok(());
    }
    let bound = supremum(alloc, p, i, j)?;
    Ok(bounds.set(alloc, i, j, bound)?)
}

/// Finds the bounds of place `i` less each other place.
fn find_row(alloc: Global, p: &Poly, bounds: &mut BoundTable, i: usize) -> Result<(), ConvErr>
    requires topology { p.now.topology ≡ Topology.Closed }
    requires points { p.now.gens.list ≢ [] }
    requires places { bounds.old.places ≡ p.now.cons.dim + 1 }
    requires row { i < p.now.cons.dim + 1 }
    ensures places { bounds.new.places ≡ bounds.old.places }
    ensures found { OnOk result
        (IsFinding p.now bounds.old i 0 → IsFinding p.now bounds.new (i + 1) 0) }
    ensures overflow { IfErr result
        (IsOverflowIn (λ over. IsFinding p.now bounds.old i 0 → LeavesInSuprema p.now over)) }
{
    for j in 0..bounds.places() {
        find(alloc, p, bounds, i, j)?;
    }
    Ok(())
}

/// The smallest shape that includes a closed polyhedron. Each bound is the supremum of
/// a difference.
///
/// # Errors
///
/// Of the first difference whose supremum isn't found, the pair that leaves the range.
pub fn shape_of(alloc: Global, p: &Poly) -> Result<Shape, ConvErr>
    requires { p.now.topology ≡ Topology.Closed }
    ensures dim { IfOk result (λ s. s.dim ≡ p.now.cons.dim) }
    ensures empty { IfOk result (λ s. (s.bounds ≡ None) ↔ HasNoPoint p.now) }
    ensures suprema { IfOk result (λ s. IfSome s.bounds (λ t. AreSuprema p.now (bounds_of t))) }
    ensures smallest { IfOk result (IsSmallest p.now) }
    ensures found { OnOk result (AreFound p.now) }
    ensures overflow { IfErr result (IsOverflowIn (LeavesInSuprema p.now)) }
{
    let dim = p.dim();
    if p.is_empty() {
        return Ok(Shape { dim, bounds: None });
    }
    let mut bounds = BoundTable::new(alloc, dim + 1)?;
    for i in 0..dim + 1 {
        find_row(alloc, p, &mut bounds, i)?;
    }
    let _kept = bounds.places();
    Ok(Shape {
        dim,
        bounds: Some(bounds),
    })
}
