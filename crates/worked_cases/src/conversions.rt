//! Conversions between a cone and its rows.
ghost use Rattle.std.specs.Prelude.{◌≡◌, ◌<◌, ◌↔◌, IfOk, IsTrue};
ghost use Rattle.stored_systems.specs.PointSets.{AreClosed};

use chernikova::{Cone, add_rows, convert};
use cons_sys::{ConKind, ConsSys};
use minimise::{Simplified, simplify};
use poly_pair::{Poly, Topology};
use row_core::{ConvErr, Memory, OverKind, RowList, Steps};
use std::alloc::Global;
use std::marker::Brand;
use std::process::Abort;
use std::sync::ledger::{Blank, Ledger};
use std::test::Fail;

const K: i128 = i128::MAX;

// d >= 0, K*A + B >= 0
fn first_rows(alloc: Global) -> Result<RowList, Memory>
    ensures { IfOk result (λ rows. rows.width ≡ 3) }
{
    let mut rows = RowList::new(alloc, 3);
    rows.push(&[0, 0, 1], false)?;
    rows.push(&[K, 1, 0], false)?;
    Ok(rows)
}

// B >= -2
fn last_row(alloc: Global) -> Result<RowList, Memory>
    ensures { IfOk result (λ rows. rows.width ≡ 3) }
{
    let mut rows = RowList::new(alloc, 3);
    rows.push(&[0, 1, 2], false)?;
    Ok(rows)
}

// The first rows and the last one.
fn all_rows(alloc: Global) -> Result<RowList, Memory>
    ensures { IfOk result (λ rows. rows.width ≡ 3) }
{
    let mut rows = first_rows(alloc)?;
    rows.push(&[0, 1, 2], false)?;
    Ok(rows)
}

// At the last row the ray (1, -K, 0) has the value -K and the ray (0, 0, 1) the value 2: K times
// the one and 2 times the other leaves the range in the second column.
fn leaves_at_the_last_row(rt: &impl Abort, converted: Result<Cone, ConvErr>) {
    match converted {
        Err(ConvErr::Overflow(over)) => {
            assert_eq!(rt; over.kind, OverKind::Combine);
            assert_eq!(rt; over.step, 2);
            assert_eq!(rt; over.left.cells(), [1, -K, 0].as_slice());
            assert_eq!(rt; over.right.cells(), [0, 0, 1].as_slice());
            assert_eq!(rt; over.column, 1);
        }
        _ => assert!(rt; false, "the combination leaves the range"),
    }
}

fn check_overflow<L: Ledger>(rt: &impl Abort, alloc: Global, blank: Blank) -> Result<(), Fail>
    requires name { blank.name ≡ L.name }
    requires parts { blank.parts ≡ L.parts }
    requires shared { 0 < blank.parts }
{
    let mut steps = Steps::<L>::new(blank);
    let rows = all_rows(alloc)?;
    leaves_at_the_last_row(rt, convert(alloc, 3, &rows, &mut steps));
    Ok(())
}

#[test]
fn rays_that_cannot_be_combined(rt: HostRuntime) -> Result<(), Fail> {
    check_overflow::<Brand>(&rt, rt.alloc(), Blank::new(1))
}

fn check_overflow_later<L: Ledger>(rt: &impl Abort, alloc: Global, blank: Blank) -> Result<(), Fail>
    requires name { blank.name ≡ L.name }
    requires parts { blank.parts ≡ L.parts }
    requires shared { 0 < blank.parts }
{
    let mut steps = Steps::<L>::new(blank);
    let taken = first_rows(alloc)?;
    let more = last_row(alloc)?;
    let cone = convert(alloc, 3, &taken, &mut steps)?;
    let before = cone.clone()?;
    leaves_at_the_last_row(rt, add_rows(alloc, &cone, &taken, &more, &mut steps));
    assert!(rt; cone.lines == before.lines && cone.rays == before.rays);
    Ok(())
}

#[test]
fn further_row_that_cannot_be_taken(rt: HostRuntime) -> Result<(), Fail> {
    check_overflow_later::<Brand>(&rt, rt.alloc(), Blank::new(1))
}

// d >= 0, A >= 0, B >= 0
fn quadrant(alloc: Global) -> Result<RowList, Memory>
    ensures { IfOk result (λ rows. rows.width ≡ 3) }
{
    let mut rows = RowList::new(alloc, 3);
    rows.push(&[0, 0, 1], false)?;
    rows.push(&[1, 0, 0], false)?;
    rows.push(&[0, 1, 0], false)?;
    Ok(rows)
}

// A <= 1, B <= 1
fn upper_bounds(alloc: Global) -> Result<RowList, Memory>
    ensures { IfOk result (λ rows. rows.width ≡ 3) }
{
    let mut rows = RowList::new(alloc, 3);
    rows.push(&[-1, 0, 1], false)?;
    rows.push(&[0, -1, 1], false)?;
    Ok(rows)
}

// The corners of a square, each with the sides on which it is.
fn is_square(rt: &impl Abort, cone: &Cone) {
    assert!(rt; cone.lines.is_empty());
    assert_eq!(rt; cone.rays.len(), 4);
    assert_eq!(rt; cone.rays.row(0), [1, 1, 1].as_slice());
    assert_eq!(rt; cone.rays.row(1), [1, 0, 1].as_slice());
    assert_eq!(rt; cone.rays.row(2), [0, 1, 1].as_slice());
    assert_eq!(rt; cone.rays.row(3), [0, 0, 1].as_slice());
    assert_eq!(rt; cone.sat.len(), 4);
    assert_eq!(rt; cone.sat.columns(), 5);
    assert_eq!(rt; [cone.sat.get(0, 1), cone.sat.get(0, 2)], [false, false]);
    assert_eq!(rt; [cone.sat.get(0, 3), cone.sat.get(0, 4)], [true, true]);
}

fn check_further_rows<L: Ledger>(rt: &impl Abort, alloc: Global, blank: Blank) -> Result<(), Fail>
    requires name { blank.name ≡ L.name }
    requires parts { blank.parts ≡ L.parts }
    requires shared { 0 < blank.parts }
{
    let mut steps = Steps::<L>::new(blank);
    let taken = quadrant(alloc)?;
    let more = upper_bounds(alloc)?;
    let cone = convert(alloc, 3, &taken, &mut steps)?;
    let square = add_rows(alloc, &cone, &taken, &more, &mut steps)?;
    is_square(rt, &square);
    assert_eq!(rt; cone.rays.len(), 3);
    Ok(())
}

#[test]
fn further_rows_are_taken(rt: HostRuntime) -> Result<(), Fail> {
    check_further_rows::<Brand>(&rt, rt.alloc(), Blank::new(1))
}

// d >= 0, 18446744073709551616*A + B = -1, A - B = 0
fn left_rows(alloc: Global) -> Result<RowList, Memory>
    ensures { IfOk result (λ rows. rows.width ≡ 3) }
{
    let mut rows = RowList::new(alloc, 3);
    rows.push(&[0, 0, 1], false)?;
    rows.push(&[18446744073709551616, 1, 1], true)?;
    rows.push(&[1, -1, 0], true)?;
    Ok(rows)
}

// The constraints whose list that is.
fn left_constraints(alloc: Global) -> Result<ConsSys, Memory>
    ensures { IfOk result (λ cons. cons.dim ≡ 2) }
{
    let mut cons = ConsSys::new(alloc, 2);
    cons.push(&[18446744073709551616, 1, 1], ConKind::Eq)?;
    cons.push(&[1, -1, 0], ConKind::Eq)?;
    Ok(cons)
}

// Whether no constraint is strict.
fn are_closed(cons: &ConsSys) -> bool
    ensures { IsTrue result ↔ AreClosed cons.now }
{
    for index in 0..cons.len() {
        if cons.kind(index) == ConKind::Gt {
            return false;
        }
    }
    true
}

fn check_left<L: Ledger>(rt: &impl Abort, alloc: Global, blank: Blank) -> Result<(), Fail>
    requires name { blank.name ≡ L.name }
    requires parts { blank.parts ≡ L.parts }
    requires shared { 0 < blank.parts }
{
    let mut steps = Steps::<L>::new(blank);
    let rows = left_rows(alloc)?;
    let first = convert(alloc, 3, &rows, &mut steps)?;
    let made = simplify(
        alloc,
        &rows,
        &first.lines,
        &first.rays,
        &first.sat,
        &mut steps,
    )?;
    assert!(rt;
        matches!(&made, Simplified::Left { .. }),
        "a combination leaves the range"
    );
    Ok(())
}

#[test]
fn combination_that_is_left(rt: HostRuntime) -> Result<(), Fail> {
    check_left::<Brand>(&rt, rt.alloc(), Blank::new(1))
}

fn check_second_conversion<L: Ledger>(
    rt: &impl Abort,
    alloc: Global,
    blank: Blank,
) -> Result<(), Fail>
    requires name { blank.name ≡ L.name }
    requires parts { blank.parts ≡ L.parts }
    requires shared { 0 < blank.parts }
{
    let mut steps = Steps::<L>::new(blank);
    let cons = left_constraints(alloc)?;
    if !are_closed(&cons) {
        return Err(Fail::new("a strict constraint"));
    }
    let poly = Poly::from_cons(alloc, Topology::Closed, &cons, &mut steps)?;
    let stored = poly.cons();
    assert_eq!(rt; stored.len(), 2);
    assert_eq!(rt; stored.row(0), [18446744073709551617, 0, 1].as_slice());
    assert_eq!(rt; stored.row(1), [0, 18446744073709551617, 1].as_slice());
    Ok(())
}

#[test]
fn second_list_is_converted(rt: HostRuntime) -> Result<(), Fail> {
    check_second_conversion::<Brand>(&rt, rt.alloc(), Blank::new(1))
}
