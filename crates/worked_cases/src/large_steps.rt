//! Steps of a conversion with many pairs of rays, against a search over all pairs.
ghost use Rattle.std.specs.Prelude.{◌≡◌, ◌<◌, ◌^◌, length, IfOk};
ghost use Rattle.row_core.specs.Range.{InRange, AllInRange};

use chernikova::{add_rows, convert};
use row_core::{Memory, RowList, Steps};
use sat_matrix::SatMatrix;
use std::alloc::Global;
use std::marker::Brand;
use std::process::Abort;
use std::sync::ledger::{Blank, Ledger};
use std::test::Fail;

// How many rays with a value below 0 are adjacent to the one above it.
fn count_adjacent(zeros: &SatMatrix, values: &[i128], above: usize) -> usize
    requires as_many { length values.now ≡ length zeros.now.rows }
    requires above { above < length zeros.now.rows }
{
    let mut count = 0usize;
    for below in 0..values.len() {
        if values[below] < 0 && !zeros.third_between(above, below) {
            count = count.wrapping_add(1);
        }
    }
    count
}

// How many rays a system has after a further row on which they have those values.
fn count_rays(zeros: &SatMatrix, values: &[i128]) -> usize
    requires { length values.now ≡ length zeros.now.rows }
{
    let mut count = 0usize;
    for ray in 0..values.len() {
        if values[ray] >= 0 {
            count = count.wrapping_add(1);
        }
        if values[ray] > 0 {
            count = count.wrapping_add(count_adjacent(zeros, values, ray));
        }
    }
    count
}

// The last entry of each ray: its value on the row that is 1 there alone.
fn last_entries(alloc: Global, rays: &RowList) -> Result<Vec<i128>, Memory>
    requires { 0 < rays.now.width }
    ensures { IfOk result (λ v. length v.items ≡ length rays.now.rows) }
{
    let last = rays.width() - 1;
    let mut values = Vec::new(alloc);
    for ray in 0..rays.len() {
        values.push(rays.row(ray)[last])?;
    }
    Ok(values)
}

// Converts the rows, and then takes the last one, which is 1 in the last column alone. Gives how
// many rays there were before it.
fn check_last_step<L: Ledger>(
    rt: &impl Abort,
    alloc: Global,
    rows: &RowList,
    last: &RowList,
    steps: &mut Steps<L>,
) -> Result<usize, Fail>
    requires width { 0 < rows.now.width }
    requires narrow { rows.now.width < 2 ^ 32 }
    requires last { last.now.width ≡ rows.now.width }
{
    let before = convert(alloc, rows.width(), rows, steps)?;
    let after = add_rows(alloc, &before, rows, last, steps)?;
    let values = last_entries(alloc, &before.rays)?;
    assert_eq!(rt; after.rays.len(), count_rays(&before.sat, &values));
    Ok(before.rays.len())
}

// A number of times one and another.
fn cell(times: u64, one: u64, other: u64) -> i128
    ensures { InRange result }
{
    i128::from(times.wrapping_mul(one).wrapping_add(other))
}

// Fifty points of the curve (1, t, t^2, t^3, t^4), or so many times one of them and the next.
fn push_points(rows: &mut RowList, times: u64) -> Result<(), Memory>
    requires { rows.old.width ≡ 5 }
    ensures { rows.new.width ≡ 5 }
{
    for point in times.min(1)..50 {
        let next = point.wrapping_add(1);
        let (square, next_square) = (point.wrapping_mul(point), next.wrapping_mul(next));
        let row = [
            cell(times, 1, 1),
            cell(times, point, next),
            cell(times, square, next_square),
            cell(
                times,
                square.wrapping_mul(point),
                next_square.wrapping_mul(next),
            ),
            cell(
                times,
                square.wrapping_mul(square),
                next_square.wrapping_mul(next_square),
            ),
        ];
        rows.push(&row, false)?;
    }
    Ok(())
}

// A cyclic polytope has simple facets, and crowded ones where there are points between neighbours
// too: of one, two, three, four and five words.
fn check_curve<L: Ledger>(rt: &impl Abort, alloc: Global, blank: Blank) -> Result<(), Fail>
    requires name { blank.name ≡ L.name }
    requires parts { blank.parts ≡ L.parts }
    requires shared { 0 < blank.parts }
{
    let mut steps = Steps::<L>::new(blank);
    let mut last = RowList::new(alloc, 5);
    last.push(&[0, 0, 0, 0, 1], false)?;
    let mut rows = RowList::new(alloc, 5);
    for times in 0..6 {
        push_points(&mut rows, times)?;
        assert_eq!(rt; check_last_step(rt, alloc, &rows, &last, &mut steps)?, 1175);
    }
    Ok(())
}

#[test]
fn points_of_a_curve(rt: HostRuntime) -> Result<(), Fail> {
    check_curve::<Brand>(&rt, rt.alloc(), Blank::new(1))
}

// The pairs of six points, each as the set of its bits.
const PAIRS: [u32; 15] = [
    0b000011, 0b000101, 0b001001, 0b010001, 0b100001, 0b000110, 0b001010, 0b010010, 0b100010,
    0b001100, 0b010100, 0b100100, 0b011000, 0b101000, 0b110000,
];

// How many of two sets part the points of a pair.
fn parting(one: u32, other: u32, pair: u32) -> i128
    ensures { InRange result }
{
    let by_one = (one & pair).count_ones() & 1;
    let by_other = (other & pair).count_ones() & 1;
    i128::from(by_one.wrapping_add(by_other))
}

// The sum of two cuts of six points, each by the set of its bits: how many part each pair.
fn sum_of_cuts(alloc: Global, one: u32, other: u32) -> Result<Vec<i128>, Memory>
    ensures width { IfOk result (λ row. length row.items ≡ 15) }
    ensures in_range { IfOk result (λ row. AllInRange row.items) }
{
    let mut row = Vec::new(alloc);
    for index in 0..PAIRS.len() {
        row.push(parting(one, other, PAIRS[index]))?;
    }
    Ok(row)
}

// The sums of a cut and each one that isn't empty.
fn push_cuts(alloc: Global, rows: &mut RowList, cut: u32) -> Result<(), Memory>
    requires { rows.old.width ≡ 15 }
    ensures { rows.new.width ≡ 15 }
{
    for other in 1..32 {
        let row = sum_of_cuts(alloc, cut, other)?;
        rows.push(&row, false)?;
    }
    Ok(())
}

// Most facets of the cone of cuts are crowded: by the cuts alone, of one word, and with their
// sums, of sixteen.
fn check_cuts<L: Ledger>(rt: &impl Abort, alloc: Global, blank: Blank) -> Result<(), Fail>
    requires name { blank.name ≡ L.name }
    requires parts { blank.parts ≡ L.parts }
    requires shared { 0 < blank.parts }
{
    let mut steps = Steps::<L>::new(blank);
    let mut last = RowList::new(alloc, 15);
    last.push(&[0, 0, 0, 0, 0, 0, 0, 0, 0, 0, 0, 0, 0, 0, 1], false)?;
    let mut rows = RowList::new(alloc, 15);
    push_cuts(alloc, &mut rows, 0)?;
    assert_eq!(rt; check_last_step(rt, alloc, &rows, &last, &mut steps)?, 210);
    for cut in 1..32 {
        push_cuts(alloc, &mut rows, cut)?;
    }
    assert_eq!(rt; check_last_step(rt, alloc, &rows, &last, &mut steps)?, 210);
    Ok(())
}

#[test]
fn cuts_of_six_points(rt: HostRuntime) -> Result<(), Fail> {
    check_cuts::<Brand>(&rt, rt.alloc(), Blank::new(1))
}

// How many edges of a polygon are below: a row is above 0 on the rays of these alone.
const LOWER_EDGES: u64 = 32;

// Where an edge below begins: at a point of a parabola.
fn lower_point(edge: u64) -> (u64, u64) {
    let column = edge.wrapping_mul(8);
    (column, column.wrapping_mul(column))
}

// Where an edge above begins: at a point of another one, from the last point below to the first.
fn upper_point(edge: u64) -> (u64, u64) {
    let height = 65536u64.wrapping_sub(edge.wrapping_mul(edge));
    (256u64.wrapping_sub(edge), height)
}

// So many times a point, and another one: a point between them, or the other one itself.
fn push_between(
    rows: &mut RowList,
    times: u64,
    point: (u64, u64),
    other: (u64, u64),
) -> Result<(), Memory>
    requires { rows.old.width ≡ 3 }
    ensures { rows.new.width ≡ 3 }
{
    let row = [
        cell(times, 1, 1),
        cell(times, point.0, other.0),
        cell(times, point.1, other.1),
    ];
    Ok(rows.push(&row, false)?)
}

// Where the edges below begin, and so many further points on them, one edge after another.
fn push_lower(rows: &mut RowList, further: u64) -> Result<(), Memory>
    requires { rows.old.width ≡ 3 }
    ensures { rows.new.width ≡ 3 }
{
    for index in 0..LOWER_EDGES.wrapping_add(further) {
        let edge = index % LOWER_EDGES;
        let next = lower_point(edge.wrapping_add(1));
        push_between(rows, index / LOWER_EDGES, next, lower_point(edge))?;
    }
    Ok(())
}

// Where so many edges above begin, and a further point on each of the first few.
fn push_upper(rows: &mut RowList, edges: u64, further: u64) -> Result<(), Memory>
    requires edges { 0 < edges }
    requires width { rows.old.width ≡ 3 }
    ensures { rows.new.width ≡ 3 }
{
    for index in 0..edges.wrapping_add(further) {
        let edge = index % edges;
        let next = upper_point(edge.wrapping_add(1));
        push_between(rows, index / edges, next, upper_point(edge))?;
    }
    Ok(())
}

// A polygon of so many edges above, with so many further points on those below and above.
fn check_polygon<L: Ledger>(
    rt: &impl Abort,
    alloc: Global,
    edges: u64,
    below: u64,
    above: u64,
    steps: &mut Steps<L>,
) -> Result<(), Fail>
    requires { 0 < edges }
{
    let mut last = RowList::new(alloc, 3);
    last.push(&[0, 0, 1], false)?;
    let mut rows = RowList::new(alloc, 3);
    push_lower(&mut rows, below)?;
    push_upper(&mut rows, edges, above)?;
    let rays = check_last_step(rt, alloc, &rows, &last, steps)?;
    assert_eq!(rt; rays as u64, edges.wrapping_add(LOWER_EDGES));
    Ok(())
}

// Rays of eight times as many edges above as below are first narrowed to those near to all rays of
// the edges below, where these are 0 on at most half of the rows, and not with one edge less, nor
// where they are 0 on one row more: of simple rays, and of rays that are crowded on both sides.
fn check_polygons<L: Ledger>(rt: &impl Abort, alloc: Global, blank: Blank) -> Result<(), Fail>
    requires name { blank.name ≡ L.name }
    requires parts { blank.parts ≡ L.parts }
    requires shared { 0 < blank.parts }
{
    let mut steps = Steps::<L>::new(blank);
    check_polygon(rt, alloc, 256, 0, 0, &mut steps)?;
    check_polygon(rt, alloc, 255, 0, 0, &mut steps)?;
    check_polygon(rt, alloc, 256, 224, 2, &mut steps)?;
    check_polygon(rt, alloc, 256, 225, 2, &mut steps)
}

#[test]
fn few_edges_below_many(rt: HostRuntime) -> Result<(), Fail> {
    check_polygons::<Brand>(&rt, rt.alloc(), Blank::new(1))
}
