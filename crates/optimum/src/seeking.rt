//! The best point of a list of generators.
ghost use Rattle.std.specs.Prelude.{◌≡◌, ◌+◌, ◌<◌, ◌↔◌, length, ◌*ℤ◌, SomeIff, IsTrue, cond};
ghost use Rattle.row_core.specs.Vectors.{cell, dot};
ghost use Rattle.row_core.specs.Range.{InRange};
ghost use Rattle.gens_sys.specs.Generators.{row_at, kind_at, FitDimension};
ghost use Rattle.optimum.specs.Search.{IsShort, Improves, IsPointKind, Replaces, Keeps, IsHeld, SeekAnswer, VisitAnswer, CompareAnswer};

use crate::relating::value_at;
use gens_sys::{GenKind, GensSys};
use row_core::{OverKind, PairOver, product};

/// The best point so far.
#[derive(Clone, Copy)]
pub(crate) struct Best {
    pub(crate) index: usize,
    pub(crate) value: i128,
}

/// What a search finds.
#[derive(Clone, Copy)]
pub(crate) enum Found {
    Nothing,
    Endless,
    Point(Best),
}

/// What one generator does to a search.
#[derive(Clone, Copy)]
pub(crate) enum Visit {
    Stop,
    Keep(Option<Best>),
}

/// Whether `x` is less good than `y`.
fn is_short(up: bool, x: i128, y: i128) -> bool
    ensures { IsTrue result ↔ IsShort up x y }
{
    if up { x < y } else { y < x }
}

/// Whether the values have no bound with this generator.
fn improves(up: bool, kind: GenKind, value: i128) -> bool
    ensures { IsTrue result ↔ Improves up kind value }
{
    match kind {
        GenKind::Line => value != 0,
        GenKind::Ray => is_short(up, 0, value),
        GenKind::Point | GenKind::ClosurePoint => false,
    }
}

/// Whether a generator of the kind stands for a point.
fn is_point(kind: GenKind) -> bool
    ensures { IsTrue result ↔ IsPointKind kind }
{
    match kind {
        GenKind::Line | GenKind::Ray => false,
        GenKind::Point | GenKind::ClosurePoint => true,
    }
}

/// Whether a new point takes the place of the best, by the two products.
fn replaces(up: bool, left: i128, right: i128, new: GenKind, old: GenKind) -> bool
    ensures { IsTrue result ↔ Replaces up left right new old }
{
    is_short(up, left, right)
        || (left == right && new == GenKind::Point && old == GenKind::ClosurePoint)
}

/// The new point if it is taken, else the old one.
fn either(taken: bool, new: Best, old: Best) -> Best
    ensures { result ≡ cond taken new old }
{
    if taken { new } else { old }
}

/// The better of the best point and point `i`, which has the value.
fn compared(up: bool, gens: &GensSys, best: Best, i: usize, value: i128) -> Result<Best, PairOver>
    requires generator { i < length gens.now.list }
    requires best { best.index < length gens.now.list }
    ensures { CompareAnswer up gens.now.dim gens.now.list best i value result }
{
    let dim = gens.dim();
    let old = gens.row(best.index);
    let new = gens.row(i);
    let (Some(left), Some(right)) = (product(best.value, new[dim]), product(value, old[dim])) else {
        return Err(PairOver {
            kind: OverKind::Compare,
            left: best.index,
            right: i,
            column: dim as u32,
            turned: false,
        });
    };
    let taken = replaces(up, left, right, gens.kind(i), gens.kind(best.index));
    Ok(either(taken, Best { index: i, value }, best))
}

/// Takes generator `i` into the search.
fn take_in(
    up: bool,
    row: &[i128],
    gens: &GensSys,
    best: Option<Best>,
    i: usize,
) -> Result<Visit, PairOver>
    requires wide { length row.now ≡ gens.now.dim + 1 }
    requires generator { i < length gens.now.list }
    requires fits { FitDimension gens.now }
    requires keeps { Keeps up row.now gens.now.dim gens.now.list i best }
    ensures { VisitAnswer up row.now gens.now.dim gens.now.list i result }
{
    let value = value_at(row, gens, i)?;
    let kind = gens.kind(i);
    if improves(up, kind, value) {
        return Ok(Visit::Stop);
    }
    if !is_point(kind) {
        return Ok(Visit::Keep(best));
    }
    match best {
        None => Ok(Visit::Keep(Some(Best { index: i, value }))),
        Some(best) => Ok(Visit::Keep(Some(compared(up, gens, best, i, value)?))),
    }
}

/// The best point, unless the values have no bound.
pub(crate) fn seek(up: bool, row: &[i128], gens: &GensSys) -> Result<Found, PairOver>
    requires wide { length row.now ≡ gens.now.dim + 1 }
    ensures { SeekAnswer up row.now gens.now.dim gens.now.list result }
{
    let _dim = gens.dim();
    let mut best = None;
    for i in 0..gens.len() {
        match take_in(up, row, gens, best, i)? {
            Visit::Stop => return Ok(Found::Endless),
            Visit::Keep(kept) => best = kept,
        }
    }
    match best {
        None => Ok(Found::Nothing),
        Some(best) => Ok(Found::Point(best)),
    }
}
