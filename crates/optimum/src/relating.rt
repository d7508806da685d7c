//! How a set lies to a constraint.
ghost use Rattle.std.specs.Prelude.{◌≡◌, ◌+◌, ◌<◌, ◌↔◌, length, neg_ℤ, IfOk, IsTrue, Err};
ghost use Rattle.row_core.specs.Range.{InRange};
ghost use Rattle.row_core.specs.declared.PairOver.{PairOver};
ghost use Rattle.optimum.specs.Values.{ValueAnswer, RowLeaves};
ghost use Rattle.optimum.specs.Relations.{AreNoted, AreFlags, SidesAnswer, RelationAnswer, IsRelation};

use crate::outcome::Relation;
use cons_sys::ConKind;
use gens_sys::{GenKind, GensSys};
use poly_pair::Poly;
use row_core::{OverKind, PairOver, dot};
use set_laws::asks;

/// Which constraints of a row and of its negative all generators so far meet.
#[derive(Clone, Copy)]
pub(crate) struct Sides {
    zero: bool,
    least: bool,
    above: bool,
    most: bool,
    below: bool,
}

/// The negative of a number of the range.
fn turned(value: i128) -> i128
    requires { InRange value }
    ensures value { result ≡ neg_ℤ value }
    ensures in_range { InRange result }
{
    -value
}

/// One generator more.
fn noted(sides: Sides, kind: GenKind, value: i128) -> Sides
    requires { InRange value }
    ensures { AreNoted sides kind value result }
{
    let other = turned(value);
    Sides {
        zero: sides.zero && asks(ConKind::Eq, kind, value),
        least: sides.least && asks(ConKind::Ge, kind, value),
        above: sides.above && asks(ConKind::Gt, kind, value),
        most: sides.most && asks(ConKind::Ge, kind, other),
        below: sides.below && asks(ConKind::Gt, kind, other),
    }
}

/// The value of the row on generator `i`.
pub(crate) fn value_at(row: &[i128], gens: &GensSys, i: usize) -> Result<i128, PairOver>
    requires wide { length row.now ≡ gens.now.dim + 1 }
    requires generator { i < length gens.now.list }
    ensures answer { ValueAnswer row.now gens.now.list i result }
    ensures in_range { IfOk result InRange }
{
    match dot(row, gens.row(i)) {
        Ok(value) => Ok(value),
        Err(column) => Err(PairOver {
            kind: OverKind::Dot,
            left: 0,
            right: i,
            column,
            turned: false,
        }),
    }
}

/// The sides of all generators.
fn all_sides(row: &[i128], gens: &GensSys) -> Result<Sides, PairOver>
    requires wide { length row.now ≡ gens.now.dim + 1 }
    ensures { SidesAnswer row.now gens.now.list result }
{
    let mut so_far = Sides {
        zero: true,
        least: true,
        above: true,
        most: true,
        below: true,
    };
    for i in 0..gens.len() {
        let value = value_at(row, gens, i)?;
        so_far = noted(so_far, gens.kind(i), value);
    }
    Ok(so_far)
}

/// The flags of a constraint of this kind.
fn flags(kind: ConKind, sides: Sides) -> Relation
    ensures { AreFlags kind sides result }
{
    let included = match kind {
        ConKind::Eq => sides.zero,
        ConKind::Ge => sides.least,
        ConKind::Gt => sides.above,
    };
    let disjoint = match kind {
        ConKind::Eq => sides.above || sides.below,
        ConKind::Ge => sides.below,
        ConKind::Gt => sides.most,
    };
    Relation {
        disjoint,
        intersects: !disjoint && !included,
        included,
        saturates: sides.zero,
    }
}

/// How the points of a polyhedron lie to a constraint of any kind, on either topology.
///
/// # Errors
///
/// The first generator whose dot with the row leaves the range: `right` numbers it.
pub fn relation(p: &Poly, row: &[i128], kind: ConKind) -> Result<Relation, PairOver>
    requires wide { length row.now ≡ p.now.cons.dim + 1 }
    ensures answer { RelationAnswer row.now kind p.now result }
    ensures holds { IfOk result (IsRelation p.now.cons row.now kind) }
    ensures over { (over : PairOver) → (result ≡ Err over)
        ↔ RowLeaves row.now p.now.gens.list over }
{
    let gens = p.gens();
    let _dim = gens.dim();
    let found = all_sides(row, gens)?;
    Ok(flags(kind, found))
}
