//! The bounds of an expression on a polyhedron.
ghost use Rattle.std.specs.Prelude.{◌≡◌, ◌+◌, ◌∷◌, [], ◌↔◌, length, IfOk, Ok, Err, true, false};
ghost use Rattle.row_core.specs.Range.{InRange};
ghost use Rattle.row_core.specs.Content.{IsPrimitiveOf};
ghost use Rattle.row_core.specs.declared.PairOver.{PairOver};
ghost use Rattle.set_laws.specs.Asking.{IsProper};
ghost use Rattle.poly_pair.specs.Polyhedra.{HasNoPoint};
ghost use Rattle.optimum.specs.Search.{SeekLeaves};
ghost use Rattle.optimum.specs.Suprema.{SupAnswer, IsTrueSup, IsUnbounded};
ghost use Rattle.optimum.specs.declared.outcome.Sup.TheVariants as answers;

use crate::outcome::Sup;
use crate::seeking::{Found, seek};
use gens_sys::{GenKind, GensSys};
use poly_pair::Poly;
use row_core::{PairOver, make_primitive};

#[derive(Clone, Copy)]
struct Fraction {
    num: i128,
    den: i128,
}

/// The fraction in lowest terms.
fn lowest(num: i128, den: i128) -> Fraction
    requires num { InRange num }
    requires den { InRange den }
    ensures { IsPrimitiveOf (num ∷ den ∷ []) (result.num ∷ result.den ∷ []) }
{
    let mut pair = [num, den];
    make_primitive(&mut pair);
    Fraction {
        num: pair[0],
        den: pair[1],
    }
}

/// The best point as an answer.
fn answered(up: bool, gens: &GensSys, row: &[i128]) -> Result<Sup, PairOver>
    requires wide { length row.now ≡ gens.now.dim + 1 }
    requires proper { IsProper gens.now }
    ensures { SupAnswer up row.now gens.now result }
{
    let dim = gens.dim();
    match seek(up, row, gens)? {
        Found::Nothing => Ok(Sup::Empty),
        Found::Endless => Ok(Sup::Unbounded),
        Found::Point(best) => {
            let fraction = lowest(best.value, gens.row(best.index)[dim]);
            Ok(Sup::At {
                num: fraction.num,
                den: fraction.den,
                attained: gens.kind(best.index) == GenKind::Point,
                index: best.index,
            })
        }
    }
}

/// The bound in the one direction or the other.
fn extremum(up: bool, p: &Poly, row: &[i128]) -> Result<Sup, PairOver>
    requires wide { length row.now ≡ p.now.cons.dim + 1 }
    ensures answer { SupAnswer up row.now p.now.gens result }
    ensures holds { IfOk result (IsTrueSup up row.now p.now) }
    ensures empty { (result ≡ Ok answers.Empty) ↔ HasNoPoint p.now }
    ensures unbounded { IfOk result (λ s. (s ≡ answers.Unbounded) ↔ IsUnbounded up row.now p.now) }
    ensures over { (over : PairOver) → (result ≡ Err over)
        ↔ SeekLeaves up row.now p.now.gens.dim p.now.gens.list over }
{
    let gens = p.gens();
    let _dim = gens.dim();
    answered(up, gens, row)
}

/// The supremum of an expression on the points of a polyhedron.
///
/// The generators are gone through in order, up to a line on which the expression isn't 0 or a ray
/// on which it is above 0. A point takes the place of the best so far where it is better, or where
/// both have one value and the new one alone is a point of the set.
///
/// # Errors
///
/// The first product or partial sum that leaves the range: of the expression and a generator, or of
/// two generators that are compared.
pub fn sup(p: &Poly, expr: &[i128]) -> Result<Sup, PairOver>
    requires wide { length expr.now ≡ p.now.cons.dim + 1 }
    ensures answer { SupAnswer true expr.now p.now.gens result }
    ensures holds { IfOk result (IsTrueSup true expr.now p.now) }
    ensures empty { (result ≡ Ok answers.Empty) ↔ HasNoPoint p.now }
    ensures unbounded { IfOk result (λ s. (s ≡ answers.Unbounded)
        ↔ IsUnbounded true expr.now p.now) }
    ensures over { (over : PairOver) → (result ≡ Err over)
        ↔ SeekLeaves true expr.now p.now.gens.dim p.now.gens.list over }
{
    extremum(true, p, expr)
}

/// The infimum of an expression on the points of a polyhedron: as [`sup`], with all
/// comparisons turned.
///
/// # Errors
///
/// As [`sup`].
pub fn inf(p: &Poly, expr: &[i128]) -> Result<Sup, PairOver>
    requires wide { length expr.now ≡ p.now.cons.dim + 1 }
    ensures answer { SupAnswer false expr.now p.now.gens result }
    ensures holds { IfOk result (IsTrueSup false expr.now p.now) }
    ensures empty { (result ≡ Ok answers.Empty) ↔ HasNoPoint p.now }
    ensures unbounded { IfOk result (λ s. (s ≡ answers.Unbounded)
        ↔ IsUnbounded false expr.now p.now) }
    ensures over { (over : PairOver) → (result ≡ Err over)
        ↔ SeekLeaves false expr.now p.now.gens.dim p.now.gens.list over }
{
    extremum(false, p, expr)
}
