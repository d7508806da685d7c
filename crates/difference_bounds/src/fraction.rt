//! Fractions in lowest terms, exact or refused at the first column that leaves the range.
ghost use Rattle.std.specs.Prelude.{◌∷◌, [], ◌+ℤ◌, ◌*ℤ◌, ◌↔◌, pos, ◌<ℤ◌, IsTrue, SomeIff, MatchResult};
ghost use Rattle.row_core.specs.Range.{InRange, ColumnStays, IsFirstToLeave, AllStay};
ghost use Rattle.difference_bounds.specs.Fractions.{IsFraction, IsLowestOf, IsBelow, IsSumAnswer, CompareStays, sum};

use row_core::{combination, make_primitive, product};

/// A fraction in lowest terms, with a positive denominator.
#[derive(Clone, Copy)]
pub struct Fraction {
    /// The numerator.
    pub num: i128,
    /// The denominator, at least 1.
    pub den: i128,
}

/// The fraction in lowest terms.
pub fn lowest(num: i128, den: i128) -> Fraction
    requires num { InRange num }
    requires den { InRange den }
    requires positive { pos 0 <ℤ den }
    ensures same { IsLowestOf (record { num = num; den = den }) result }
    ensures fraction { IsFraction result }
{
    if den == 1 {
        return Fraction { num, den };
    }
    let mut pair = [num, den];
    make_primitive(&mut pair);
    Fraction {
        num: pair[0],
        den: pair[1],
    }
}

impl Fraction {
    /// The sum.
    ///
    /// # Errors
    ///
    /// Column 0 where a product of a numerator and a denominator, or their sum, leaves the range;
    /// else column 1 where the product of the denominators does.
    pub fn plus(self, other: Fraction) -> Result<Fraction, u32>
        requires left { IsFraction self }
        requires right { IsFraction other }
        ensures { IsSumAnswer self other result }
    {
        let Some(num) = combination(other.den, self.num, self.den, other.num) else {
            return Err(0);
        };
        let Some(den) = product(self.den, other.den) else {
            return Err(1);
        };
        Ok(lowest(num, den))
    }

    /// Whether this one is below the other.
    ///
    /// # Errors
    ///
    /// Column 0 where this numerator times the other denominator leaves the range; else column 1
    /// where the other numerator times this denominator does.
    pub fn is_below(self, other: Fraction) -> Result<bool, u32>
        ensures { MatchResult result (λ below. IsTrue below ↔ IsBelow self other)
            (IsFirstToLeave (CompareStays self other) 2) }
    {
        let Some(left) = product(self.num, other.den) else {
            return Err(0);
        };
        let Some(right) = product(other.num, self.den) else {
            return Err(1);
        };
        Ok(left < right)
    }
}
