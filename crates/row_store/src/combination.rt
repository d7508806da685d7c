//! The combination of two vectors that is 0 on a row, from their values on it.
ghost use Rattle.std.specs.Prelude.{◌≡◌, ◌≢◌, ◌+◌, ◌^◌, ◌<◌, length, pos, neg_ℤ};
ghost use Rattle.std.specs.Prelude.{◌<ℤ◌, unsigned_abs, MatchResult, OnOk};
ghost use Rattle.std.specs.Int.{IsGcd};
ghost use Rattle.row_core.specs.Range.{InRange, AllInRange};
ghost use Rattle.row_core.specs.Combinations.{AreFactors, CombinationLeaves, IsCombined};

use row_core::{Steps, bits, combine_within, gcd, make_primitive_within, quotient};
use std::sync::ledger::Ledger;

/// The number with the other sign.
#[inline]
fn negated(x: i128) -> i128
    requires { InRange x }
    ensures value { result ≡ neg_ℤ x }
    ensures in_range { InRange result }
{
    -x
}

/// The greatest common divisor of two numbers, of which the first isn't 0.
#[inline]
fn divisor_of(u: i128, v: i128) -> i128
    requires first_in_range { InRange u }
    requires second_in_range { InRange v }
    requires nonzero { u ≢ pos 0 }
    ensures positive { pos 0 <ℤ result }
    ensures greatest { IsGcd (unsigned_abs u) (unsigned_abs v) (unsigned_abs result) }
    ensures in_range { InRange result }
{
    let (first, second) = (u.unsigned_abs(), v.unsigned_abs());
    if first == 1 || second == 1 {
        return 1;
    }
    gcd(first, second) as i128
}

/// The factors of the second and of the first of two vectors with the values `u` and `v` on a row,
/// in their combination that is 0 on the row.
pub(crate) fn factors(u: i128, v: i128) -> (i128, i128)
    requires first_in_range { InRange u }
    requires second_in_range { InRange v }
    requires nonzero { u ≢ pos 0 }
    ensures factors { AreFactors u v result.0 result.1 }
    ensures in_range { InRange result.0 × InRange result.1 }
{
    let divisor = divisor_of(u, v);
    let left = quotient(u, divisor);
    let right = quotient(v, divisor);
    if u > 0 {
        (left, negated(right))
    } else {
        (negated(left), right)
    }
}

/// Writes over `dst` the primitive combination, 0 on a row, of two vectors with the values `u` and
/// `v` on it. The factor of the second vector is positive.
///
/// # Errors
///
/// The first column at which a product or the sum leaves the range.
pub fn combine<L: Ledger>(
    dst: &mut [i128],
    left: &[i128],
    u: i128,
    right: &[i128],
    v: i128,
    steps: &mut Steps<L>,
) -> Result<(), u32>
    requires same_width { (length dst.old ≡ length right.now) ×
        (length right.now ≡ length left.now) }
    requires narrow { length right.now < 2 ^ 32 }
    requires first_in_range { InRange u }
    requires second_in_range { InRange v }
    requires nonzero { u ≢ pos 0 }
    ensures counted { steps.new ≡ steps.old + 1 }
    ensures width { length dst.new ≡ length dst.old }
    ensures combined { let Leaves = CombinationLeaves u v left.now right.now in
        MatchResult result (λ _. IsCombined u v left.now right.now dst.new) Leaves }
    ensures in_range { OnOk result (AllInRange dst.new) }
{
    let (second, first) = factors(u, v);
    dst.copy_from_slice(right);
    let within = bits(dst).max(bits(left));
    let made = combine_within(dst, second, left, first, within, steps)?;
    make_primitive_within(dst, made);
    Ok(())
}
