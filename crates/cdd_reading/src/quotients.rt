//! Common divisors, quotients and signs.
ghost use Rattle.std.specs.Prelude.{◌≡◌, ◌/◌, ◌^◌, ◌<◌, ◌≤◌, pos};
ghost use Rattle.std.proofs.Math.IntN.{neg_ℤ};
ghost use Rattle.row_core.specs.Range.{InRange};
ghost use Rattle.cdd_reading.specs.Fractions.{gcd, signed};

use row_core::gcd;

/// The greatest number of one word.
const WORD: u128 = 0xffff_ffff_ffff_ffff;

/// The greatest common divisor of a number and a positive one.
pub fn common_divisor(a: u128, b: u128) -> u128
    requires { 0 < b }
    ensures value { result ≡ gcd a b }
    ensures positive { 0 < result }
    ensures small { result ≤ b }
{
    if b == 1 {
        return 1;
    }
    gcd(a, b)
}

/// The quotient; that of two words by one division of words.
pub fn quotient(a: u128, b: u128) -> u128
    requires { 0 < b }
    ensures { result ≡ a / b }
{
    if b == 1 {
        a
    } else if a <= WORD && b <= WORD {
        u128::from(a as u64 / b as u64)
    } else {
        a / b
    }
}

/// The integer with this sign and size.
pub fn signed(negative: bool, size: u128) -> i128
    requires { size < 2 ^ 127 }
    ensures value { result ≡ signed negative size }
    ensures in_range { InRange result }
{
    let value = to_signed(size);
    if negative { negation(value) } else { value }
}

/// The number as a signed one.
pub(crate) fn to_signed(size: u128) -> i128
    requires { size < 2 ^ 127 }
    ensures { result ≡ pos size }
{
    size as i128
}

pub(crate) fn negation(x: i128) -> i128
    requires { InRange x }
    ensures { result ≡ neg_ℤ x }
{
    -x
}
