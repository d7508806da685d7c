//! Bounds as words of 64 bits: the sum of two short whole numbers is one addition, and their
//! comparison one comparison.
ghost use Rattle.std.specs.Prelude.{◌≡◌, ◌≢◌, ◌<◌, ◌≤◌, ℕ, length, pos, get_or, ◌<ℤ◌, Some, true, IsTrue, IfSome};
ghost use Rattle.difference_bounds.specs.Fractions.{IsFraction};
ghost use Rattle.difference_bounds.specs.Words.{IsShort, IsWord, IsWithinWords, IsStep, IsComparison, AllCovered, IsRaised, AreRaised, other, whole};

use crate::fraction::Fraction;

/// The word of no bound, above each whole number that has one.
pub(crate) const ABSENT: i64 = 1 << 62;

/// The word of a bound that isn't such a number. A sum with it is below each of theirs.
pub(crate) const OTHER: i64 = -(1 << 62);

/// Whole numbers below it in size are their own words.
const LIMIT: i64 = 1 << 60;

/// What becomes of a bound that is lowered to the sum of two others.
#[derive(Clone, Copy)]
pub(crate) enum Outcome {
    /// It stays.
    Stays,
    /// It is now the whole number.
    Falls(i64),
    /// Their words don't tell.
    Unknown,
}

/// The word of a fraction.
#[inline]
fn word_of_fraction(fraction: Fraction) -> i64
    ensures word { IsWord (Some fraction) result }
{
    if fraction.den == 1 && i128::from(-LIMIT) < fraction.num && fraction.num < i128::from(LIMIT) {
        return fraction.num as i64;
    }
    OTHER
}

/// The word of a bound.
#[inline]
pub(crate) fn word_of(bound: Option<Fraction>) -> i64
    ensures { IsWord bound result }
{
    match bound {
        None => ABSENT,
        Some(fraction) => word_of_fraction(fraction),
    }
}

/// The fraction of a short whole number.
#[inline]
pub(crate) fn fraction_of(number: i64) -> Fraction
    requires { IsShort number }
    ensures same { result ≡ whole number }
    ensures fraction { IsFraction result }
{
    Fraction {
        num: i128::from(number),
        den: 1,
    }
}

/// What becomes of a bound that is lowered to the sum of two others, by the words of the three.
#[inline]
pub(crate) fn step(bound: i64, to: i64, from: i64) -> Outcome
    requires to { IsWithinWords to }
    requires from { IsWithinWords from }
    ensures { IsStep bound to from result }
{
    if to == ABSENT || from == ABSENT {
        return Outcome::Stays;
    }
    let sum = to + from;
    if bound == OTHER || sum <= -LIMIT {
        return Outcome::Unknown;
    }
    if sum >= bound {
        return Outcome::Stays;
    }
    if sum >= LIMIT {
        return Outcome::Unknown;
    }
    Outcome::Falls(sum)
}

/// Whether one bound is below another, if their words tell. None is above all.
#[inline]
pub(crate) fn compared(left: i64, right: i64) -> Option<bool>
    ensures comparison { IsComparison left right result }
    ensures lesser { result ≡ Some true → (left <ℤ right) × (left ≢ other) }
{
    if right <= left {
        return if right == OTHER { None } else { Some(false) };
    }
    if left == OTHER { None } else { Some(true) }
}

/// Whether each bound of the second list is known to be at most that of the first, by their words.
pub(crate) fn all_covered(left: &[i64], right: &[i64]) -> bool
    requires { length left.now ≡ length right.now }
    ensures { IsTrue result → AllCovered left.now right.now }
{
    for q in 0..left.len() {
        if left[q] < right[q] || right[q] == OTHER {
            return false;
        }
    }
    true
}

/// The greater of two words.
#[inline]
fn greater_word(left: i64, right: i64) -> i64
    ensures { IsRaised left right result }
{
    if left < right { right } else { left }
}

/// Puts the greater of each two words in the place of the first.
pub(crate) fn raise(left: &mut [i64], right: &[i64])
    requires { length left.old ≡ length right.now }
    ensures full { length left.new ≡ length left.old }
    ensures raised { AreRaised left.old right.now left.new }
{
    for q in 0..left.len() {
        left[q] = greater_word(left[q], right[q]);
    }
}
