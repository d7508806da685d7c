//! Dot products and combinations of rows, exact or refused at the first column that leaves the
//! range.
ghost use Rattle.std.specs.Prelude.{◌≡◌, ◌≢◌, ℕ, ◌+◌, ◌^◌, ◌<◌, ◌≤◌, length, List, ℤ, ◌+ℤ◌, ◌*ℤ◌, SomeIff, MatchResult, IfOk, OnOk};
ghost use Rattle.row_core.specs.Vectors.{dot, scale, add};
ghost use Rattle.row_core.specs.Range.{InRange, AllInRange, ColumnStays, DotStays, CombineStays, IsFirstToLeave, AllStay};
ghost use Rattle.row_core.specs.Sizes.{HaveBits, Suffices};

use crate::counting::Steps;
use crate::sizes::{bits, bits_of, exact_dot, word_dot, words_onto};
use std::sync::ledger::Ledger;

/// The one `i128` outside the range.
const OUTSIDE: i128 = i128::MIN;

/// How a dot product of rows is summed, by how many bits their numbers have.
#[derive(Clone, Copy)]
pub enum Summing {
    /// In one word, since all that is computed fits it.
    Words,
    /// Without tests, since nothing leaves the range.
    Exact,
    /// With each product and each partial sum tested.
    Checked,
}

impl Summing {
    /// How to sum the products of rows of a width, whose numbers have at most so many bits.
    #[inline]
    pub fn of(left: u32, right: u32, width: usize) -> Summing
        ensures suffices { (u v : List ℤ) → length u ≡ width → length v ≡ width →
            HaveBits left u → HaveBits right v → Suffices result u v }
        ensures words { (c : ℕ) → width < 2 ^ c → left + right + c ≤ 63 → result ≡ Summing.Words }
        ensures exact { (c : ℕ) → width < 2 ^ c → left + right + c ≤ 127 →
            result ≢ Summing.Checked }
    {
        let bits = u64::from(left) + u64::from(right) + u64::from(bits_of(width as u128));
        if bits <= 63 {
            return Summing::Words;
        }
        if bits <= 127 {
            return Summing::Exact;
        }
        Summing::Checked
    }

    /// What [`dot`] gives, of rows for which it suffices to sum so.
    ///
    /// # Errors
    ///
    /// Those of [`dot`].
    #[inline]
    pub fn dot(self, u: &[i128], v: &[i128]) -> Result<i128, u32>
        requires same_width { length u.now ≡ length v.now }
        requires narrow { length u.now < 2 ^ 32 }
        requires suffices { Suffices self u.now v.now }
        ensures exact { let Stays = DotStays u.now v.now in let width = length u.now in
            MatchResult result (λ d. (d ≡ dot u.now v.now) × AllStay Stays width)
            (IsFirstToLeave Stays width) }
        ensures in_range { IfOk result InRange }
    {
        match self {
            Summing::Words => Ok(word_dot(u, v)),
            Summing::Exact => Ok(exact_dot(u, v)),
            Summing::Checked => checked_dot(u, v),
        }
    }
}

/// The sum of the products of equal columns of two rows of one width.
///
/// # Errors
///
/// The first column at which a product or a partial sum leaves the range.
pub fn dot(u: &[i128], v: &[i128]) -> Result<i128, u32>
    requires same_width { length u.now ≡ length v.now }
    requires narrow { length u.now < 2 ^ 32 }
    ensures exact { let Stays = DotStays u.now v.now in let width = length u.now in
        MatchResult result (λ d. (d ≡ dot u.now v.now) × AllStay Stays width)
        (IsFirstToLeave Stays width) }
    ensures in_range { IfOk result InRange }
{
    Summing::of(bits(u), bits(v), u.len()).dot(u, v)
}

/// What [`dot`] gives, of rows whose numbers have so few bits that it isn't refused.
#[inline]
pub fn short_dot(u: &[i128], v: &[i128], left: u32, right: u32) -> i128
    requires same_width { length u.now ≡ length v.now }
    requires narrow { length u.now < 2 ^ 32 }
    requires left { HaveBits left u.now }
    requires right { HaveBits right v.now }
    requires short { left + right ≤ 95 }
    ensures value { result ≡ dot u.now v.now }
    ensures stays { AllStay (DotStays u.now v.now) (length u.now) }
    ensures in_range { InRange result }
{
    match Summing::of(left, right, u.len()) {
        Summing::Words => word_dot(u, v),
        _ => exact_dot(u, v),
    }
}

/// Writes `s * u + t * v` over `dst`, and counts one combination. All three rows have one width.
///
/// # Errors
///
/// The first column at which a product or the sum leaves the range. `dst` is then as before.
pub fn combine_into<L: Ledger>(
    dst: &mut [i128],
    u: &[i128],
    s: i128,
    v: &[i128],
    t: i128,
    steps: &mut Steps<L>,
) -> Result<(), u32>
    requires same_width { (length dst.old ≡ length u.now) × (length u.now ≡ length v.now) }
    requires narrow { length u.now < 2 ^ 32 }
    ensures counted { steps.new ≡ steps.old + 1 }
    ensures width { length dst.new ≡ length dst.old }
    ensures combined { let Stays = CombineStays u.now s v.now t in let width = length u.now in
        MatchResult result
        (λ _. (dst.new ≡ add (scale s u.now) (scale t v.now)) × AllStay Stays width)
        (λ j. (dst.new ≡ dst.old) × IsFirstToLeave Stays width j) }
    ensures in_range { OnOk result (AllInRange dst.new) }
{
    steps.tick();
    check_combination(u, s, v, t)?;
    dst.copy_from_slice(u);
    write_onto(dst, s, v, t);
    Ok(())
}

/// Writes `s * dst + t * v` over `dst`, and counts one combination. Both rows have one width, and
/// numbers of at most so many bits. It tells how many those of the combination have.
///
/// # Errors
///
/// The first column at which a product or the sum leaves the range. `dst` is then as before.
pub fn combine_within<L: Ledger>(
    dst: &mut [i128],
    s: i128,
    v: &[i128],
    t: i128,
    within: u32,
    steps: &mut Steps<L>,
) -> Result<u32, u32>
    requires same_width { length dst.old ≡ length v.now }
    requires narrow { length v.now < 2 ^ 32 }
    requires within { HaveBits within dst.old × HaveBits within v.now }
    ensures counted { steps.new ≡ steps.old + 1 }
    ensures width { length dst.new ≡ length dst.old }
    ensures combined { let Stays = CombineStays dst.old s v.now t in let width = length dst.old in
        MatchResult result
        (λ _. (dst.new ≡ add (scale s dst.old) (scale t v.now)) × AllStay Stays width)
        (λ j. (dst.new ≡ dst.old) × IsFirstToLeave Stays width j) }
    ensures in_range { OnOk result (AllInRange dst.new) }
    ensures bits { IfOk result (λ bits. HaveBits bits dst.new) }
{
    steps.tick();
    let factors = bits_of(s.unsigned_abs() | t.unsigned_abs());
    let all = u64::from(within) + u64::from(factors);
    if all <= 61 {
        return Ok(words_onto(dst, s as i64, v, t as i64));
    }
    if all > 125 {
        check_combination(dst, s, v, t)?;
    }
    write_onto(dst, s, v, t);
    Ok(bits(dst))
}

/// The product, if it is in the range.
#[inline]
pub fn product(a: i128, b: i128) -> Option<i128>
    ensures { SomeIff result (InRange (a *ℤ b)) (a *ℤ b) }
{
    if bits_of(a.unsigned_abs() | b.unsigned_abs()) <= 63 {
        return Some(i128::from(a as i64) * i128::from(b as i64));
    }
    match a.checked_mul(b) {
        Some(product) if product != OUTSIDE => Some(product),
        _ => None,
    }
}

/// The sum, if it is in the range.
#[inline]
pub fn sum(a: i128, b: i128) -> Option<i128>
    ensures { SomeIff result (InRange (a +ℤ b)) (a +ℤ b) }
{
    match a.checked_add(b) {
        Some(sum) if sum != OUTSIDE => Some(sum),
        _ => None,
    }
}

/// `s * x + t * y`, if it and both products are in the range.
#[inline]
pub fn combination(s: i128, x: i128, t: i128, y: i128) -> Option<i128>
    ensures { SomeIff result (ColumnStays s x t y) (s *ℤ x +ℤ t *ℤ y) }
{
    let left = product(s, x)?;
    let right = product(t, y)?;
    sum(left, right)
}

/// Whether `s * u + t * v` and all products in it are in the range.
///
/// # Errors
///
/// The first column at which the range is left.
fn check_combination(u: &[i128], s: i128, v: &[i128], t: i128) -> Result<(), u32>
    requires same_width { length u.now ≡ length v.now }
    requires narrow { length u.now < 2 ^ 32 }
    ensures { let Stays = CombineStays u.now s v.now t in let width = length u.now in
        MatchResult result (λ _. AllStay Stays width) (IsFirstToLeave Stays width) }
{
    for column in 0..u.len() {
        let Some(_) = combination(s, u[column], t, v[column]) else {
            return Err(column as u32);
        };
    }
    Ok(())
}

/// Writes `s * dst + t * v` over `dst`.
fn write_onto(dst: &mut [i128], s: i128, v: &[i128], t: i128)
    requires same_width { length dst.old ≡ length v.now }
    requires stays { AllStay (CombineStays dst.old s v.now t) (length dst.old) }
    ensures combined { dst.new ≡ add (scale s dst.old) (scale t v.now) }
    ensures in_range { AllInRange dst.new }
{
    for j in 0..dst.len() {
        dst[j] = s * dst[j] + t * v[j];
    }
}

/// The sum of the products of equal columns, with each product and each partial sum tested.
fn checked_dot(u: &[i128], v: &[i128]) -> Result<i128, u32>
    requires same_width { length u.now ≡ length v.now }
    requires narrow { length u.now < 2 ^ 32 }
    ensures exact { let Stays = DotStays u.now v.now in let width = length u.now in
        MatchResult result (λ d. (d ≡ dot u.now v.now) × AllStay Stays width)
        (IsFirstToLeave Stays width) }
    ensures in_range { IfOk result InRange }
{
    let mut total = 0;
    for j in 0..u.len() {
        let Some(next) = combination(1, total, u[j], v[j]) else {
            return Err(j as u32);
        };
        total = next;
    }
    Ok(total)
}
