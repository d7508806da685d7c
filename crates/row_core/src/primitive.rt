//! Greatest common divisors, and rows divided by that of their entries.
ghost use Rattle.std.specs.Prelude.{◌≡◌, ◌↔◌, ℕ, ◌^◌, ◌<◌, ◌≤◌, length, pos, unsigned_abs, ◌<ℤ◌, ◌*ℤ◌, IsTrue};
ghost use Rattle.std.specs.Int.{IsGcd};
ghost use Prim.Native.Nat.{◌∣◌};
ghost use Rattle.row_core.specs.Vectors.{scale};
ghost use Rattle.row_core.specs.Range.{InRange, AllInRange};
ghost use Rattle.row_core.specs.Sizes.{HaveBits};
ghost use Rattle.row_core.specs.Content.{DividesAll, IsPrimitive, IsMultipleOf};

use crate::sizes::{bits, bits_of};

/// The greatest number of one word.
const WORD: u128 = 0xffff_ffff_ffff_ffff;

/// Divides the row by the greatest common divisor of its entries. It keeps all signs, and leaves an
/// all-zero row.
pub fn make_primitive(row: &mut [i128])
    requires { AllInRange row.old }
    ensures in_range { AllInRange row.new }
    ensures width { length row.new ≡ length row.old }
    ensures multiple { IsMultipleOf row.old row.new }
    ensures primitive { IsPrimitive row.new }
{
    let divisor = content(row);
    if divisor > 1 {
        divide_all(row, divisor as i128);
    }
}

/// What [`make_primitive`] does, with a row whose numbers have at most so many bits. It tells how
/// many they have then.
pub fn make_primitive_within(row: &mut [i128], within: u32) -> u32
    requires in_range { AllInRange row.old }
    requires within { HaveBits within row.old }
    ensures in_range { AllInRange row.new }
    ensures width { length row.new ≡ length row.old }
    ensures multiple { IsMultipleOf row.old row.new }
    ensures primitive { IsPrimitive row.new }
    ensures bits { HaveBits result row.new }
{
    if within > 62 {
        make_primitive(row);
        return bits(row);
    }
    let divisor = words_content(row);
    if divisor > 1 {
        divide_words(row, divisor as i64);
        return bits(row);
    }
    within
}

/// Whether the row is primitive: its entries have no common divisor above 1, or all are 0.
pub fn is_primitive(row: &[i128]) -> bool
    requires { AllInRange row.now }
    ensures { IsTrue result ↔ IsPrimitive row.now }
{
    content(row) <= 1
}

/// The greatest common divisor, by Euclid's algorithm. That of 0 and 0 is 0.
pub fn gcd(a: u128, b: u128) -> u128
    ensures { IsGcd a b result }
{
    if a <= WORD && b <= WORD {
        return u128::from(word_gcd(a as u64, b as u64));
    }
    let mut x = a;
    let mut y = b;
    while y != 0 {
        let rest = x % y;
        x = y;
        y = rest;
    }
    x
}

/// An exact quotient. One by 1 divides nothing, and small numbers are divided as words.
#[inline]
pub fn quotient(x: i128, divisor: i128) -> i128
    requires in_range { InRange x }
    requires positive { pos 0 <ℤ divisor }
    requires divides { unsigned_abs divisor ∣ unsigned_abs x }
    ensures value { x ≡ divisor *ℤ result }
    ensures in_range { InRange result }
{
    if divisor == 1 {
        return x;
    }
    if bits_of(x.unsigned_abs() | divisor.unsigned_abs()) <= 63 {
        return i128::from(x as i64 / divisor as i64);
    }
    x / divisor
}

/// The greatest common divisor of the entries, and 0 where all are 0.
fn content(row: &[i128]) -> u128
    requires { AllInRange row.now }
    ensures divides { DividesAll result row.now }
    ensures greatest { (d : ℕ) → DividesAll d row.now → d ∣ result }
    ensures below { result < 2 ^ 127 }
{
    let mut divisor = 0;
    for j in 0..row.len() {
        let size = row[j].unsigned_abs();
        if size != 0 {
            divisor = gcd(size, divisor);
            if divisor == 1 {
                return 1;
            }
        }
    }
    divisor
}

/// The greatest common divisor of entries that are words, and 0 where all are 0.
fn words_content(row: &[i128]) -> u64
    requires { HaveBits 62 row.now }
    ensures divides { DividesAll result row.now }
    ensures greatest { (d : ℕ) → DividesAll d row.now → d ∣ result }
    ensures below { result ≤ 2 ^ 62 }
{
    let mut divisor = 0;
    for j in 0..row.len() {
        let size = (row[j] as i64).unsigned_abs();
        if size != 0 {
            divisor = word_gcd(size, divisor);
            if divisor == 1 {
                return 1;
            }
        }
    }
    divisor
}

/// The greatest common divisor of words, by Euclid's algorithm. That of 0 and 0 is 0.
fn word_gcd(a: u64, b: u64) -> u64
    ensures { IsGcd a b result }
{
    let mut x = a;
    let mut y = b;
    while y != 0 {
        let rest = x % y;
        x = y;
        y = rest;
    }
    x
}

/// Divides each entry.
fn divide_all(row: &mut [i128], divisor: i128)
    requires in_range { AllInRange row.old }
    requires positive { pos 0 <ℤ divisor }
    requires divides { DividesAll (unsigned_abs divisor) row.old }
    ensures multiple { row.old ≡ scale divisor row.new }
    ensures in_range { AllInRange row.new }
{
    for j in 0..row.len() {
        row[j] = quotient(row[j], divisor);
    }
}

/// Divides each entry, where all are words.
fn divide_words(row: &mut [i128], divisor: i64)
    requires words { HaveBits 62 row.old }
    requires positive { pos 0 <ℤ divisor }
    requires divides { DividesAll (unsigned_abs divisor) row.old }
    ensures multiple { row.old ≡ scale divisor row.new }
    ensures in_range { AllInRange row.new }
{
    for j in 0..row.len() {
        row[j] = i128::from(row[j] as i64 / divisor);
    }
}
