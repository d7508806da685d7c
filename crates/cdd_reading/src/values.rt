//! The numbers of a file as integers.
ghost use Rattle.std.specs.Prelude.{◌≡◌, ◌*◌, ◌/◌, ◌-◌, ◌++◌, ◌∷◌, [], ◌^◌, ◌<◌, pos, map, min, length, true, All, MatchBool, MatchResult};
ghost use Rattle.row_core.specs.Range.{InRange, AllInRange};
ghost use Rattle.std.specs.List.{list_all};
ghost use Rattle.cdd_reading.specs.Bodies.{is_number};
ghost use Rattle.cdd_reading.specs.declared.values.IntegerErr.TheVariants;
ghost use Rattle.cdd_reading.specs.Tokens.{integer, is_negative, unsigned, texts};
ghost use Rattle.cdd_reading.specs.Fractions.{gcd, lcm, lowest, denominator, signed, AllDivide, IsSmall, FitRange};
ghost use Rattle.cdd_reading.specs.Tables.{IsWithinLimit, IsWithinRange, AreIntegers, IsIntegerErr, IsTooLarge, IsRowErr, fraction_of, lowest_of, times_of, IsIntegral, CanFollow};

use crate::format::NumberType;
use crate::numbers::{MOST, capped_number, split_slash};
use crate::quotients::{common_divisor, negation, quotient, signed, to_signed};
use crate::tokens::Tokens;
use std::alloc::{AllocFailed, Global};

/// Why numbers have no integers.
#[derive(Clone, Copy)]
pub enum IntegerErr {
    /// A denominator is 0.
    ZeroDivisor,
    /// A number, the least common multiple of a row or a number times it is out of the range.
    TooLarge,
    Memory,
}

impl<T: Drop> From<AllocFailed<T>> for IntegerErr {
    ghost from_gives = { λ _ r. r ≡ TheVariants.Memory };

    fn from(_failed: AllocFailed<T>) -> IntegerErr {
        IntegerErr::Memory
    }
}

/// A number as it is written.
#[derive(Clone, Copy)]
pub struct Numeral {
    pub negative: bool,
    pub numerator: u128,
    pub denominator: u128,
}

/// The integers of rows of this width, one row behind the other: the numbers of the tokens, those
/// of each row times the least common multiple of their denominators.
pub fn read_values(
    alloc: Global,
    tokens: Tokens<'_>,
    width: usize,
    number_type: NumberType,
) -> Result<Vec<i128>, IntegerErr>
    requires some { 0 < width }
    requires forms { list_all (is_number number_type) (texts tokens) ≡ true }
    requires rows { length (texts tokens) ≡ length (texts tokens) / width * width }
    ensures { MatchResult result (λ v. AreIntegers width (texts tokens.entry) v.items)
        (IsIntegerErr width (texts tokens.entry)) }
{
    match number_type {
        NumberType::Integer => read_integers(alloc, tokens),
        NumberType::Rational | NumberType::Real => read_fractions(alloc, tokens, width),
    }
}

fn without_sign(token: &[u8]) -> &[u8]
    ensures { result.now ≡ unsigned token.now }
{
    match token {
        [b'+' | b'-', digits @ ..] => digits,
        _ => token,
    }
}

fn is_negative(token: &[u8]) -> bool
    ensures { result ≡ is_negative token.now }
{
    matches!(token, [b'-', ..])
}

/// The multiple times what the denominator has beyond its greatest common divisor with the product,
/// where that is in the range.
fn extended_multiple(multiple: u128, product: u128, denominator: u128) -> Option<u128>
    requires positive { 0 < denominator }
    requires small { multiple < 2 ^ 127 }
    ensures { IsWithinLimit (multiple * (denominator / gcd product denominator)) result }
{
    let divisor = common_divisor(product, denominator);
    if divisor == denominator {
        return Some(multiple);
    }
    let extended = multiple.saturating_mul(quotient(denominator, divisor));
    (extended < MOST).then_some(extended)
}

/// The least common multiple of this one and the number's denominator in lowest terms, where that
/// is in the range. It is found by the product with the numerator, so that the number need not be
/// brought to lowest terms unless the product leaves the range.
fn with_number(multiple: u128, number: &Numeral) -> Option<u128>
    requires positive { 0 < multiple }
    requires small { multiple < 2 ^ 127 }
    requires divides { 0 < number.now.denominator }
    ensures { IsWithinLimit (lcm (lowest_of number.now) multiple) result }
{
    let product = multiple.saturating_mul(number.numerator);
    if product < MOST {
        return extended_multiple(multiple, product, number.denominator);
    }
    let divisor = common_divisor(number.numerator, number.denominator);
    extended_multiple(multiple, multiple, number.denominator / divisor)
}

/// The size of a multiple of a number that is an integer; 2^128 - 1 stands for all greater ones.
fn size_by(multiple: u128, number: &Numeral) -> u128
    requires { IsIntegral multiple number.now }
    ensures { result ≡
        min (multiple * number.now.numerator / number.now.denominator) (2 ^ 128 - 1) }
{
    let product = multiple.saturating_mul(number.numerator);
    if product < MOST {
        return quotient(product, number.denominator);
    }
    let divisor = common_divisor(number.numerator, number.denominator);
    (number.numerator / divisor).saturating_mul(multiple / (number.denominator / divisor))
}

/// The multiple of a number, where it is in the range.
fn scaled_by(multiple: u128, number: &Numeral) -> Option<i128>
    requires { IsIntegral multiple number.now }
    ensures { IsWithinRange (times_of multiple number.now) result }
{
    let size = size_by(multiple, number);
    if size < MOST {
        Some(signed(number.negative, size))
    } else {
        None
    }
}

/// The number of a token.
fn number_of(token: &[u8]) -> Result<Numeral, IntegerErr>
    ensures { MatchResult result
        (λ f. (f ≡ fraction_of token.now) × (0 < denominator token.now) × IsSmall token.now)
        (IsRowErr (0 < denominator token.now) (IsSmall token.now)) }
{
    let (dividend, divisor) = split_slash(token);
    let denominator = capped_number(divisor);
    if denominator == 0 {
        return Err(IntegerErr::ZeroDivisor);
    }
    let numerator = capped_number(without_sign(dividend));
    if numerator >= MOST || denominator >= MOST {
        return Err(IntegerErr::TooLarge);
    }
    Ok(Numeral {
        negative: is_negative(token),
        numerator,
        denominator,
    })
}

/// Appends the number of a token to a row, and gives the least common multiple with it.
fn push_number(row: &mut Vec<Numeral>, multiple: u128, token: &[u8]) -> Result<u128, IntegerErr>
    requires positive { 0 < multiple }
    requires small { multiple < 2 ^ 127 }
    ensures { MatchResult result (λ l. (row.new.items ≡ row.old.items ++ fraction_of token.now ∷ [])
        × (l ≡ lcm (lowest token.now) multiple) × CanFollow multiple token.now)
        (IsRowErr (0 < denominator token.now) (CanFollow multiple token.now)) }
{
    let number = number_of(token)?;
    let Some(multiple) = with_number(multiple, &number) else {
        return Err(IntegerErr::TooLarge);
    };
    row.push(number)?;
    Ok(multiple)
}

/// Appends the multiples of a row's numbers.
fn push_scaled(values: &mut Vec<i128>, row: &[Numeral], multiple: u128) -> Result<(), IntegerErr>
    requires { All (IsIntegral multiple) row.now }
    ensures { MatchResult result
        (λ _. (values.new.items ≡ values.old.items ++ map (times_of multiple) row.now)
        × AllInRange (map (times_of multiple) row.now))
        (IsTooLarge (AllInRange (map (times_of multiple) row.now))) }
{
    for number in row {
        let Some(value) = scaled_by(multiple, number) else {
            return Err(IntegerErr::TooLarge);
        };
        values.push(value)?;
    }
    Ok(())
}

/// The integers of the rows of fractions: the numbers of each row times the least common multiple
/// of their denominators, which is found while they are read.
fn read_rows(alloc: Global, tokens: Tokens<'_>, width: usize) -> Result<Vec<i128>, IntegerErr>
    requires some { 0 < width }
    requires rows { length (texts tokens) ≡ length (texts tokens) / width * width }
    ensures { MatchResult result (λ v. AreIntegers width (texts tokens.entry) v.items)
        (IsRowErr (AllDivide (texts tokens.entry)) (FitRange width (texts tokens.entry))) }
{
    let mut values = Vec::new(alloc);
    let mut row = Vec::new(alloc);
    let mut multiple = 1;
    for (_, token) in tokens {
        multiple = push_number(&mut row, multiple, token)?;
        if row.len() == width {
            push_scaled(&mut values, row.as_slice(), multiple)?;
            row.clear();
            multiple = 1;
        }
    }
    Ok(values)
}

/// Whether the denominator of a number isn't 0.
fn divides(token: &[u8]) -> bool
    ensures { MatchBool result (0 < denominator token.now) (denominator token.now ≡ 0) }
{
    let (_, divisor) = split_slash(token);
    capped_number(divisor) > 0
}

/// Whether no denominator is 0.
fn all_divide(tokens: Tokens<'_>) -> bool
    ensures { MatchBool result (AllDivide (texts tokens.entry))
        (¬ (AllDivide (texts tokens.entry))) }
{
    for (_, token) in tokens {
        if !divides(token) {
            return false;
        }
    }
    true
}

/// The integers of the rows of fractions. A denominator of 0 is told wherever it stands.
fn read_fractions(alloc: Global, tokens: Tokens<'_>, width: usize) -> Result<Vec<i128>, IntegerErr>
    requires some { 0 < width }
    requires rows { length (texts tokens) ≡ length (texts tokens) / width * width }
    ensures { MatchResult result (λ v. AreIntegers width (texts tokens.entry) v.items)
        (IsIntegerErr width (texts tokens.entry)) }
{
    match read_rows(alloc, tokens.again(), width) {
        Err(IntegerErr::TooLarge) if !all_divide(tokens.again()) => Err(IntegerErr::ZeroDivisor),
        read => read,
    }
}

/// The integer of a token, where it is in the range.
fn integer_of(token: &[u8]) -> Option<i128>
    ensures { IsWithinRange (integer token.now) result }
{
    let size = capped_number(without_sign(token));
    if size >= MOST {
        return None;
    }
    let value = to_signed(size);
    if is_negative(token) {
        Some(negation(value))
    } else {
        Some(value)
    }
}

/// The integers of the tokens.
fn read_integers(alloc: Global, tokens: Tokens<'_>) -> Result<Vec<i128>, IntegerErr>
    ensures { MatchResult result
        (λ v. (v.items ≡ map integer (texts tokens.entry)) × AllInRange v.items)
        (IsTooLarge (AllInRange (map integer (texts tokens.entry)))) }
{
    let mut values = Vec::new(alloc);
    for (_, token) in tokens {
        let Some(value) = integer_of(token) else {
            return Err(IntegerErr::TooLarge);
        };
        values.push(value)?;
    }
    Ok(values)
}
