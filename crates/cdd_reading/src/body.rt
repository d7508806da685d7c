//! What stands behind `begin`.
ghost use Rattle.std.specs.Prelude.{◌≡◌, ◌+◌, ◌*◌, ◌^◌, ◌<◌, ◌⊎◌, length, min, true, false, MatchOption, MatchResult, MatchBool, IfOk};
ghost use Rattle.std.specs.List.{list_all};
ghost use Rattle.cdd_reading.specs.Tokens.{texts};
ghost use Rattle.plain_text.specs.Digits.{is_nat, number};
ghost use Rattle.cdd_reading.specs.Bodies.{type_word, Sizes, is_number, AreRead, AreNumbers, ArentNumbers, HasNoSizes, IsBodyFault, IsBodyRead};
ghost use Rattle.cdd_reading.specs.declared.format.NumberType.{NumberType};

use crate::format::NumberType;
use crate::numbers::{MOST, capped_number, is_fraction, is_integer, is_word};
use crate::tokens::Tokens;
use plain_text::is_nat;

/// Why the tokens behind `begin` are no body of integers or fractions.
#[derive(Clone, Copy)]
pub enum BodyErr {
    /// The number of the line of the first token that can't stand where it is.
    Wrong(usize),
    /// The number type is `real`.
    OtherType,
}

/// A body of integers or fractions.
#[derive(Drop)]
pub struct Body<'a> {
    /// d; 2^127 stands for each greater number.
    pub columns: u128,
    pub number_type: NumberType,
    /// The tokens behind the sizes.
    pub numbers: Tokens<'a>,
}

/// The sizes that stand first; 2^127 stands for each greater number.
#[derive(Clone, Copy)]
struct SizesRead {
    rows: u128,
    columns: u128,
    number_type: NumberType,
}

/// Reads the tokens behind `begin`. `end` is the number of the line that ends the file.
pub fn read_body(tokens: Tokens<'_>, end: usize) -> Result<Body<'_>, BodyErr>
    requires { length tokens < 2 ^ 64 }
    ensures read { MatchResult result (λ body. IsBodyRead tokens.entry body.columns body.numbers)
        (IsBodyFault tokens.entry end) }
    ensures forms { IfOk result
        (λ body. list_all (is_number body.number_type) (texts body.numbers) ≡ true) }
{
    let mut tokens = tokens;
    let sizes = match read_sizes(&mut tokens, end) {
        Ok(sizes) => sizes,
        Err(line) => return Err(BodyErr::Wrong(line)),
    };
    if sizes.number_type == NumberType::Real {
        return Err(BodyErr::OtherType);
    }
    let most = product(sizes.rows, sizes.columns);
    match check_numbers(tokens.again(), sizes.number_type, end, most) {
        Ok(()) => Ok(Body {
            columns: sizes.columns,
            number_type: sizes.number_type,
            numbers: tokens,
        }),
        Err(line) => Err(BodyErr::Wrong(line)),
    }
}

fn number_type(token: &[u8]) -> Option<NumberType>
    ensures { MatchOption result ((t : NumberType) → ¬ (token.now ≡ type_word t))
        (λ t. token.now ≡ type_word t) }
{
    if is_word(token, b"integer") {
        Some(NumberType::Integer)
    } else if is_word(token, b"rational") {
        Some(NumberType::Rational)
    } else if is_word(token, b"real") {
        Some(NumberType::Real)
    } else {
        None
    }
}

/// The product; 2^127 stands for all greater ones.
fn product(m: u128, d: u128) -> u128
    ensures { result ≡ min (m * d) (2 ^ 127) }
{
    m.saturating_mul(d).min(MOST)
}

/// Whether the token is a number of columns.
fn is_width(token: &[u8]) -> bool
    ensures { MatchBool result ((is_nat token.now ≡ true) × (0 < number token.now))
        ((is_nat token.now ≡ false) ⊎ (number token.now ≡ 0)) }
{
    is_nat(token) && capped_number(token) > 0
}

/// Whether the token is a number of this type.
fn is_number(token: &[u8], number_type: NumberType) -> bool
    ensures { result ≡ is_number number_type token.now }
{
    match number_type {
        NumberType::Integer => is_integer(token),
        NumberType::Rational => is_fraction(token),
        NumberType::Real => true,
    }
}

/// Whether so many tokens are left and all of them are numbers of this type; else the number of the
/// line of the first that can't stand where it is, or `end` where one is missing.
fn check_numbers(
    tokens: Tokens<'_>,
    number_type: NumberType,
    end: usize,
    most: u128,
) -> Result<(), usize>
    requires { length tokens < 2 ^ 64 }
    ensures { MatchResult result (λ _. AreNumbers number_type tokens.entry most)
        (ArentNumbers number_type tokens.entry most end) }
{
    let mut count: u128 = 0;
    for (line, token) in tokens {
        if count == most || !is_number(token, number_type) {
            return Err(line);
        }
        count += 1;
    }
    if count < most { Err(end) } else { Ok(()) }
}

/// Takes the sizes off the tokens; else the number of the line of the first token that can't stand
/// where it is, or `end` where one is missing.
fn read_sizes(tokens: &mut Tokens<'_>, end: usize) -> Result<SizesRead, usize>
    ensures { MatchResult result
        (λ r. (s : Sizes) × AreRead tokens.old r.rows r.columns r.number_type tokens.new s)
        (HasNoSizes tokens.old end) }
{
    let Some((line1, m)) = tokens.next() else {
        return Err(end);
    };
    if !is_nat(m) {
        return Err(line1);
    }
    let Some((line2, d)) = tokens.next() else {
        return Err(end);
    };
    if !is_width(d) {
        return Err(line2);
    }
    let Some((line3, t)) = tokens.next() else {
        return Err(end);
    };
    let Some(number_type) = number_type(t) else {
        return Err(line3);
    };
    Ok(SizesRead {
        rows: capped_number(m),
        columns: capped_number(d),
        number_type,
    })
}
