//! Numbers of any number of digits.
ghost use Rattle.std.specs.Prelude.{◌≡◌, ◌^◌, min, position};
ghost use Rattle.std.specs.Str.{bytes_eq};
ghost use Rattle.plain_text.specs.Digits.{number};
ghost use Rattle.cdd_reading.specs.Tokens.{is_integer};
ghost use Rattle.cdd_reading.specs.Fractions.{is_slash, dividend, divisor, is_fraction};

use plain_text::{is_nat, number_up_to};

/// Stands for all greater numbers.
pub const MOST: u128 = 1 << 127;

/// The number that digits spell; 2^127 stands for all greater ones.
pub fn capped_number(token: &[u8]) -> u128
    ensures { result ≡ min (number token.now) (2 ^ 127) }
{
    number_up_to(token, MOST)
}

/// Whether the token is this word.
pub fn is_word(token: &[u8], word: &[u8]) -> bool
    ensures { result ≡ bytes_eq token.now word.now }
{
    token == word
}

/// Whether the token is digits, with at most one sign before them.
pub fn is_integer(token: &[u8]) -> bool
    ensures { result ≡ is_integer token.now }
{
    match token {
        [b'+' | b'-', digits @ ..] => is_nat(digits),
        _ => is_nat(token),
    }
}

/// What stands before the first `/` of a number and behind it; all of it and 1 where there is none.
pub fn split_slash(token: &[u8]) -> (&[u8], &[u8])
    ensures dividend { result.0.now ≡ dividend token.now }
    ensures divisor { result.1.now ≡ divisor token.now }
{
    match slash(token) {
        None => (token, b"1"),
        Some(at) => (&token[..at], &token[at + 1..]),
    }
}

/// Whether the token is an integer, or an integer, `/` and digits.
pub fn is_fraction(token: &[u8]) -> bool
    ensures { result ≡ is_fraction token.now }
{
    let (dividend, divisor) = split_slash(token);
    is_integer(dividend) && is_nat(divisor)
}

/// Where the first `/` stands.
fn slash(token: &[u8]) -> Option<usize>
    ensures { result ≡ position is_slash token.now }
{
    token.iter().position(|b| *b == b'/')
}
