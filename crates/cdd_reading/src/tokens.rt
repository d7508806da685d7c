//! The tokens of lines, one at a time.
ghost use Rattle.std.specs.Prelude.{◌≡◌, ℕ, ◌+◌, ◌^◌, ◌<◌, ◌≤◌, ◌∷◌, List, [], length, MatchOption};
ghost use Rattle.std.specs.Borrow.{Bor};
ghost use Rattle.std.specs.Iterator.{YieldsFirstBy, item_count};
ghost use Rattle.std.specs.Str.Lines.{lines};
ghost use Rattle.cdd_reading.specs.Tokens.{Token, numbered, left};

use crate::cuts::split_token;
use plain_text::split_line;
use std::marker::Model;

/// The tokens that are still to come, each with the number of its line.
#[derive(Drop)]
pub struct Tokens<'a> {
    // What is left of a line.
    line: &'a [u8],
    // The lines behind it.
    after: &'a [u8],
    // The number of the line.
    number: usize,
}

impl<'a> Model for Tokens<'a> {
    ghost Value = { List Token };

    ghost view = { λ s. left s.line.now s.after.now s.number };

    ghost invariant = { λ s. s.number + length s.after.now < 2 ^ 64 };
}

impl<'a> Tokens<'a> {
    /// The tokens of the lines behind line `number`.
    pub fn behind_line(number: usize, after: &'a [u8]) -> Tokens<'a>
        requires { number + length after.now < 2 ^ 64 }
        ensures tokens { result ≡ numbered (number + 1) (lines after.now) }
        ensures few { length result ≤ length after.now }
    {
        Tokens {
            line: &[],
            after,
            number,
        }
    }

    /// The same tokens once more.
    pub fn again(&self) -> Tokens<'a>
        ensures { result ≡ self.now }
    {
        Tokens {
            line: self.line,
            after: self.after,
            number: self.number,
        }
    }
}

/// The first token of what is left of a line and of the lines behind it; what is left of the
/// token's line, the lines behind that, and its number.
fn first_token<'a>(
    line: &'a [u8],
    after: &'a [u8],
    number: usize,
) -> Option<(&'a [u8], &'a [u8], &'a [u8], usize)>
    requires { number + length after.now < 2 ^ 64 }
    ensures { MatchOption result (left line.now after.now number ≡ [])
        (λ r. (left line.now after.now number ≡ (r.3, r.0.now) ∷ left r.1.now r.2.now r.3)
        × (r.3 + length r.2.now ≤ number + length after.now)) }
{
    let mut line = line;
    let mut after = after;
    let mut number = number;
    while !after.is_empty() {
        if let Some((token, rest)) = split_token(line) {
            return Some((token, rest, after, number));
        }
        let (first, behind) = split_line(after);
        line = first;
        after = behind;
        number += 1;
    }
    let (token, rest) = split_token(line)?;
    Some((token, rest, after, number))
}

impl<'a> Iterator for Tokens<'a> {
    type Item = (usize, &'a [u8]);

    ghost next_gives = { YieldsFirstBy (λ (x : ℕ × Bor (List ℕ)). (x.0, x.1.now))
        (λ (rest : List Token). rest) };

    ghost remaining = { item_count (λ (rest : List Token). rest) };

    fn next(&mut self) -> Option<(usize, &'a [u8])> {
        let (token, line, after, number) = first_token(self.line, self.after, self.number)?;
        self.line = line;
        self.after = after;
        self.number = number;
        Some((number, token))
    }
}
