//! The lines before `begin`.
ghost use Rattle.std.specs.Prelude.{◌≡◌, ◌≢◌, ◌+◌, ◌<◌, ◌≤◌, ◌∷◌, ◌++◌, ℕ, List, [], length, codes, true, false, MatchOption, MatchResult, IfOk};
ghost use Rattle.std.specs.List.{list_all};
ghost use Rattle.std.specs.Str.Lines.{lines};
ghost use Rattle.cdd_reading.specs.Tokens.{tokens};
ghost use Rattle.plain_text.specs.Digits.{is_nat};
ghost use Rattle.cdd_reading.specs.Headings.{are_indices, IsRole, CanHead, Holds, IsHeadRead, HasNoHead};
ghost use Rattle.cdd_reading.specs.declared.head.Role.TheVariants;

use crate::cuts::split_token;
use crate::format::Format;
use crate::numbers::{capped_number, is_word};
use plain_text::{is_nat, split_line};

/// What a line before `begin` does.
#[derive(Clone, Copy, PartialEq, Eq)]
pub enum Role {
    Begin,
    Kind(Format),
    Linearity,
    /// It begins with `linearity`, and what stands behind isn't k and k indices.
    Wrong,
    Passed,
}

/// What the lines before `begin` say.
#[derive(Clone, Copy)]
pub struct Said<'a> {
    /// The kind that they name.
    pub kind: Option<Format>,
    /// The linearity line; an empty line where there is none.
    pub linearity: &'a [u8],
}

/// A heading, and what stands behind it.
#[derive(Clone, Copy)]
pub struct Head<'a> {
    pub said: Said<'a>,
    /// The lines behind `begin`.
    pub behind: &'a [u8],
    /// The number of the line `begin`.
    pub begin: usize,
}

/// Reads the lines before `begin`.
///
/// # Errors
/// The number of the first line that can't stand where it is; without a `begin`, that behind all.
pub fn read_head(file: &[u8]) -> Result<Head<'_>, usize>
    ensures head { MatchResult result
        (λ h. IsHeadRead (lines file.now) h.said.kind h.said.linearity.now (lines h.behind.now)
        h.begin) (HasNoHead (lines file.now)) }
    ensures short { IfOk result (λ h. h.begin + length h.behind.now ≤ length file.now + 1) }
{
    let mut said = Said {
        kind: None,
        linearity: &[],
    };
    let mut rest = file;
    let mut number = 1;
    while !rest.is_empty() {
        let (line, behind) = split_line(rest);
        let role = role_of(line);
        if role == Role::Begin {
            return Ok(Head {
                said,
                behind,
                begin: number,
            });
        }
        let Some(now) = said.with_line(line, role) else {
            return Err(number);
        };
        said = now;
        rest = behind;
        number += 1;
    }
    Err(number)
}

/// How many tokens there are, where all are numbers.
fn count_nats(text: &[u8]) -> Option<usize>
    ensures { MatchOption result (list_all is_nat (tokens text.now) ≡ false)
        (λ n. (list_all is_nat (tokens text.now) ≡ true) × (n ≡ length (tokens text.now))) }
{
    let mut rest = text;
    let mut count = 0;
    while let Some((token, behind)) = split_token(rest) {
        if !is_nat(token) {
            return None;
        }
        count += 1;
        rest = behind;
    }
    Some(count)
}

/// Whether the text is k and k indices.
fn are_indices(text: &[u8]) -> bool
    ensures { result ≡ are_indices (tokens text.now) }
{
    let Some((first, rest)) = split_token(text) else {
        return false;
    };
    let Some(count) = count_nats(rest) else {
        return false;
    };
    is_nat(first) && capped_number(first) == count as u128
}

/// What a line of one token does.
fn role_of_word(token: &[u8]) -> Role
    ensures { IsRole (token.now ∷ []) result }
{
    if is_word(token, b"begin") {
        Role::Begin
    } else if is_word(token, b"H-representation") {
        Role::Kind(Format::Ine)
    } else if is_word(token, b"V-representation") {
        Role::Kind(Format::Ext)
    } else if is_word(token, b"linearity") {
        Role::Wrong
    } else {
        Role::Passed
    }
}

/// What a line of several tokens does.
fn role_of_list(token: &[u8], behind: &[u8]) -> Role
    requires { 0 < length (tokens behind.now) }
    ensures { IsRole (token.now ∷ tokens behind.now) result }
{
    if !is_word(token, b"linearity") {
        Role::Passed
    } else if are_indices(behind) {
        Role::Linearity
    } else {
        Role::Wrong
    }
}

fn role_of(line: &[u8]) -> Role
    ensures { IsRole (tokens line.now) result }
{
    let Some((token, behind)) = split_token(line) else {
        return Role::Passed;
    };
    match split_token(behind) {
        None => role_of_word(token),
        Some(_) => role_of_list(token, behind),
    }
}

impl<'a> Said<'a> {
    // What is said with one more line that isn't `begin`, where it can stand.
    fn with_line(self, line: &'a [u8], role: Role) -> Option<Said<'a>>
        requires { IsRole (tokens line.now) role }
        ensures { (before : List (List ℕ)) → Holds before self.entry.kind self.entry.linearity.now
            → role ≢ TheVariants.Begin → MatchOption result (¬ (CanHead (before ++ line.now ∷ [])))
            (λ s. Holds (before ++ line.now ∷ []) s.kind s.linearity.now) }
    {
        match role {
            Role::Passed => Some(self),
            Role::Kind(named) if self.kind.is_none() => Some(Said {
                kind: Some(named),
                linearity: self.linearity,
            }),
            Role::Linearity if self.linearity.is_empty() => Some(Said {
                kind: self.kind,
                linearity: line,
            }),
            _ => None,
        }
    }
}
