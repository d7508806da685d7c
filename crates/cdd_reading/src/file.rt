//! Where a file ends, and what stands behind it.
ghost use Rattle.std.specs.Prelude.{◌≡◌, ℕ, ◌+◌, ◌↔◌, List, All, length, IsTrue, MatchOption, MatchBool, codes};
ghost use Rattle.std.specs.List.{list_any};
ghost use Rattle.std.specs.Str.{bytes_eq};
ghost use Rattle.std.specs.Str.Lines.{lines};
ghost use Rattle.cdd_reading.specs.Tokens.{numbered, texts};
ghost use Rattle.cdd_reading.specs.Files.{IsEnd, IsFile, HasLinearityAfter};
ghost use Rattle.cdd_reading.specs.Refusals.{AreShort};

use crate::cuts::split_token;
use crate::numbers::is_word;
use crate::tokens::Tokens;
use plain_text::split_line;

/// The limit of a line in bytes, without its line end.
const MAX_LINE: usize = 65_535;

/// A file that is cut at the line that ends it.
#[derive(Clone, Copy)]
pub struct Cut<'a> {
    /// The lines before that line.
    pub file: &'a [u8],
    /// The lines behind it.
    pub behind: &'a [u8],
    /// Its number, counted from 1.
    pub end: usize,
}

/// Whether the line ends a file: its only token is `end`, and it has at most 65,535 bytes.
pub fn is_end(line: &[u8]) -> bool
    ensures { MatchBool result (IsEnd line.now) (¬ (IsEnd line.now)) }
{
    if line.len() > MAX_LINE {
        return false;
    }
    let Some((token, rest)) = split_token(line) else {
        return false;
    };
    is_word(token, b"end") && split_token(rest).is_none()
}

/// Cuts bytes at the first line that ends a file.
pub fn cut_file(bytes: &[u8]) -> Option<Cut<'_>>
    ensures { MatchOption result (All (λ line. ¬ (IsEnd line)) (lines bytes.now))
        (λ cut. IsFile bytes.now (lines cut.file.now) (lines cut.behind.now)
        × (cut.end ≡ length (lines cut.file.now) + 1)) }
{
    let mut rest = bytes;
    let mut number = 1;
    while !rest.is_empty() {
        let (line, behind) = split_line(rest);
        if is_end(line) {
            return Some(Cut {
                file: &bytes[..bytes.len() - rest.len()],
                behind,
                end: number,
            });
        }
        rest = behind;
        number += 1;
    }
    None
}

/// Whether each line is within the limit.
pub fn are_short(file: &[u8]) -> bool
    ensures { MatchBool result (AreShort (lines file.now)) (¬ (AreShort (lines file.now))) }
{
    let mut rest = file;
    while !rest.is_empty() {
        let (line, behind) = split_line(rest);
        if line.len() > MAX_LINE {
            return false;
        }
        rest = behind;
    }
    true
}

/// Whether a line of the bytes ends a file, and `linearity` is a token behind it. Takes no memory.
pub fn linearity_after_end(bytes: &[u8]) -> bool
    ensures { IsTrue result ↔ HasLinearityAfter bytes.now }
{
    let Some(cut) = cut_file(bytes) else {
        return false;
    };
    has_linearity(cut.behind)
}

/// Whether `linearity` stands as a token in the lines.
fn has_linearity(behind: &[u8]) -> bool
    ensures { result ≡
        list_any (λ t. bytes_eq t (codes "linearity")) (texts (numbered 1 (lines behind.now))) }
{
    for (_, token) in Tokens::behind_line(0, behind) {
        if is_word(token, b"linearity") {
            return true;
        }
    }
    false
}
