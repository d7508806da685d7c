//! The rows that a linearity line names.
ghost use Rattle.std.specs.Prelude.{◌≡◌, ◌+◌, ◌<◌, ◌≤◌, drop, MatchOption, MatchResult};
ghost use Rattle.cdd_reading.specs.Tokens.{tokens};
ghost use Rattle.plain_text.specs.Digits.{number};
ghost use Rattle.cdd_reading.specs.Headings.{indices_of};
ghost use Rattle.cdd_reading.specs.Files.{marks};
ghost use Rattle.cdd_reading.specs.Refusals.{AllName};
ghost use Rattle.cdd_reading.specs.Tables.{IsMarkErr};

use crate::cuts::split_token;
use crate::numbers::capped_number;
use std::alloc::Global;

/// Why indices mark no rows.
#[derive(Clone, Copy)]
pub enum MarkErr {
    /// An index is 0, or greater than the number of rows.
    OutOfBounds,
    Memory,
}

/// For each of so many rows, whether the linearity line names it.
pub fn read_marks(alloc: Global, linearity: &[u8], rows: usize) -> Result<Vec<bool>, MarkErr>
    ensures { MatchResult result (λ v. (v.items ≡ marks (indices_of linearity.now) rows)
        × AllName rows (indices_of linearity.now)) (IsMarkErr rows (indices_of linearity.now)) }
{
    let Ok(mut marks) = vec![in alloc; false; rows] else {
        return Err(MarkErr::Memory);
    };
    let mut rest = skip_count(linearity);
    while let Some((index, behind)) = split_token(rest) {
        let Some(place) = place_of(index, rows) else {
            return Err(MarkErr::OutOfBounds);
        };
        marks[place] = true;
        rest = behind;
    }
    Ok(marks)
}

/// The indices of a linearity line, or what is left of an empty line.
fn skip_count(linearity: &[u8]) -> &[u8]
    ensures { tokens result.now ≡ drop 2 (tokens linearity.now) }
{
    match split_token(linearity) {
        None => linearity,
        Some((_, behind)) => match split_token(behind) {
            None => behind,
            Some((_, indices)) => indices,
        },
    }
}

/// The place of the row with this number, counted from 0.
fn place_of(index: &[u8], rows: usize) -> Option<usize>
    ensures { MatchOption result (¬ ((0 < number index.now) × (number index.now ≤ rows)))
        (λ place. (place + 1 ≡ number index.now) × (place < rows)) }
{
    let number = capped_number(index);
    if number == 0 || number > rows as u128 {
        None
    } else {
        Some((number - 1) as usize)
    }
}
