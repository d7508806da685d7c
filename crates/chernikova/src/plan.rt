//! How a row lies to a system, and what the step with it is to do.
ghost use Rattle.std.specs.Prelude.{◌≡◌, length};
ghost use Rattle.chernikova.specs.Plans.{lists_of, HasValues, kept_of, changes_system, combinations_of};

use crate::scratch::Scratch;
use crate::system::System;
use row_store::count_meeting;
use sat_matrix::{SatMatrix, expected_looks};

/// How a row lies to a system, whose lines and rays have the values on it that the scratch keeps.
#[derive(Clone, Copy)]
pub(crate) enum Position {
    /// The row isn't 0 on some line; the index of the last such line.
    Crossing { index: usize },
    /// The row is 0 on all lines, and each ray meets it.
    Met,
    /// The row is 0 on all lines, and some ray doesn't meet it.
    Cutting,
}

impl Position {
    /// How many rays the search for adjacent pairs is expected to look at.
    pub(crate) fn looks(self, scratch: &Scratch, zeros: &SatMatrix, least: usize) -> u64
        requires { HasValues (length zeros.now.rows) (lists_of scratch.now) self }
    {
        match self {
            Position::Cutting => expected_looks(scratch.ray_values.as_slice(), zeros, least),
            _ => 0,
        }
    }

    /// How many lines and rays stay whatever pairs cross, where the row is an equality or not.
    pub(crate) fn kept(self, scratch: &Scratch, eq: bool, cone: &System) -> u128
        ensures { result ≡ kept_of eq cone.now (lists_of scratch.now) self }
    {
        match self {
            Position::Crossing { .. } => 0,
            Position::Met | Position::Cutting => {
                let values = scratch.ray_values.as_slice();
                cone.lines.len() as u128 + count_meeting(eq, values) as u128
            }
        }
    }
}

/// What the step with a row is to do with a system, by the lists that the scratch keeps: the values
/// of its lines and rays on the row and, where some ray doesn't meet it, which rays stay, with a
/// true mark more for each pair, and the pairs to combine.
#[derive(Clone, Copy)]
pub(crate) enum Plan {
    /// The row isn't 0 on some line; the index of the last such line.
    Line { index: usize },
    /// Each line and ray meets the row, and stays.
    Same,
    /// The row is 0 on all lines, and some ray doesn't meet it.
    Ray,
}

impl Plan {
    /// How many combinations the step with the system makes at most.
    pub(crate) fn combinations(self, scratch: &Scratch, cone: &System) -> u128
        ensures { result ≡ combinations_of cone.now (lists_of scratch.now) self }
    {
        match self {
            Plan::Line { .. } => {
                let vectors = cone.lines.len() as u128 + cone.rays.len() as u128;
                vectors.saturating_sub(1)
            }
            Plan::Same => 0,
            Plan::Ray => scratch.pair_lists.pairs.len() as u128,
        }
    }

    /// Whether the step changes the lines or the rays.
    pub(crate) fn changes(self) -> bool
        ensures { result ≡ changes_system self }
    {
        match self {
            Plan::Same => false,
            _ => true,
        }
    }
}
