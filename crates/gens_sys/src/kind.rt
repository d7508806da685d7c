//! Kinds of generators, and refusals of vectors.
ghost use Rattle.std.specs.Prelude.{◌≡◌, ℕ, ◌+◌, ◌<◌, ◌↔◌, length, IsTrue};
ghost use Rattle.row_core.specs.Vectors.{cell};
ghost use Rattle.gens_sys.specs.Kinds.{HasBadDivisor, IsZeroDirection, is_line, is_point};
ghost use Rattle.gens_sys.specs.declared.kind.GenPushErr.TheVariants;

use row_core::Memory;
use std::alloc::AllocFailed;
use thiserror::Error;

/// What a vector generates.
#[derive(Clone, Copy, Debug, PartialEq, Eq)]
pub enum GenKind {
    /// A direction and its negative.
    Line,
    /// A direction.
    Ray,
    /// A point of the set.
    Point,
    /// A point of the set's closure.
    ClosurePoint,
}

impl GenKind {
    /// Whether a vector of this kind may not have the last entry.
    pub fn has_bad_divisor(self, divisor: i128) -> bool
        ensures { IsTrue result ↔ HasBadDivisor self divisor }
    {
        match self {
            GenKind::Line | GenKind::Ray => divisor != 0,
            GenKind::Point | GenKind::ClosurePoint => divisor < 1,
        }
    }

    /// Whether the vector is a direction of length 0.
    pub fn is_zero_direction(self, row: &[i128]) -> bool
        ensures { IsTrue result ↔ IsZeroDirection self row.now }
    {
        match self {
            GenKind::Line | GenKind::Ray => row.iter().all(|entry| *entry == 0),
            GenKind::Point | GenKind::ClosurePoint => false,
        }
    }

    /// Whether a generator of this kind is a line.
    #[inline]
    pub fn is_line(self) -> bool
        ensures { result ≡ is_line self }
    {
        match self {
            GenKind::Line => true,
            GenKind::Ray | GenKind::Point | GenKind::ClosurePoint => false,
        }
    }

    /// Whether a generator of this kind is a point of the set.
    #[inline]
    pub fn is_point(self) -> bool
        ensures { result ≡ is_point self }
    {
        match self {
            GenKind::Point => true,
            GenKind::Line | GenKind::Ray | GenKind::ClosurePoint => false,
        }
    }
}

/// Why a vector isn't kept.
#[derive(Clone, Copy, Debug, PartialEq, Eq, Error)]
pub enum GenPushErr {
    #[error("a line or a ray is zero in all columns")]
    ZeroVector,
    #[error("the last entry doesn't fit the kind of the generator")]
    BadDivisor,
    #[error("out of memory")]
    Memory,
}

impl From<Memory> for GenPushErr {
    ghost from_gives = { λ _ e. e ≡ TheVariants.Memory };

    fn from(_error: Memory) -> GenPushErr {
        GenPushErr::Memory
    }
}

impl<T: Drop> From<AllocFailed<T>> for GenPushErr {
    ghost from_gives = { λ _ e. e ≡ TheVariants.Memory };

    fn from(_failed: AllocFailed<T>) -> GenPushErr {
        GenPushErr::Memory
    }
}
