//! Vectors of a system by their places, and why a row isn't taken in.
ghost use Rattle.std.specs.Prelude.{◌≡◌, length};
ghost use Rattle.row_core.specs.Range.{AllInRange};
ghost use Rattle.row_core.specs.Lists.{vectors};
ghost use Rattle.row_store.specs.Faults.{IsPlace, is_lines, vector_of};
ghost use Rattle.row_store.specs.declared.fault.ValueFault.TheVariants as fault;

use crate::vectors::VectorList;
use row_core::Memory;
use std::alloc::{AllocError, AllocFailed};

/// A list of a system.
#[derive(Clone, Copy, Debug)]
pub enum Part {
    Lines,
    Rays,
}

impl Part {
    /// Whether the vectors of the list are marked as equalities.
    pub fn is_equality(self) -> bool
        ensures { result ≡ is_lines self }
    {
        match self {
            Part::Lines => true,
            Part::Rays => false,
        }
    }
}

/// A vector of a system, by its list and its index there.
#[derive(Clone, Copy, Debug)]
pub struct Place {
    pub part: Part,
    pub index: usize,
}

impl Place {
    /// Lends the vector at the place, from the lines and the rays of the system.
    pub fn vector<'a>(self, lines: &'a VectorList, rays: &'a VectorList) -> &'a [i128]
        requires place { IsPlace (vectors lines.now.rows) (vectors rays.now.rows) self }
        requires width { lines.now.width ≡ rays.now.width }
        ensures value { let line_vectors = vectors lines.now.rows in
            result.now ≡ vector_of line_vectors (vectors rays.now.rows) self }
        ensures in_range { AllInRange result.now }
        ensures wide { length result.now ≡ lines.now.width }
    {
        match self.part {
            Part::Lines => lines.row(self.index),
            Part::Rays => rays.row(self.index),
        }
    }
}

/// Why the values of the vectors on a row aren't found.
#[derive(Debug, Drop)]
pub enum ValueFault {
    Memory,
    /// The dot product of a vector with the row leaves the range.
    Dot { vector: Place, column: u32 },
}

impl From<Memory> for ValueFault {
    ghost from_gives = { λ _ e. e ≡ fault.Memory };

    fn from(_error: Memory) -> ValueFault {
        ValueFault::Memory
    }
}

impl From<AllocError> for ValueFault {
    ghost from_gives = { λ _ e. e ≡ fault.Memory };

    fn from(_error: AllocError) -> ValueFault {
        ValueFault::Memory
    }
}

impl<T: Drop> From<AllocFailed<T>> for ValueFault {
    ghost from_gives = { λ _ e. e ≡ fault.Memory };

    fn from(_failed: AllocFailed<T>) -> ValueFault {
        ValueFault::Memory
    }
}

/// Two vectors whose combination that is 0 on a row leaves the range, and the first column at which
/// it does.
#[derive(Clone, Copy, Debug)]
pub struct CombineFault {
    pub left: Place,
    pub right: Place,
    pub column: u32,
}
