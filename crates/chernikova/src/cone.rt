//! What a conversion gives.
ghost use Rattle.std.specs.Prelude.{◌≡◌};

use row_core::RowList;
use sat_matrix::SatMatrix;
use std::alloc::AllocError;

/// A canonical system: the lines are marked as equalities and the rays as inequalities. The table
/// has a row for each ray and a column for each row of the list that was converted, true exactly
/// where the ray has the value 0 on that row.
#[derive(Debug, Drop)]
pub struct Cone {
    pub lines: RowList,
    pub rays: RowList,
    pub sat: SatMatrix,
}

impl Clone for Cone {
    ghost is_clone = { λ cone copy. copy ≡ record cone { sat = record cone.sat { spare = 0 } } };

    fn clone(&self) -> Result<Cone, AllocError> {
        Ok(Cone {
            lines: self.lines.clone()?,
            rays: self.rays.clone()?,
            sat: self.sat.clone()?,
        })
    }
}

/// What further rows make of a system: that of all rows, and whether they admit other vectors
/// than the rows before them.
#[derive(Debug, Drop)]
pub struct Added {
    pub cone: Cone,
    pub changed: bool,
}
