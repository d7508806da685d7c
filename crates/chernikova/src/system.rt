//! The system of the rows that were taken in.
ghost use Rattle.std.specs.Prelude.{◌≡◌};
ghost use Rattle.row_store.specs.Vectors.{as_rows};

use ray_order::LendRows;
use row_store::VectorList;
use sat_matrix::SatMatrix;

/// Lines and rays, and a table with a row for each ray and a column for each row that was taken
/// in, true exactly where the ray has the value 0 on that row.
#[derive(Debug)]
pub(crate) struct System {
    pub(crate) lines: VectorList,
    pub(crate) rays: VectorList,
    pub(crate) sat: SatMatrix,
}

// Written by hand, so that a function that drops a system makes one call.
impl Drop for System {
    fn drop(self) {
        let Self {
            lines: _,
            rays: _,
            sat: _,
        } = self;
    }
}

impl System {
    /// Gives up the lines, the rays and the table, without a copy.
    pub(crate) fn into_parts(self) -> (VectorList, VectorList, SatMatrix)
        ensures lines { result.0 ≡ self.lines }
        ensures rays { result.1 ≡ self.rays }
        ensures sat { result.2 ≡ self.sat }
    {
        let Self { lines, rays, sat } = self;
        (lines, rays, sat)
    }
}

// It lends its rays.
impl LendRows for System {
    ghost list = { λ system. as_rows system.rays };

    #[inline]
    fn width(&self) -> usize {
        self.rays.width()
    }

    #[inline]
    fn len(&self) -> usize {
        self.rays.len()
    }

    #[inline]
    fn row(&self, i: usize) -> &[i128] {
        self.rays.row(i)
    }
}
