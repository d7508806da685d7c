//! The rays of the second system, before they are sorted.
ghost use Rattle.std.specs.Prelude.{◌<◌, length, All};
ghost use Rattle.minimise.specs.Rays.{placed_rows};

use ray_order::LendRows;
use row_core::RowList;

/// The rays of the second system, one for each of the facets, before they are sorted.
#[derive(Drop)]
pub(crate) enum Rays {
    /// The rows at the places of the facets, as they stand in the list of rows.
    Listed,
    /// The rows of a list of their own.
    Reduced(RowList),
}

/// The rows of a list at some places.
#[derive(Clone, Copy)]
pub(crate) struct PlacedRows<'a> {
    pub(crate) rows: &'a RowList,
    pub(crate) places: &'a [usize],
    ghost within: { All (λ p. p < length rows.now.rows) places.now },
}

impl LendRows for PlacedRows<'_> {
    ghost list = { λ p. placed_rows p.rows.now p.places.now };

    #[inline]
    fn width(&self) -> usize {
        self.rows.width()
    }

    #[inline]
    fn len(&self) -> usize {
        self.places.len()
    }

    #[inline]
    fn row(&self, i: usize) -> &[i128] {
        self.rows.row(self.places[i])
    }
}
