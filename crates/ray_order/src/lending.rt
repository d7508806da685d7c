//! Lists that lend their rows.
ghost use Rattle.std.specs.Prelude.{◌≡◌, ◌^◌, ◌<◌, length};
ghost use Rattle.row_core.specs.Range.{AllInRange};
ghost use Rattle.row_core.specs.Lists.{Rows, row_at};

use row_core::RowList;

/// A list that lends rows of one width by their index.
pub trait LendRows {
    // The list that is seen.
    ghost list: { Self → Rows };

    /// The width of each row.
    fn width(&self) -> usize
        ensures value { result ≡ (list self.now).width }
        ensures narrow { (list self.now).width < 2 ^ 32 };

    /// The number of rows.
    fn len(&self) -> usize
        ensures { result ≡ length (list self.now).rows };

    /// Lends row `i`.
    fn row(&self, i: usize) -> &[i128]
        requires { i < length (list self.now).rows }
        ensures value { result.now ≡ row_at (list self.now).rows i }
        ensures wide { length result.now ≡ (list self.now).width }
        ensures in_range { AllInRange result.now };
}

impl LendRows for RowList {
    ghost list = { λ rows. rows };

    #[inline]
    fn width(&self) -> usize {
        self.width()
    }

    #[inline]
    fn len(&self) -> usize {
        self.len()
    }

    #[inline]
    fn row(&self, i: usize) -> &[i128] {
        self.row(i)
    }
}
