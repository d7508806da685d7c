//! Rows with all signs changed.
ghost use Rattle.std.specs.Prelude.{◌≡◌, ℤ, pos, neg_ℤ, length};
ghost use Rattle.row_core.specs.Vectors.{scale};
ghost use Rattle.row_core.specs.Range.{AllInRange};
ghost use Rattle.row_core.specs.Content.{IsPrimitive};

/// Changes all signs.
pub fn negate(row: &mut [i128])
    requires { AllInRange row.old }
    ensures in_range { AllInRange row.new }
    ensures width { length row.new ≡ length row.old }
    ensures value { row.new ≡ scale (neg_ℤ (pos 1)) row.old }
    ensures primitive { IsPrimitive row.old → IsPrimitive row.new }
{
    for cell in row.iter_mut() {
        *cell = -*cell;
    }
}
