//! The expression that undoes a map which replaces a variable.
ghost use Rattle.std.specs.Prelude.{◌≢◌, ◌^◌, ◌<◌, length, pos, unsigned_abs, IfOk};
ghost use Rattle.row_core.specs.Vectors.{cell};
ghost use Rattle.row_core.specs.Range.{InRange, AllInRange};
ghost use Rattle.mapped_systems.specs.CarriedSystems.{IsInverseRow};

use row_core::{Memory, RowBuf};
use std::alloc::Global;

/// The expression that, over the size of the variable's part, undoes the map that replaces the
/// variable.
pub fn inverse_row(alloc: Global, var: usize, expr: &[i128], den: i128) -> Result<Vec<i128>, Memory>
    requires var { var < length expr.now }
    requires narrow { length expr.now < 2 ^ 32 }
    requires part { cell expr.now var ≢ pos 0 }
    requires in_range { AllInRange expr.now }
    requires den_in_range { InRange den }
    ensures row { IfOk result (λ row.
        IsInverseRow var expr.now den row.items (pos (unsigned_abs (cell expr.now var)))) }
    ensures in_range { IfOk result (λ row. AllInRange row.items) }
{
    if expr[var] < 0 {
        let mut row = Vec::from_slice(alloc, expr)?;
        row[var] = -den;
        return Ok(row);
    }
    let mut row = RowBuf::negated(alloc, expr)?.into_vec();
    row[var] = den;
    Ok(row)
}
