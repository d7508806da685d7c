//! Marks on the rows of a list.
ghost use Rattle.std.specs.Prelude.{◌≡◌, ℕ, ◌+◌, ◌<◌, ◌≤◌, length, IfOk, IsTrue, ◌↔◌};
ghost use Rattle.row_core.specs.Vectors.{cell};
ghost use Rattle.nnc_enc.specs.StrongRows.{HasVariable};
ghost use Rattle.nnc_enc.specs.Marks.{Tells, AreTold};

use row_core::RowList;
use std::alloc::{AllocError, Global};

/// What is asked of the columns e and d of a row or vector.
#[derive(Clone, Copy)]
pub(crate) enum Mark {
    /// e is 0.
    Level,
    /// e is 0 and d isn't.
    Place,
    /// e is below 0.
    Strict,
    /// e is above 0.
    Point,
}

/// Whether the two numbers are as the mark asks.
fn tells(mark: Mark, height: i128, divisor: i128) -> bool
    ensures { IsTrue result ↔ Tells mark height divisor }
{
    match mark {
        Mark::Level => height == 0,
        Mark::Place => height == 0 && divisor != 0,
        Mark::Strict => height < 0,
        Mark::Point => height > 0,
    }
}

/// Which rows are as the mark asks.
pub(crate) fn marks(
    alloc: Global,
    dim: usize,
    list: &RowList,
    mark: Mark,
) -> Result<Vec<bool>, AllocError>
    requires { list.now.width ≡ dim + 2 }
    ensures { IfOk result (λ v. AreTold mark dim list.now.rows v.items (length list.now.rows)) }
{
    let mut marks = Vec::with_capacity(alloc, list.len())?;
    for index in 0..list.len() {
        let row = list.row(index);
        marks.push_reserved(tells(mark, row[dim], row[dim + 1]));
    }
    Ok(marks)
}

/// Whether the row has a variable.
pub(crate) fn has_variable(dim: usize, row: &[i128]) -> bool
    requires { dim ≤ length row.now }
    ensures { IsTrue result ↔ HasVariable dim row.now }
{
    for column in 0..dim {
        if row[column] != 0 {
            return true;
        }
    }
    false
}
