//! Why a list gives no second system.
ghost use Rattle.std.specs.Prelude.{◌≡◌, ◌^◌, ◌<◌, length, IfOk};
ghost use Rattle.row_core.specs.Range.{AllInRange};
ghost use Rattle.minimise.specs.declared.fault.Fault.TheVariants as fault;

use row_core::{Memory, RowBuf};
use std::alloc::{AllocError, Global};

/// Why a list gives no second system.
#[derive(Drop)]
pub(crate) enum Fault {
    Memory,
    /// The combination of the two vectors that is 0 at a pivot leaves the range first
    /// at the column.
    Left {
        left: RowBuf,
        right: RowBuf,
        column: u32,
    },
}

impl From<Memory> for Fault {
    ghost from_gives = { λ _ e. e ≡ fault.Memory };

    fn from(_error: Memory) -> Fault {
        Fault::Memory
    }
}

impl From<AllocError> for Fault {
    ghost from_gives = { λ _ e. e ≡ fault.Memory };

    fn from(_error: AllocError) -> Fault {
        Fault::Memory
    }
}

/// The fault of two vectors.
pub(crate) fn left_of(
    alloc: Global,
    left: &[i128],
    right: &[i128],
    column: u32,
) -> Result<Fault, Memory>
    requires left { AllInRange left.now × (length left.now < 2 ^ 32) }
    requires right { AllInRange right.now × (length right.now < 2 ^ 32) }
    ensures { IfOk result (λ e. e ≡ fault.Left left.now right.now column) }
{
    Ok(Fault::Left {
        left: RowBuf::new(alloc, left)?,
        right: RowBuf::new(alloc, right)?,
        column,
    })
}
