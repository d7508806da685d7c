//! Pairs of rows that a refusal shows.
ghost use Rattle.std.specs.Prelude.{◌≡◌, ◌^◌, ◌<◌, length, IfOk};
ghost use Rattle.row_core.specs.Range.{AllInRange};
ghost use Rattle.mapped_systems.specs.Refusals.{ShowsPair};

use row_core::{Memory, OverKind, Overflow};
use std::alloc::Global;

/// The overflow that shows two rows, and the column at which a computation with them leaves the
/// range.
pub(crate) fn shown(
    alloc: Global,
    kind: OverKind,
    left: &[i128],
    right: &[i128],
    column: u32,
) -> Result<Overflow, Memory>
    requires left_in_range { AllInRange left.now }
    requires left_narrow { length left.now < 2 ^ 32 }
    requires right_in_range { AllInRange right.now }
    requires right_narrow { length right.now < 2 ^ 32 }
    ensures rows { IfOk result (ShowsPair kind left.now right.now) }
    ensures column { IfOk result (λ over. over.column ≡ column) }
{
    Overflow::of_rows(alloc, kind, left, right, column)
}
