//! The overflow that is shown for a row that isn't taken in.
ghost use Rattle.std.specs.Prelude.{◌≡◌, ◌^◌, ◌<◌, length, IfOk};
ghost use Rattle.row_core.specs.Range.{AllInRange};
ghost use Rattle.row_core.specs.Lists.{row_at, vectors};
ghost use Rattle.cone_laws.specs.Leaves.{Shows};
ghost use Rattle.chernikova.specs.Faults.{IsPositionFault, IsCombineFault};

use crate::system::System;
use row_core::{Memory, OverKind, Overflow, RowList};
use row_store::{CombineFault, ValueFault};
use std::alloc::Global;

/// Copies the vector that a fault names at row `k`, and the row.
pub(crate) fn overflow_of_dot(
    alloc: Global,
    cone: &System,
    rows: &RowList,
    k: usize,
    fault: ValueFault,
) -> Result<Overflow, Memory>
    requires row { k < length rows.now.rows }
    requires narrow { rows.now.width < 2 ^ 32 }
    requires lines { cone.now.lines.width ≡ rows.now.width }
    requires rays { cone.now.rays.width ≡ rows.now.width }
    requires fault { let lines = vectors cone.now.lines.rows in
        let rays = vectors cone.now.rays.rows in
        IsPositionFault (row_at rows.now.rows k) lines rays fault }
    ensures { let lines = vectors cone.now.lines.rows in
        let rays = vectors cone.now.rays.rows in
        IfOk result (λ over. (over.step ≡ k) ×
        Shows over.kind rows.now.rows k lines rays over.left over.right over.column) }
{
    match fault {
        ValueFault::Memory => Err(Memory),
        ValueFault::Dot { vector, column } => {
            let left = vector.vector(&cone.lines, &cone.rays);
            overflow_at(alloc, OverKind::Dot, k, left, rows.row(k), column)
        }
    }
}

/// Copies the two vectors that a fault names at the step with row `k`.
pub(crate) fn overflow_of_combination(
    alloc: Global,
    cone: &System,
    rows: &RowList,
    k: usize,
    fault: CombineFault,
) -> Result<Overflow, Memory>
    requires row { k < length rows.now.rows }
    requires narrow { rows.now.width < 2 ^ 32 }
    requires lines { cone.now.lines.width ≡ rows.now.width }
    requires rays { cone.now.rays.width ≡ rows.now.width }
    requires fault { let lines = vectors cone.now.lines.rows in
        let rays = vectors cone.now.rays.rows in
        IsCombineFault rows.now.rows k lines rays fault }
    ensures { let lines = vectors cone.now.lines.rows in
        let rays = vectors cone.now.rays.rows in
        IfOk result (λ over. (over.step ≡ k) ×
        Shows over.kind rows.now.rows k lines rays over.left over.right over.column) }
{
    let left = fault.left.vector(&cone.lines, &cone.rays);
    let right = fault.right.vector(&cone.lines, &cone.rays);
    overflow_at(alloc, OverKind::Combine, k, left, right, fault.column)
}

/// The overflow of the step with row `k` that shows copies of two vectors.
fn overflow_at(
    alloc: Global,
    kind: OverKind,
    k: usize,
    left: &[i128],
    right: &[i128],
    column: u32,
) -> Result<Overflow, Memory>
    requires left { AllInRange left.now × (length left.now < 2 ^ 32) }
    requires right { AllInRange right.now × (length right.now < 2 ^ 32) }
    ensures { IfOk result (λ over. over ≡ record
        { kind = kind; step = k; left = left.now; right = right.now; column = column }) }
{
    let mut over = Overflow::of_rows(alloc, kind, left, right, column)?;
    over.step = k as u64;
    Ok(over)
}
