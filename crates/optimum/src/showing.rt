//! The rows of a pair that leaves the range.
ghost use Rattle.std.specs.Prelude.{◌≡◌, ◌<◌, length, IfOk};
ghost use Rattle.optimum.specs.Showing.{left_shown, shown_values};

use gens_sys::GensSys;
use row_core::{Memory, OverKind, Overflow, PairOver, RowBuf};
use std::alloc::Global;

/// The first row of a pair: a generator that is compared, or else the row itself.
fn left_shown(alloc: Global, row: RowBuf, gens: &GensSys, pair: PairOver) -> Result<RowBuf, Memory>
    requires { pair.kind ≡ OverKind.Compare → pair.left < length gens.now.list }
    ensures { IfOk result (λ left. left ≡ left_shown pair.kind row gens.now pair.left) }
{
    match pair.kind {
        OverKind::Compare => Ok(RowBuf::new(alloc, gens.row(pair.left))?),
        OverKind::Dot | OverKind::Combine | OverKind::Scale => Ok(row),
    }
}

/// The overflow of a pair that a search for a bound of the row, or a relation of it, comes to: the
/// row and a generator, or two generators.
pub fn shown(alloc: Global, row: RowBuf, gens: &GensSys, pair: PairOver) -> Result<Overflow, Memory>
    requires left { pair.kind ≡ OverKind.Compare → pair.left < length gens.now.list }
    requires right { pair.right < length gens.now.list }
    ensures { IfOk result (λ over. over ≡ shown_values row gens.now pair) }
{
    let right = RowBuf::new(alloc, gens.row(pair.right))?;
    let left = left_shown(alloc, row, gens, pair)?;
    Ok(Overflow {
        kind: pair.kind,
        step: 0,
        left,
        right,
        column: pair.column,
    })
}
