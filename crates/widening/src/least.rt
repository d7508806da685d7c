//! Whether rows are at least 0 on generators.
ghost use Rattle.std.specs.Prelude.{◌≡◌, ◌+◌, ◌^◌, ◌<◌, ◌↔◌, length, IsTrue, IfOk, IfErr, neg_ℤ};
ghost use Rattle.row_core.specs.Range.{AllInRange};
ghost use Rattle.row_core.specs.Sizes.{HaveBits, AllHaveBits};
ghost use Rattle.widening.specs.Inequalities.{side_of, signed};
ghost use Rattle.widening.specs.Values.{Fits, IsLeastOn, IsValueOverflow};

use crate::values::value_on;
use gens_sys::{GenKind, GensSys};
use row_core::ConvErr;
use std::alloc::Global;

/// Whether a generator of this kind may have the value, or its negative for the other
/// side, on a valid row.
fn fits(kind: GenKind, value: i128, other: bool) -> bool
    ensures { IsTrue result ↔ Fits kind (signed value other) }
{
    match kind {
        GenKind::Line => value == 0,
        GenKind::Ray | GenKind::Point | GenKind::ClosurePoint => {
            if other { value <= 0 } else { value >= 0 }
        }
    }
}

/// Whether a row, or its negative for the other side, is 0 on lines and at least 0 on the other
/// generators. They are tested in order, up to the first that refuses. The numbers have at most so
/// many bits.
///
/// # Errors
///
/// The row and a generator whose dot leaves the range.
pub(crate) fn is_least_on(
    alloc: Global,
    row: &[i128],
    other: bool,
    gens: &GensSys,
    within: u32,
) -> Result<bool, ConvErr>
    requires wide { length row.now ≡ gens.now.dim + 1 }
    requires few { length row.now < 2 ^ 32 }
    requires in_range { AllInRange row.now }
    requires bits { HaveBits within row.now × AllHaveBits within gens.now.list }
    ensures least { IfOk result (λ b. IsTrue b ↔ IsLeastOn gens.now.list (side_of row.now other)) }
    ensures overflow { IfErr result (IsValueOverflow row.now gens.now.list) }
{
    for index in 0..gens.len() {
        let value = value_on(alloc, row, gens, within, index)?;
        if !fits(gens.kind(index), value, other) {
            return Ok(false);
        }
    }
    Ok(true)
}
