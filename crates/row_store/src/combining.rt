//! Combinations of two rows that are 0 on a row, made in place where they are appended.
ghost use Rattle.std.specs.Prelude.{◌≡◌, ◌≢◌, ◌+◌, ◌≤◌, ◌<◌, [], ◌∷◌, ◌++◌, length};
ghost use Rattle.std.specs.Prelude.{take, pos, All, IfOk, IsOk, OnOk, OnErr, MatchResult};
ghost use Rattle.row_core.specs.Vectors.{scale};
ghost use Rattle.row_core.specs.Content.{IsPrimitive, IsPrimitiveOf};
ghost use Rattle.flat_rows.specs.Flat.{entries_at};
ghost use Rattle.row_core.specs.Range.{InRange, AllInRange};
ghost use Rattle.row_core.specs.Sizes.{HaveBits};
ghost use Rattle.row_core.specs.Signs.{sign};
ghost use Rattle.row_core.specs.Combinations.{IsCombined, CombinationLeaves};
ghost use Rattle.row_store.specs.Stores.{IsRowChanged};
ghost use Rattle.row_store.specs.Vectors.{IsRowAppended, HasSameRows};

use crate::combination::factors;
use crate::store::RowStore;
use crate::vectors::Crossing;
use row_core::{Steps, bits};
use std::sync::ledger::Ledger;

/// Appends the primitive combination, 0 on a row, of the two rows at a pair of indices, with the
/// values `u` and `v` on it. The factor of the second row is positive. The rows have at most
/// `within` bits; it tells how many the combination has.
///
/// # Errors
///
/// The first column at which a product or the sum leaves the range. The rows are then as before.
pub(crate) fn append_combination<L: Ledger>(
    store: &mut RowStore,
    pair: (usize, usize),
    u: i128,
    v: i128,
    within: u32,
    steps: &mut Steps<L>,
) -> Result<u32, u32>
    requires spare { 0 < store.old.spare }
    requires rows { (pair.0 < length store.old.rows) × (pair.1 < length store.old.rows) }
    requires within { All (HaveBits within) store.old.rows }
    requires in_range { InRange u × InRange v }
    requires nonzero { u ≢ pos 0 }
    ensures counted { steps.new ≡ steps.old + 1 }
    ensures combined { let first = entries_at store.old.rows pair.0 in
        let second = entries_at store.old.rows pair.1 in
        let Leaves = CombinationLeaves u v first second in
        MatchResult result (λ _. IsRowAppended (IsCombined u v first second) store.old store.new)
        (λ column. HasSameRows store.old store.new × Leaves column) }
    ensures bits { let last = length store.old.rows in
        IfOk result (λ bits. HaveBits bits (entries_at store.new.rows last)) }
{
    let (left, right) = pair;
    let last = store.len();
    prove!(store.width() < 0x1_0000_0000);
    store.push_copy(right);
    let combined = store.combine_rows_within(last, left, factors(u, v), within, steps);
    end_combination(store, last, combined)
}

/// Appends a primitive vector with the value `v` on a row, lowered onto the row by a line that the
/// row crosses. Both have at most its bits; it tells how many the lowered vector has.
///
/// # Errors
///
/// The first column at which a product or the sum leaves the range. The rows are then as before.
pub(crate) fn append_lowered<L: Ledger>(
    store: &mut RowStore,
    crossing: Crossing,
    vector: &[i128],
    v: i128,
    steps: &mut Steps<L>,
) -> Result<u32, u32>
    requires spare { 0 < store.old.spare }
    requires line { length crossing.line.now ≡ store.old.width }
    requires wide { length vector.now ≡ store.old.width }
    requires vector { AllInRange vector.now × IsPrimitive vector.now }
    requires line_bits { HaveBits crossing.bits crossing.line.now }
    requires vector_bits { HaveBits crossing.bits vector.now }
    requires in_range { InRange crossing.value × InRange v }
    requires nonzero { crossing.value ≢ pos 0 }
    ensures counted { (steps.old ≤ steps.new) × (steps.new ≤ steps.old + 1) }
    ensures combined { let line = crossing.entry.line.now in
        let Is = IsCombined crossing.entry.value v line vector.now in
        let Leaves = CombinationLeaves crossing.entry.value v line vector.now in
        MatchResult result (λ _. IsRowAppended Is store.old store.new)
        (λ column. HasSameRows store.old store.new × Leaves column) }
    ensures bits { let last = length store.old.rows in
        IfOk result (λ bits. HaveBits bits (entries_at store.new.rows last)) }
{
    let last = store.len();
    store.push_reserved(vector);
    if v == 0 {
        return Ok(bits(vector));
    }
    let factors = factors(crossing.value, v);
    let combined = store.combine_with(last, crossing.line, factors, crossing.bits, steps);
    end_combination(store, last, combined)
}

/// Makes the last row primitive once it is combined, with so many bits, and drops it where that was
/// refused. It tells how many bits it has then.
fn end_combination(
    store: &mut RowStore,
    last: usize,
    combined: Result<u32, u32>,
) -> Result<u32, u32>
    requires last { last < length store.old.rows }
    requires bits { IfOk combined (λ bits. HaveBits bits (entries_at store.old.rows last)) }
    ensures ok { OnOk combined (IsOk result) }
    ensures same { OnErr combined (result ≡ combined) }
    ensures bits { IfOk result (λ bits. HaveBits bits (entries_at store.new.rows last)) }
    ensures primitive { OnOk combined (IsRowChanged IsPrimitiveOf last store.old store.new) }
    ensures dropped { let rows = take last store.old.rows in
        OnErr combined (store.new ≡ record store.old { rows = rows }) }
{
    match combined {
        Ok(bits) => Ok(store.make_row_primitive_within(last, bits)),
        Err(column) => {
            store.truncate(last);
            Err(column)
        }
    }
}

/// Appends a line with the sign with which a row with this value on it is above 0 on it.
pub(crate) fn append_upward(store: &mut RowStore, line: &[i128], value: i128)
    requires spare { 0 < store.old.spare }
    requires wide { length line.now ≡ store.old.width }
    requires in_range { AllInRange line.now × InRange value }
    requires nonzero { value ≢ pos 0 }
    ensures width { store.new.width ≡ store.old.width }
    ensures rows { store.new.rows ≡ store.old.rows ++ scale (sign value) line.now ∷ [] }
{
    let last = store.len();
    store.push_reserved(line);
    if value < 0 {
        store.negate(last);
    }
}
