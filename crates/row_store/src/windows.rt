//! Parts of a buffer.
ghost use Rattle.std.specs.Prelude.{◌≡◌, ◌+◌, ◌^◌, ◌<◌, ◌≤◌, ◌⊎◌, length, MatchResult, IfOk};
ghost use Rattle.flat_rows.specs.Flat.{window};
ghost use Rattle.row_core.specs.Content.{IsPrimitiveOf};
ghost use Rattle.row_core.specs.Range.{AllInRange};
ghost use Rattle.row_core.specs.Sizes.{HaveBits};
ghost use Rattle.row_store.specs.Stores.{IsNegated, IsPartChanged, IsPartCombined, IsPartLeft};

use row_core::{Steps, combine_within, make_primitive_within, negate};
use std::sync::ledger::Ledger;

/// A part of a buffer: `width` cells from `at` on.
#[derive(Clone, Copy)]
pub(crate) struct Window {
    pub(crate) at: usize,
    pub(crate) width: usize,
}

/// Makes a part of at most so many bits primitive, and tells how many its numbers have then.
pub(crate) fn make_part_primitive(cells: &mut [i128], part: Window, bits: u32) -> u32
    requires within { part.at + part.width ≤ length cells.old }
    requires in_range { AllInRange cells.old }
    requires bits { HaveBits bits (window part.at part.width cells.old) }
    ensures part { IsPartChanged IsPrimitiveOf part.at part.width cells.old cells.new }
    ensures in_range { AllInRange cells.new }
    ensures bits { HaveBits result (window part.at part.width cells.new) }
{
    make_primitive_within(&mut cells[part.at..part.at + part.width], bits)
}

/// Changes all signs of a part.
pub(crate) fn negate_part(cells: &mut [i128], part: Window)
    requires within { part.at + part.width ≤ length cells.old }
    requires in_range { AllInRange cells.old }
    ensures part { IsPartChanged IsNegated part.at part.width cells.old cells.new }
    ensures in_range { AllInRange cells.new }
{
    negate(&mut cells[part.at..part.at + part.width]);
}

/// Combines a part with a row, both with at most so many bits, and tells how many it has then.
pub(crate) fn combine_part<L: Ledger>(
    cells: &mut [i128],
    part: Window,
    v: &[i128],
    factors: (i128, i128),
    bits: u32,
    steps: &mut Steps<L>,
) -> Result<u32, u32>
    requires within { part.at + part.width ≤ length cells.old }
    requires same_width { length v.now ≡ part.width }
    requires narrow { part.width < 2 ^ 32 }
    requires bits { HaveBits bits (window part.at part.width cells.old) × HaveBits bits v.now }
    ensures counted { steps.new ≡ steps.old + 1 }
    ensures combined { let s = factors.0 in let t = factors.1 in
        let Combined = IsPartCombined part.at part.width s v.now t cells.old in
        let Left = IsPartLeft part.at part.width s v.now t cells.old in
        MatchResult result (λ _. Combined cells.new) (Left cells.new) }
    ensures in_range { AllInRange cells.old → AllInRange cells.new }
    ensures bits { IfOk result (λ bits. HaveBits bits (window part.at part.width cells.new)) }
{
    let (s, t) = factors;
    let row = &mut cells[part.at..part.at + part.width];
    combine_within(row, s, v, t, bits, steps)
}

/// Combines a part with the part as wide from `from` on, which lies apart. Both have so many bits.
pub(crate) fn combine_parts<L: Ledger>(
    cells: &mut [i128],
    to: Window,
    from: usize,
    factors: (i128, i128),
    bits: u32,
    steps: &mut Steps<L>,
) -> Result<u32, u32>
    requires first { to.at + to.width ≤ length cells.old }
    requires second { from + to.width ≤ length cells.old }
    requires apart { (to.at + to.width ≤ from) ⊎ (from + to.width ≤ to.at) }
    requires narrow { to.width < 2 ^ 32 }
    requires first_bits { HaveBits bits (window to.at to.width cells.old) }
    requires second_bits { HaveBits bits (window from to.width cells.old) }
    ensures counted { steps.new ≡ steps.old + 1 }
    ensures combined { let v = window from to.width cells.old in
        let s = factors.0 in let t = factors.1 in
        let Combined = IsPartCombined to.at to.width s v t cells.old in
        let Left = IsPartLeft to.at to.width s v t cells.old in
        MatchResult result (λ _. Combined cells.new) (Left cells.new) }
    ensures in_range { AllInRange cells.old → AllInRange cells.new }
    ensures bits { IfOk result (λ bits. HaveBits bits (window to.at to.width cells.new)) }
{
    if to.at < from {
        let (front, back) = cells.split_at_mut(from);
        combine_part(front, to, &back[..to.width], factors, bits, steps)
    } else {
        let (front, back) = cells.split_at_mut(to.at);
        let part = Window { at: 0, ..to };
        let v = &front[from..from + to.width];
        combine_part(back, part, v, factors, bits, steps)
    }
}
