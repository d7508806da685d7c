//! The constraints of ranking functions, of the generators of a relation.
ghost use Rattle.std.specs.Prelude.{◌≡◌, ◌+◌, ◌-◌, ◌^◌, ◌<◌, length, IsTrue, ◌↔◌, IfOk, IfErr, OnOk};
ghost use Rattle.row_core.specs.Range.{AllInRange};
ghost use Rattle.gens_sys.specs.Generators.{FitDimension};
ghost use Rattle.row_core.specs.Refusals.{IsOverflowIn};
ghost use Rattle.ranking.specs.RankingRows.{IsNought, row_kind, GainsReduced, GainsPair, IsRankingSystem};
ghost use Rattle.ranking.specs.Refusals.{LeavesInDifferences, SomeLeavesInDifferences};

use crate::rows::{bound_row, fall_row};
use cons_sys::{ConKind, ConsSys};
use gens_sys::{GenKind, GensSys};
use row_core::{ConvErr, Memory, RowBuf};
use std::alloc::Global;

/// What a generator's rows are asked.
fn row_kind(kind: GenKind) -> ConKind
    ensures { result ≡ row_kind kind }
{
    match kind {
        GenKind::Line => ConKind::Eq,
        GenKind::Ray | GenKind::Point | GenKind::ClosurePoint => ConKind::Ge,
    }
}

/// Whether each entry is 0.
fn is_nought(row: &[i128]) -> bool
    ensures { IsTrue result ↔ IsNought row.now }
{
    row.iter().all(|entry| *entry == 0)
}

/// Appends the constraint, its row made primitive, unless the row is 0.
fn push_reduced(system: &mut ConsSys, row: RowBuf, kind: ConKind) -> Result<(), Memory>
    requires { length row ≡ system.old.dim + 1 }
    ensures dim { system.new.dim ≡ system.old.dim }
    ensures list { OnOk result (GainsReduced system.old.list system.new.list row kind) }
{
    if is_nought(row.cells()) {
        return Ok(());
    }
    system.push_row(row, kind)
}

/// Appends the two constraints of a generator.
///
/// # Errors
///
/// An overflow shows the generator twice, and the first variable whose difference leaves the range.
fn push_pair(
    alloc: Global,
    system: &mut ConsSys,
    states: usize,
    pair: &[i128],
    kind: ConKind,
) -> Result<(), ConvErr>
    requires dim { system.old.dim ≡ states + 1 }
    requires wide { length pair.now ≡ states + states + 1 }
    requires narrow { states < 2 ^ 31 - 1 }
    requires in_range { AllInRange pair.now }
    ensures dim { system.new.dim ≡ system.old.dim }
    ensures list { OnOk result (GainsPair states system.old.list system.new.list pair.now kind) }
    ensures overflow { IfErr result (IsOverflowIn (LeavesInDifferences states pair.now)) }
{
    push_reduced(system, bound_row(alloc, states, pair)?, kind)?;
    let row = match fall_row(alloc, states, pair) {
        Ok(row) => row,
        Err(cause) => return Err(cause),
    };
    push_reduced(system, row, kind)?;
    Ok(())
}

/// The system of the constraints that the generators' rows are, in order.
///
/// # Errors
///
/// An overflow shows a generator twice, and the first variable whose difference leaves the range.
pub(crate) fn ranking_system(
    alloc: Global,
    gens: &GensSys,
    states: usize,
) -> Result<ConsSys, ConvErr>
    requires { gens.now.dim ≡ states + states }
    ensures fit { FitDimension gens.now }
    ensures system { IfOk result (IsRankingSystem states gens.now) }
    ensures overflow { IfErr result (IsOverflowIn (SomeLeavesInDifferences states gens.now.list)) }
{
    let _dim = gens.dim();
    let mut system = ConsSys::new(alloc, states + 1);
    for index in 0..gens.len() {
        let kind = row_kind(gens.kind(index));
        match push_pair(alloc, &mut system, states, gens.row(index), kind) {
            Ok(()) => {}
            Err(cause) => return Err(cause),
        }
    }
    Ok(system)
}
