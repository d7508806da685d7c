//! Runs of turns to their limit.
ghost use Rattle.std.specs.Prelude.{◌<◌, ◌≤◌, MatchBool, IfOk, IfErr};
ghost use Rattle.widening.specs.Ranks.{total};
ghost use Rattle.widening.specs.Runs.{IsRound, IsStable, HasLimit};
ghost use Rattle.widening.specs.RunLaws.{AreSetsOf, IsTableOf, AreProper, IncludeEach, AreTaken};
ghost use Rattle.widening.specs.SettledTurns.{AreSettled};
ghost use Rattle.row_core.specs.Refusals.{IsOverflowIn};
ghost use Rattle.widening.specs.RunOverflows.{LeavesInRound, LeavesInRun};
ghost use Rattle.poly_pair.specs.Work.{conv_overflow};
ghost use Rattle.widening.specs.RunConversions.{IsCountedRound, IsBrokenRound, ConvertsRun};

use crate::laws::widening_includes;
use crate::settled::due_turn;
use crate::table::Table;
use crate::turns::Turns;
use poly_pair::Poly;
use row_core::{ConvErr, Steps};
use std::alloc::Global;
use std::sync::ledger::Ledger;

/// All turns in order, of which those that aren't due would leave the table as it is. Says whether
/// one of them changed it.
fn round<T: Turns, L: Ledger>(
    alloc: Global,
    turns: &T,
    table: &mut Table,
    due: &mut [bool],
    steps: &mut Steps<L>,
) -> Result<bool, ConvErr>
    requires table { IsTableOf (T.turns turns.now) table.old }
    requires settled { AreSettled (T.turns turns.now) table.old due.old }
    ensures settled { IfOk result (λ changed. AreSettled (T.turns turns.now) table.new due.new) }
    ensures round { IfOk result (λ changed.
        IsRound (T.turns turns.now) (T.turns turns.now).count table.old table.new) }
    ensures falls { IfOk result (λ changed. MatchBool changed
        (total table.new.sets table.new.left < total table.old.sets table.old.left)
        (IsStable (T.turns turns.now) table.new)) }
    ensures overflow { IfErr result (IsOverflowIn (LeavesInRound (T.turns turns.now) table.old)) }
    ensures no_fewer { steps.old ≤ steps.new }
    ensures counted { IfOk result (λ changed. IsCountedRound (T.turns turns.now)
        (T.turns turns.now).count table.old table.new steps.old steps.new) }
    ensures broken { IfErr result (λ cause.
        IsBrokenRound (T.turns turns.now) table.old steps.old steps.new (conv_overflow cause)) }
{
    let mut changed = false;
    for index in 0..turns.count() {
        if due_turn(alloc, turns, index, table, due, steps)? {
            changed = true;
        }
    }
    Ok(changed)
}

/// The limit of the rounds of the turns, one set for each place.
///
/// The run starts with the given sets. A round takes each turn in order. Where what it joins to
/// the set of its place has more points, this replaces the set, at most `delay` times for each
/// place, and later its widening does. The limit is the table that a whole round leaves as it is.
/// Each run comes to it. A turn isn't made again while the set that it reads is the same: it would
/// join nothing.
///
/// # Errors
///
/// An overflow is one of a turn that the run comes to: of finding what it joins, or of
/// its widening.
pub fn run<T: Turns, L: Ledger>(
    alloc: Global,
    turns: &T,
    initial: Vec<Poly>,
    delay: u32,
    steps: &mut Steps<L>,
) -> Result<Vec<Poly>, ConvErr>
    requires { AreSetsOf (T.turns turns.now).dim (T.turns turns.now).places initial.items }
    ensures limit { IfOk result (λ sets.
        HasLimit (T.turns turns.now) initial.items delay sets.items) }
    ensures sets { IfOk result (λ sets.
        AreSetsOf (T.turns turns.now).dim (T.turns turns.now).places sets.items) }
    ensures includes_initial { IfOk result (λ sets. IncludeEach initial.items sets.items) }
    ensures taken { IfOk result (λ sets. AreTaken (T.turns turns.now) sets.items) }
    ensures overflow { IfErr result
        (IsOverflowIn (LeavesInRun (T.turns turns.now) initial.items delay)) }
    ensures no_fewer { steps.old ≤ steps.new }
    ensures conversion { ConvertsRun (T.turns turns.now) initial.items delay steps.old steps.new
        result }
{
    widening_includes();
    let mut due = vec![in alloc; true; turns.count()]?;
    let mut table = Table::new(alloc, initial, delay)?;
    loop {
        if !round(alloc, turns, &mut table, &mut due, steps)? {
            return Ok(table.into_sets());
        }
    }
}
