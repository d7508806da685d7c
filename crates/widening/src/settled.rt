//! Turns that are taken where they may change something.
ghost use Rattle.std.specs.Prelude.{◌≡◌, ◌<◌, ◌≤◌, length, IfOk, IfErr, MatchBool};
ghost use Rattle.widening.specs.Ranks.{total};
ghost use Rattle.widening.specs.Runs.{IsTurn};
ghost use Rattle.widening.specs.RunLaws.{IsTableOf, AreProper};
ghost use Rattle.widening.specs.SettledTurns.{AreSettled, AreMadeDue};
ghost use Rattle.row_core.specs.Refusals.{IsOverflowIn};
ghost use Rattle.widening.specs.RunOverflows.{LeavesInTurn};
ghost use Rattle.widening.specs.RunConversions.{ConvertsTurn};

use crate::laws::widening_includes;
use crate::table::Table;
use crate::turns::{Turns, turn};
use row_core::{ConvErr, Steps};
use std::alloc::Global;
use std::sync::ledger::Ledger;

/// Marks all turns that read the set of a place as due.
fn make_due<T: Turns>(turns: &T, place: usize, due: &mut [bool])
    requires { length due.old ≡ (T.turns turns.now).count }
    ensures { AreMadeDue (T.turns turns.now) place due.old due.new }
{
    for index in 0..turns.count() {
        if turns.source(index) == place {
            due[index] = true;
        }
    }
}

/// A turn, unless it isn't due and would leave the table as it is. Says whether it changed the
/// table. It isn't due then until the set that it reads is another.
pub(crate) fn due_turn<T: Turns, L: Ledger>(
    alloc: Global,
    turns: &T,
    index: usize,
    table: &mut Table,
    due: &mut [bool],
    steps: &mut Steps<L>,
) -> Result<bool, ConvErr>
    requires proper { AreProper (T.turns turns.now) }
    requires table { IsTableOf (T.turns turns.now) table.old }
    requires index { index < (T.turns turns.now).count }
    requires settled { AreSettled (T.turns turns.now) table.old due.old }
    ensures settled { IfOk result (λ changed. AreSettled (T.turns turns.now) table.new due.new) }
    ensures turn { IfOk result (λ changed. IsTurn (T.turns turns.now) index table.old table.new) }
    ensures falls { IfOk result (λ changed. MatchBool changed
        (total table.new.sets table.new.left < total table.old.sets table.old.left)
        (table.new ≡ table.old)) }
    ensures overflow { IfErr result
        (IsOverflowIn (LeavesInTurn (T.turns turns.now) index table.old)) }
    ensures no_fewer { steps.old ≤ steps.new }
    ensures conversion { ConvertsTurn (T.turns turns.now) index table.old steps.old steps.new
        result }
{
    widening_includes();
    if !due[index] {
        return Ok(false);
    }
    let changed = turn(alloc, turns, index, table, steps)?;
    due[index] = false;
    if changed {
        make_due(turns, turns.place(index), due);
    }
    Ok(changed)
}
