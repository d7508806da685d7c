//! Turns of a run.
ghost use Rattle.std.specs.Prelude.{◌≡◌, ◌<◌, ◌≤◌, slice_get, Some, IfOk, IfErr, MatchBool};
ghost use Rattle.poly_pair.specs.Polyhedra.{Polyhedron};
ghost use Rattle.widening.specs.Ranks.{weight, total};
ghost use Rattle.widening.specs.Updates.{IsUpdate, IsUpdateOverflow, ConvertsUpdate};
ghost use Rattle.poly_pair.specs.ClosedPolyhedra.{IsClosedOver};
ghost use Rattle.widening.specs.WideningLaws.{IsEnlarged};
ghost use Rattle.widening.specs.Runs.{TurnList, IsTurn};
ghost use Rattle.widening.specs.RunLaws.{AreSetsOf, IsTableOf, AreProper, IsFound, ReadsFrom};
ghost use Rattle.row_core.specs.Refusals.{IsOverflowIn};
ghost use Rattle.widening.specs.RunOverflows.{LeavesInTurn};
ghost use Rattle.poly_pair.specs.Work.{conv_overflow, overflow_in};
ghost use Rattle.widening.specs.RunConversions.{ConvertsTurn};

use crate::laws::weight_falls;
use crate::table::Table;
use crate::updates::{Updated, update};
use poly_pair::Poly;
use row_core::{ConvErr, Steps};
use std::alloc::Global;
use std::sync::ledger::Ledger;

/// Turns in order, each of which joins something to the set of its place.
pub trait Turns {
    ghost turns: { Self → TurnList };

    /// The number of turns.
    fn count(&self) -> usize
        ensures value { result ≡ (turns self.now).count }
        ensures proper { AreProper (turns self.now) };

    /// The place of a turn.
    fn place(&self, index: usize) -> usize
        requires { index < (turns self.now).count }
        ensures { result ≡ (turns self.now).place index };

    /// The place whose set a turn reads beside that of its own.
    fn source(&self, index: usize) -> usize
        requires { index < (turns self.now).count }
        ensures { ReadsFrom (turns self.now) index result };

    /// The larger set that a turn joins to that of its place, or none where it has the same points.
    fn found<L: Ledger>(
        &self,
        alloc: Global,
        index: usize,
        sets: &[Poly],
        steps: &mut Steps<L>,
    ) -> Result<Option<Poly>, ConvErr>
        requires index { index < (turns self.now).count }
        requires sets { AreSetsOf (turns self.now).dim (turns self.now).places sets.now }
        ensures found { IfOk result (λ o. (old : Polyhedron)
            → slice_get sets.now ((turns self.now).place index) ≡ Some old
            → IsFound ((turns self.now).Joins index sets.now) old o) }
        ensures overflow { IfErr result (IsOverflowIn ((turns self.now).Leaves index sets.now)) }
        ensures no_fewer { steps.old ≤ steps.new }
        ensures conversion { (turns self.now).Counts index sets.now steps.old steps.new
            (overflow_in conv_overflow result) };
}

/// What a larger set makes of the set of a place.
fn moved<L: Ledger>(
    alloc: Global,
    old: &Poly,
    joined: Poly,
    left: u32,
    steps: &mut Steps<L>,
) -> Result<Updated, ConvErr>
    requires { IsEnlarged old.now joined }
    ensures update { IfOk result (λ u. IsUpdate left old.now joined u.set u.left) }
    ensures closed { IfOk result (λ u. IsClosedOver joined.cons.dim u.set) }
    ensures falls { IfOk result (λ u. weight u.set u.left < weight old.now left) }
    ensures overflow { IfErr result (IsUpdateOverflow left old.now joined) }
    ensures no_fewer { steps.old ≤ steps.new }
    ensures conversion { ConvertsUpdate left old.now joined steps.old steps.new result }
{
    weight_falls();
    match update(alloc, old, joined, left, steps) {
        Ok(updated) => {
            let _kept = updated.set.dim();
            let _rows = updated.set.cons().len();
            Ok(updated)
        }
        Err(cause) => Err(cause),
    }
}

/// A turn. Says whether it changed the table.
pub(crate) fn turn<T: Turns, L: Ledger>(
    alloc: Global,
    turns: &T,
    index: usize,
    table: &mut Table,
    steps: &mut Steps<L>,
) -> Result<bool, ConvErr>
    requires proper { AreProper (T.turns turns.now) }
    requires table { IsTableOf (T.turns turns.now) table.old }
    requires index { index < (T.turns turns.now).count }
    ensures turn { IfOk result (λ changed. IsTurn (T.turns turns.now) index table.old table.new) }
    ensures falls { IfOk result (λ changed. MatchBool changed
        (total table.new.sets table.new.left < total table.old.sets table.old.left)
        (table.new ≡ table.old)) }
    ensures overflow { IfErr result
        (IsOverflowIn (LeavesInTurn (T.turns turns.now) index table.old)) }
    ensures no_fewer { steps.old ≤ steps.new }
    ensures conversion { ConvertsTurn (T.turns turns.now) index table.old steps.old steps.new
        result }
{
    let place = turns.place(index);
    let joined = match turns.found(alloc, index, table.sets(), steps) {
        Ok(Some(joined)) => joined,
        Ok(None) => return Ok(false),
        Err(cause) => return Err(cause),
    };
    match moved(alloc, table.set(place), joined, table.left(place), steps) {
        Ok(updated) => {
            table.put(place, updated.set, updated.left);
            Ok(true)
        }
        Err(cause) => Err(cause),
    }
}
