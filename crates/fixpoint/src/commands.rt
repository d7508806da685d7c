//! The command that makes transition systems, and the one that runs them.
ghost use Rattle.std.specs.Option.{option_copied};
ghost use Rattle.line_values.specs.Meaning.{on_one};
ghost use Rattle.fixpoint.specs.Commands.{system as make_system, fixpoint as run_system};
ghost use Rattle.line_values.specs.Effects.{all_placed};
ghost use Rattle.line_values.specs.Performed.{IsPerformed};

use crate::runs::run;
use line_values::StepErr;
use name_table::Names;
use poly_pair::{MAX_DIM, Poly};
use reply_text::{Fault, Text};
use row_core::Steps;
use std::alloc::Global;
use std::sync::ledger::Ledger;
use trans_sys::{MAX_LOCATIONS, System, is_too_long};

/// The most variables of a state: a relation of states has twice as many.
const MAX_STATE_DIM: u64 = (MAX_DIM / 2) as u64;

/// The transition system in which no location has an initial state, without transitions.
pub fn system(alloc: Global, n: u64, locations: u64, full: bool) -> Result<System, StepErr>
    ensures { IsPerformed (make_system full n locations) result }
{
    if n > MAX_STATE_DIM {
        return Err(StepErr::Input(Fault::TooManyDims));
    }
    if locations == 0 || locations > MAX_LOCATIONS as u64 {
        return Err(StepErr::Input(Fault::OutOfRange));
    }
    if full {
        return Err(StepErr::Input(Fault::TooManyNames));
    }
    System::new(alloc, n as usize, locations as usize).map_err(StepErr::from)
}

/// The set of each location in the limit of the system's rounds, where there is room for their
/// numbered names.
pub fn fixpoint<E: Drop, L: Ledger>(
    alloc: Global,
    names: &Names<E>,
    system: Option<&System>,
    delay: u64,
    prefix: &Text,
    steps: &mut Steps<L>,
) -> Result<Vec<Poly>, StepErr>
    ensures { IsPerformed (on_one (option_copied system.entry)
        (run_system names.now delay prefix.now)) (all_placed prefix.now result) }
{
    let Some(system) = system else {
        return Err(StepErr::Input(Fault::UnknownName));
    };
    if is_too_long(delay) {
        return Err(StepErr::Input(Fault::OutOfRange));
    }
    if names.has_no_room_for_all(prefix.bytes(), system.locs())? {
        return Err(StepErr::Input(Fault::TooManyNames));
    }
    match run(alloc, system, delay as u32, steps) {
        Ok(sets) => Ok(sets),
        Err(cause) => Err(StepErr::from(cause)),
    }
}
