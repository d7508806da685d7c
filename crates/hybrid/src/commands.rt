//! The command that makes linear hybrid automata, and the one that runs them.
ghost use Rattle.std.specs.Option.{option_copied};
ghost use Rattle.line_values.specs.Meaning.{on_one};
ghost use Rattle.hybrid.specs.Commands.{hybrid as make_hybrid, reach as run_hybrid};
ghost use Rattle.line_values.specs.Effects.{all_placed};
ghost use Rattle.line_values.specs.Performed.{IsPerformed};

use crate::hybrid::Hybrid;
use crate::reaches;
use line_values::StepErr;
use name_table::Names;
use poly_pair::Poly;
use reply_text::{Fault, Text};
use row_core::Steps;
use std::alloc::Global;
use std::sync::ledger::Ledger;
use trans_sys::{System, is_too_long};

/// The automaton of a transition system in which no time passes.
pub fn hybrid(alloc: Global, s: Option<&System>, full: bool) -> Result<Hybrid, StepErr>
    ensures { IsPerformed (on_one (option_copied s.entry) (make_hybrid full)) result }
{
    let Some(s) = s else {
        return Err(StepErr::Input(Fault::UnknownName));
    };
    if full {
        return Err(StepErr::Input(Fault::TooManyNames));
    }
    let made = Hybrid::new(alloc, s.try_copy()?)?;
    let _kept = made.system();
    Ok(made)
}

/// The states of each location that the automaton may come to, where there is room for their
/// numbered names.
pub fn reach<E: Drop, L: Ledger>(
    alloc: Global,
    names: &Names<E>,
    h: Option<&Hybrid>,
    delay: u64,
    prefix: &Text,
    steps: &mut Steps<L>,
) -> Result<Vec<Poly>, StepErr>
    ensures { IsPerformed (on_one (option_copied h.entry) (run_hybrid names.now delay prefix.now))
        (all_placed prefix.now result) }
{
    let Some(h) = h else {
        return Err(StepErr::Input(Fault::UnknownName));
    };
    if is_too_long(delay) {
        return Err(StepErr::Input(Fault::OutOfRange));
    }
    if names.has_no_room_for_all(prefix.bytes(), h.system().locs())? {
        return Err(StepErr::Input(Fault::TooManyNames));
    }
    match reaches::reach(alloc, h, delay as u32, steps) {
        Ok(sets) => Ok(sets),
        Err(cause) => Err(StepErr::from(cause)),
    }
}
