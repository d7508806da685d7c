//! The commands that change a part of a transition system or of a hybrid automaton: whether they
//! may.
ghost use Rattle.std.specs.Prelude.{◌≡◌, ℕ, ◌<◌, ◌≤◌, List, IfOk};
ghost use Rattle.std.specs.Option.{option_copied};
ghost use Rattle.line_values.specs.Meaning.{on_one};
ghost use Rattle.calc_state.specs.Parts.{as_part, init, trans, set_part};
ghost use Rattle.line_values.specs.Performed.{IsPerformed};
ghost use Rattle.calc_state.specs.Changes.{as_entry, IsTested};
ghost use Rattle.calc_state.specs.declared.entry.Entry.TheVariants as entry;

use crate::parts::PartChange;
use hybrid::{Hybrid, HybridChange};
use line_values::StepErr;
use poly_pair::{Poly, Topology};
use reply_text::Fault;
use script_text::LocationPart;
use trans_sys::{System, SystemChange};

/// A copy of a closed polyhedron of this dimension, where the location is one of so many.
fn copied_part(
    p: Option<&Poly>,
    dim: usize,
    location: u64,
    locations: usize,
) -> Result<Poly, StepErr>
    ensures part { IsPerformed
        (on_one (option_copied p.entry) (as_part dim (locations ≤ location))) result }
    ensures fits { IfOk result (λ copy. (copy.topology ≡ Topology.Closed)
        × (copy.cons.dim ≡ dim) × (location < locations)) }
{
    let Some(p) = p else {
        return Err(StepErr::Input(Fault::UnknownName));
    };
    if p.topology() != Topology::Closed {
        return Err(StepErr::Input(Fault::NotClosed));
    }
    if p.dim() != dim {
        return Err(StepErr::Input(Fault::DimMismatch));
    }
    if location >= locations as u64 {
        return Err(StepErr::Input(Fault::OutOfRange));
    }
    p.try_copy().map_err(StepErr::from)
}

/// Replaces the initial states of a location by those of a polyhedron.
pub fn replaced_initial(
    system: Option<&System>,
    location: u64,
    p: Option<&Poly>,
) -> Result<PartChange, StepErr>
    ensures { (name : List ℕ) → IsTested
        (on_one (option_copied system.entry)
        (λ s. on_one (option_copied p.entry) (init name location s)))
        (as_entry entry.System (option_copied system.entry)) name result }
{
    let Some(system) = system else {
        return Err(StepErr::Input(Fault::UnknownName));
    };
    match copied_part(p, system.dim(), location, system.locs()) {
        Ok(copy) => Ok(PartChange::System(SystemChange::Initial(location as usize, copy))),
        Err(cause) => Err(cause),
    }
}

/// Appends a transition between two locations, whose relation is a polyhedron.
pub fn added_transition(
    system: Option<&System>,
    source: u64,
    target: u64,
    relation: Option<&Poly>,
) -> Result<PartChange, StepErr>
    ensures { (name : List ℕ) → IsTested
        (on_one (option_copied system.entry)
        (λ s. on_one (option_copied relation.entry) (trans name source target s)))
        (as_entry entry.System (option_copied system.entry)) name result }
{
    let Some(system) = system else {
        return Err(StepErr::Input(Fault::UnknownName));
    };
    let last = source.max(target);
    match copied_part(relation, 2 * system.dim(), last, system.locs()) {
        Ok(copy) => {
            let change = SystemChange::Transition(source as usize, target as usize, copy);
            Ok(PartChange::System(change))
        }
        Err(cause) => Err(cause),
    }
}

/// Replaces the invariant or the flow of a location by a polyhedron.
pub fn replaced_part(
    part: LocationPart,
    h: Option<&Hybrid>,
    location: u64,
    p: Option<&Poly>,
) -> Result<PartChange, StepErr>
    ensures { (name : List ℕ) → IsTested
        (on_one (option_copied h.entry)
        (λ found. on_one (option_copied p.entry) (set_part part name location found)))
        (as_entry entry.Hybrid (option_copied h.entry)) name result }
{
    let Some(h) = h else {
        return Err(StepErr::Input(Fault::UnknownName));
    };
    let copy = match copied_part(p, h.system().dim(), location, h.system().locs()) {
        Ok(copy) => copy,
        Err(cause) => return Err(cause),
    };
    let location = location as usize;
    match part {
        LocationPart::Invariant => Ok(PartChange::Hybrid(HybridChange::Invariant(location, copy))),
        LocationPart::Flow => Ok(PartChange::Hybrid(HybridChange::Flow(location, copy))),
    }
}
