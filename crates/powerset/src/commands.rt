//! The commands that make and combine powersets, and those that ask about them.
ghost use Rattle.std.specs.Prelude.{◌≡◌, IfOk, IfErr};
ghost use Rattle.std.specs.Option.{option_copied};
ghost use Rattle.row_core.specs.Refusals.{IsOverflowIn};
ghost use Rattle.line_values.specs.Meaning.{on_one, on_two};
ghost use Rattle.powerset.specs.Commands.{pset as make_pset, of_two_powersets as make_of_two, member as make_member, psize as tell_size, covers as ask_covers, IsPowersetOf, LeavesInPowersets, members_text};
ghost use Rattle.line_values.specs.Performed.{IsPerformed};

use crate::covering::{self, Cover};
use crate::joining::{join, pmeet};
use crate::powersets::Powerset;
use line_values::{StepErr, answer, as_line, no_with_point};
use poly_pair::Poly;
use reply_text::{Fault, Text};
use row_core::{ConvErr, Memory, Steps};
use script_text::PowersetOperator;
use std::alloc::Global;
use std::sync::ledger::Ledger;

/// The powerset of the one polyhedron.
pub fn pset(alloc: Global, p: Option<&Poly>, full: bool) -> Result<Powerset, StepErr>
    ensures { IsPerformed (on_one (option_copied p.entry) (make_pset full)) result }
{
    let Some(p) = p else {
        return Err(StepErr::Input(Fault::UnknownName));
    };
    if full {
        return Err(StepErr::Input(Fault::TooManyNames));
    }
    Ok(Powerset::of(alloc, p)?)
}

/// The union of two powersets, or their common points.
fn combined<L: Ledger>(
    alloc: Global,
    op: PowersetOperator,
    s: &Powerset,
    t: &Powerset,
    steps: &mut Steps<L>,
) -> Result<Powerset, ConvErr>
    requires topology { s.now.topology ≡ t.now.topology }
    requires dim { s.now.dim ≡ t.now.dim }
    ensures made { IfOk result (IsPowersetOf op s.now t.now) }
    ensures overflow { IfErr result (IsOverflowIn (LeavesInPowersets op s.now t.now)) }
{
    match op {
        PowersetOperator::Join => join(alloc, s, t),
        PowersetOperator::Meet => pmeet(alloc, s, t, steps),
    }
}

/// The powerset that the operator makes of two.
pub fn of_two_powersets<L: Ledger>(
    alloc: Global,
    op: PowersetOperator,
    s: Option<&Powerset>,
    t: Option<&Powerset>,
    full: bool,
    steps: &mut Steps<L>,
) -> Result<Powerset, StepErr>
    ensures { IsPerformed (on_two (option_copied s.entry) (option_copied t.entry)
        (make_of_two op full)) result }
{
    let Some(s) = s else {
        return Err(StepErr::Input(Fault::UnknownName));
    };
    let Some(t) = t else {
        return Err(StepErr::Input(Fault::UnknownName));
    };
    if s.topology() != t.topology() {
        return Err(StepErr::Input(Fault::TopologyMismatch));
    }
    if s.dim() != t.dim() {
        return Err(StepErr::Input(Fault::DimMismatch));
    }
    if full {
        return Err(StepErr::Input(Fault::TooManyNames));
    }
    match combined(alloc, op, s, t, steps) {
        Ok(made) => Ok(made),
        Err(cause) => Err(StepErr::from(cause)),
    }
}

/// The member with this number, counted from 1.
pub fn member(s: Option<&Powerset>, i: u64, full: bool) -> Result<Poly, StepErr>
    ensures { IsPerformed (on_one (option_copied s.entry) (make_member full i)) result }
{
    let Some(s) = s else {
        return Err(StepErr::Input(Fault::UnknownName));
    };
    if i == 0 || i > s.len() as u64 {
        return Err(StepErr::Input(Fault::OutOfRange));
    }
    if full {
        return Err(StepErr::Input(Fault::TooManyNames));
    }
    let index = (i - 1) as usize;
    Ok(s.member(index).try_copy()?)
}

/// The number of members.
pub fn psize(alloc: Global, s: Option<&Powerset>) -> Result<Text, StepErr>
    ensures { IsPerformed (on_one (option_copied s.entry) tell_size) result }
{
    let Some(s) = s else {
        return Err(StepErr::Input(Fault::UnknownName));
    };
    Ok(as_line(members(alloc, s)?)?)
}

fn members(alloc: Global, s: &Powerset) -> Result<Text, Memory>
    ensures { IfOk result (λ text. text ≡ members_text s.now) }
{
    let mut text = Text::new(alloc);
    text.push(b"members ")?;
    text.push_unsigned(s.len() as u64)?;
    Ok(text)
}

/// Whether each point of the second is in the first; where one isn't, such a point.
pub fn covers<L: Ledger>(
    alloc: Global,
    s: Option<&Powerset>,
    t: Option<&Powerset>,
    steps: &mut Steps<L>,
) -> Result<Text, StepErr>
    ensures { IsPerformed (on_two (option_copied s.entry) (option_copied t.entry) ask_covers)
        result }
{
    let Some(s) = s else {
        return Err(StepErr::Input(Fault::UnknownName));
    };
    let Some(t) = t else {
        return Err(StepErr::Input(Fault::UnknownName));
    };
    if s.topology() != t.topology() {
        return Err(StepErr::Input(Fault::TopologyMismatch));
    }
    let dim = s.dim();
    if dim != t.dim() {
        return Err(StepErr::Input(Fault::DimMismatch));
    }
    match covering::covers(alloc, s, t, steps) {
        Ok(Cover::Yes) => answer(alloc, true),
        Ok(Cover::No(point)) => Ok(no_with_point(alloc, dim, point)?),
        Err(cause) => Err(StepErr::from(cause)),
    }
}
