//! Parts of a set, and how a system parts one of them.
ghost use Rattle.std.specs.Prelude.{◌≡◌, ◌+◌, ◌<◌, ◌≤◌, length, None, IfErr, IfOk, MatchOption, OnOk, All};
ghost use Rattle.cover_search.specs.Inequalities.{AreInequalities, complement};
ghost use Rattle.cover_search.specs.Parts.{HoldFrom, IsPushed, IsLeft, IsParted, IsCutOf, IsCutBy, IsNext, IsFollowed, IsPart, IsSettled, IsMissed};
ghost use Rattle.cons_sys.specs.Constraints.{constraint_at};
ghost use Rattle.poly_pair.specs.Work.{conv_overflow, overflow_in};
ghost use Rattle.cover_search.specs.Regions.{IsPointIn};
ghost use Rattle.cover_search.specs.Conversions.{ConvertsNext, ConvertsRest, ConvertsParting, ConvertsCut, ConvertsPart};

use crate::contacts::{Cut, Plan, plan_of};
use crate::region::Region;
use crate::walls::Walls;
use row_core::{ConvErr, RowBuf, Steps};
use std::alloc::Global;
use std::sync::ledger::Ledger;

/// A part of a set that is left to be covered, with the numbers of the systems that it may meet.
#[derive(Drop)]
pub(crate) struct Part {
    pub(crate) region: Region,
    pub(crate) met: Vec<usize>,
}

/// Appends the part of a set on which an inequality of the system doesn't hold.
fn push_outside<L: Ledger>(
    walls: &Walls,
    index: usize,
    region: Region,
    numbers: &[usize],
    pending: &mut Vec<Part>,
    steps: &mut Steps<L>,
) -> Result<(), ConvErr>
    requires dim { walls.now.dim ≡ region.dim }
    requires index { index < length walls.now.list }
    ensures part { OnOk result
        (IsPushed walls.now index region numbers.now pending.old.items pending.new.items) }
    ensures conversion { let c = complement (constraint_at walls.now.list index) in
        ConvertsNext region c steps.old steps.new result }
{
    let alloc = region.allocator();
    let region = region.outside(walls, index, steps)?;
    let met = Vec::from_slice(alloc, numbers)?;
    pending.push(Part { region, met })?;
    Ok(())
}

/// What is left of a set behind an inequality of the system: all of it where that is seen to hold
/// on it. Else the part on which it doesn't hold is appended, and the other is left.
fn rest_of<L: Ledger>(
    walls: &Walls,
    index: usize,
    region: Region,
    numbers: &[usize],
    pending: &mut Vec<Part>,
    steps: &mut Steps<L>,
) -> Result<Region, ConvErr>
    requires dim { walls.now.dim ≡ region.dim }
    requires index { index < length walls.now.list }
    requires inequalities { AreInequalities walls.now }
    ensures rest { IfOk result
        (IsLeft walls.now index region numbers.now pending.old.items pending.new.items) }
    ensures conversion { let before = pending.old.items in let after = pending.new.items in
        let met = numbers.now in
        ConvertsRest walls.now index region met before after steps.old steps.new result }
{
    if region.is_inside(walls, index) {
        return Ok(region);
    }
    let copy = region.copied()?;
    push_outside(walls, index, copy, numbers, pending, steps)?;
    region.inside(walls, index, steps)
}

/// Appends the parts of a set outside of the system, whose inequalities behind number `last` hold
/// on the set.
fn part_by<L: Ledger>(
    walls: &Walls,
    last: usize,
    region: Region,
    numbers: &[usize],
    pending: &mut Vec<Part>,
    steps: &mut Steps<L>,
) -> Result<(), ConvErr>
    requires dim { walls.now.dim ≡ region.dim }
    requires last { last < length walls.now.list }
    requires behind { HoldFrom region walls.now (last + 1) }
    requires inequalities { AreInequalities walls.now }
    ensures parts { OnOk result
        (IsParted walls.now region numbers.now pending.old.items pending.new.items) }
    ensures conversion { let before = pending.old.items in let after = pending.new.items in
        let met = numbers.now in
        ConvertsParting walls.now last region met before after steps.old steps.new result }
{
    let mut rest = region;
    for index in 0..last {
        rest = rest_of(walls, index, rest, numbers, pending, steps)?;
    }
    push_outside(walls, last, rest, numbers, pending, steps)?;
    Ok(())
}

/// Appends the parts of a set outside of the system of a cut.
fn cut_by<L: Ledger>(
    systems: &[Walls],
    cut: Cut,
    region: Region,
    numbers: &[usize],
    pending: &mut Vec<Part>,
    steps: &mut Steps<L>,
) -> Result<(), ConvErr>
    requires dims { All (λ rows. rows.dim ≡ region.dim) systems.now }
    requires inequalities { All AreInequalities systems.now }
    requires system { cut.system < length systems.now }
    requires cut { IsCutOf systems.now region cut }
    ensures parts { OnOk result
        (IsCutBy systems.now cut region numbers.now pending.old.items pending.new.items) }
    ensures conversion { let before = pending.old.items in let after = pending.new.items in
        let met = numbers.now in
        ConvertsCut systems.now cut region met before after steps.old steps.new result }
{
    let walls = &systems[cut.system];
    part_by(walls, cut.last, region, numbers, pending, steps)?;
    Ok(())
}

/// Follows a plan: appends the parts outside of the system that comes next. Without one the point
/// is given.
#[tactic(auto, using(crate::proofs::PartLemmas::next_cut, crate::proofs::PartLemmas::next_below))]
fn follow<L: Ledger>(
    systems: &[Walls],
    plan: Plan,
    region: Region,
    point: RowBuf,
    pending: &mut Vec<Part>,
    steps: &mut Steps<L>,
) -> Result<Option<RowBuf>, ConvErr>
    requires dims { All (λ rows. rows.dim ≡ region.dim) systems.now }
    requires inequalities { All AreInequalities systems.now }
    requires next { IsNext systems.now region plan.met.items plan.next }
    ensures followed { IfOk result
        (IsFollowed systems.now plan region point pending.old.items pending.new.items) }
    ensures conversion { let before = pending.old.items in let after = pending.new.items in
        let met = plan.met.items in
        MatchOption plan.next
        ((steps.new ≡ steps.old) × (overflow_in conv_overflow result ≡ None))
        (λ cut. ConvertsCut systems.now cut region met before after steps.old steps.new result) }
{
    match plan.next {
        None => Ok(Some(point)),
        Some(cut) => {
            cut_by(systems, cut, region, &plan.met, pending, steps)?;
            Ok(None)
        }
    }
}

/// Takes a part that has a point: gives it where the part meets no system, and else its parts
/// outside of the one that it crosses least, behind those that are pending. A part that is seen to
/// lie in one system has none.
fn settle_at<L: Ledger>(
    alloc: Global,
    systems: &[Walls],
    part: Part,
    point: RowBuf,
    pending: &mut Vec<Part>,
    steps: &mut Steps<L>,
) -> Result<Option<RowBuf>, ConvErr>
    requires dims { All (λ rows. rows.dim ≡ part.region.dim) systems.now }
    requires inequalities { All AreInequalities systems.now }
    requires part { IsPart part.region systems.now part }
    requires point { IsPointIn part.region point }
    ensures settled { IfOk result
        (λ found. MatchOption found (IsSettled systems.now part pending.old.items pending.new.items)
        (IsMissed systems.now part.region)) }
    ensures conversion { let before = pending.old.items in
        ConvertsPart systems.now part before pending.new.items steps.old steps.new result }
{
    let planned = plan_of(alloc, systems, &part.region, &part.met)?;
    match planned {
        None => Ok(None),
        Some(plan) => {
            let found = follow(systems, plan, part.region, point, pending, steps)?;
            Ok(found)
        }
    }
}

/// Takes a part: gives a point of it that no system has, or appends parts of it. A part without a
/// point has none.
pub(crate) fn settle<L: Ledger>(
    alloc: Global,
    systems: &[Walls],
    part: Part,
    pending: &mut Vec<Part>,
    steps: &mut Steps<L>,
) -> Result<Option<RowBuf>, ConvErr>
    requires dims { All (λ rows. rows.dim ≡ part.region.dim) systems.now }
    requires inequalities { All AreInequalities systems.now }
    requires part { IsPart part.region systems.now part }
    ensures settled { IfOk result
        (λ found. MatchOption found (IsSettled systems.now part pending.old.items pending.new.items)
        (IsMissed systems.now part.region)) }
    ensures conversion { let before = pending.old.items in
        ConvertsPart systems.now part before pending.new.items steps.old steps.new result }
{
    let seen = part.region.point()?;
    match seen {
        None => Ok(None),
        Some(point) => settle_at(alloc, systems, part, point, pending, steps),
    }
}
