//! Which systems a set meets, and where.
ghost use Rattle.std.specs.Prelude.{◌≡◌, ℕ, ◌+◌, ◌^◌, ◌<◌, ◌≤◌, length, All, IfOk, OnOk, MatchBool, MatchOption};
ghost use Rattle.cover_search.specs.Inequalities.{AreInequalities};
ghost use Rattle.cover_search.specs.Pieces.{LiesInSome};
ghost use Rattle.cover_search.specs.Regions.{LiesIn};
ghost use Rattle.cover_search.specs.Parts.{IsContact, IsMet, IsPlan, IsTaken};

use crate::region::Region;
use crate::walls::Walls;
use row_core::Memory;
use std::alloc::Global;

/// How a set is seen to lie to a system.
#[derive(Drop)]
pub(crate) enum Contact {
    /// It is within the system.
    Within,
    /// It has no point of it.
    Apart,
    /// So many inequalities are seen neither to hold on all of it nor to fail on all of it, and
    /// this is the last of them.
    Across { crossed: usize, last: usize },
}

/// A system that parts a set: so many of its inequalities are crossed, and this is the last of
/// them.
#[derive(Clone, Copy, Drop)]
pub(crate) struct Cut {
    pub(crate) system: usize,
    pub(crate) crossed: usize,
    pub(crate) last: usize,
}

/// The systems that a set may meet: the one that parts it next, and the others, which stay open.
#[derive(Drop)]
pub(crate) struct Plan {
    pub(crate) met: Vec<usize>,
    pub(crate) next: Option<Cut>,
}

/// How a set lies to a system.
pub(crate) fn contact_of(region: &Region, walls: &Walls) -> Contact
    requires dim { walls.now.dim ≡ region.now.dim }
    requires inequalities { AreInequalities walls.now }
    ensures { IsContact region.now walls.now result }
{
    let mut crossed = 0;
    let mut end = 0;
    for index in 0..walls.len() {
        if !region.is_inside(walls, index) {
            if region.is_outside(walls, index) {
                return Contact::Apart;
            }
            crossed += 1;
            end = index + 1;
        }
    }
    if end == 0 {
        return Contact::Within;
    }
    let last = end - 1;
    Contact::Across { crossed, last }
}

/// Puts a cut into a plan. The one that crosses fewer inequalities is the next.
fn take(plan: &mut Plan, cut: Cut) -> Result<(), Memory>
    ensures { OnOk result (IsTaken plan.old cut plan.new) }
{
    match plan.next {
        None => plan.next = Some(cut),
        Some(best) => {
            if cut.crossed < best.crossed {
                plan.next = Some(cut);
                plan.met.push(best.system)?;
            } else {
                plan.met.push(cut.system)?;
            }
        }
    }
    Ok(())
}

/// Puts a system into a plan, if the set may meet it. Whether the set is seen to lie in it.
fn meet(region: &Region, walls: &Walls, system: usize, plan: &mut Plan) -> Result<bool, Memory>
    requires dim { walls.now.dim ≡ region.now.dim }
    requires inequalities { AreInequalities walls.now }
    ensures { IfOk result
        (λ within. MatchBool within (LiesIn region.now walls.now)
        (IsMet region.now walls.now system plan.old plan.new)) }
{
    match contact_of(region, walls) {
        Contact::Within => Ok(true),
        Contact::Apart => Ok(false),
        Contact::Across { crossed, last } => {
            let cut = Cut {
                system,
                crossed,
                last,
            };
            take(plan, cut)?;
            Ok(false)
        }
    }
}

/// Which of the systems with these numbers a set may meet. There is no plan where it is seen to lie
/// in one of them.
pub(crate) fn plan_of(
    alloc: Global,
    systems: &[Walls],
    region: &Region,
    numbers: &[usize],
) -> Result<Option<Plan>, Memory>
    requires dims { All (λ rows. rows.dim ≡ region.now.dim) systems.now }
    requires inequalities { All AreInequalities systems.now }
    requires below { All (λ i. i < length systems.now) numbers.now }
    ensures { IfOk result
        (λ found. MatchOption found (LiesInSome systems.now region.now)
        (IsPlan systems.now region.now numbers.now (length numbers.now))) }
{
    let mut plan = Plan {
        met: Vec::new(alloc),
        next: None,
    };
    for place in 0..numbers.len() {
        let system = numbers[place];
        let within = meet(region, &systems[system], system, &mut plan)?;
        if within {
            return Ok(None);
        }
    }
    Ok(Some(plan))
}
