//! The generators of a closed set without its constraints, and its constraints without its
//! generators, by one conversion.
ghost use Rattle.std.specs.Prelude.{◌≡◌, ℕ, ◌+◌, ◌-◌, ◌^◌, ◌<◌, ◌≤◌, length, IfOk, IfErr};
ghost use Rattle.row_core.specs.Lists.{vectors};
ghost use Rattle.cone_laws.specs.Canon.{Canon};
ghost use Rattle.cone_laws.specs.Members.{ConeOf};
ghost use Rattle.row_core.specs.MarkedLists.{AreLists};
ghost use Rattle.chernikova.specs.Conversion.{IsRealOverflow, IsCountedUpto, IsCountedBefore};
ghost use Rattle.stored_systems.specs.PointSets.{AreClosed, AreClosedKinds};
ghost use Rattle.stored_systems.specs.WorkLists.{constraint_list, generator_list};
ghost use Rattle.poly_pair.specs.FirstLists.{LacksPoint};
ghost use Rattle.poly_pair.specs.declared.topology.TheConstants.{MAX_DIM};
ghost use Rattle.file_poly.specs.OtherSystems.{AreStoredGenerators, AreStoredConstraints};

use chernikova::{Cone, convert_in_better_order};
use cons_sys::ConsSys;
use gens_sys::GensSys;
use poly_pair::MAX_DIM;
use row_core::{ConvErr, Memory, Steps};
use std::alloc::Global;
use std::sync::ledger::Ledger;
use stored_systems::{
    constraint_list, false_constraints, generator_list, has_point, stored_constraints,
    stored_generators,
};

/// The generators that the closed polyhedron of the constraints stores. Its constraints aren't
/// made.
///
/// # Errors
///
/// An overflow is one of the conversion of the constraint list.
pub(crate) fn generators_alone<L: Ledger>(
    alloc: Global,
    cons: &ConsSys,
    steps: &mut Steps<L>,
) -> Result<GensSys, ConvErr>
    requires narrow { cons.now.dim ≤ MAX_DIM }
    requires closed { AreClosed cons.now }
    ensures stored { IfOk result (AreStoredGenerators cons.now) }
    ensures overflow { IfErr result (IsRealOverflow (cons.now.dim + 1) (constraint_list cons.now)) }
    ensures no_fewer { steps.old ≤ steps.new }
    ensures counted { IsCountedUpto (cons.now.dim + 1) (constraint_list cons.now)
        (length (constraint_list cons.now)) (steps.new - steps.old) }
    ensures counted_before { IfErr result
        (IsCountedBefore (cons.now.dim + 1) (constraint_list cons.now) (steps.new - steps.old)) }
{
    let made = {
        let system = constraint_system(alloc, cons, steps)?;
        generators_of_system(alloc, cons, system)
    };
    Ok(made?)
}

/// The constraints that the closed polyhedron of the generators stores. Its generators aren't made.
///
/// # Errors
///
/// An overflow is one of the conversion of the generator list.
pub(crate) fn constraints_alone<L: Ledger>(
    alloc: Global,
    gens: &GensSys,
    steps: &mut Steps<L>,
) -> Result<ConsSys, ConvErr>
    requires narrow { gens.now.dim ≤ MAX_DIM }
    requires kinds { AreClosedKinds gens.now }
    requires point { ¬ (LacksPoint gens.now.list) }
    ensures stored { IfOk result (AreStoredConstraints gens.now) }
    ensures overflow { IfErr result (IsRealOverflow (gens.now.dim + 1) (generator_list gens.now)) }
    ensures no_fewer { steps.old ≤ steps.new }
    ensures counted { IsCountedUpto (gens.now.dim + 1) (generator_list gens.now)
        (length (generator_list gens.now)) (steps.new - steps.old) }
    ensures counted_before { IfErr result
        (IsCountedBefore (gens.now.dim + 1) (generator_list gens.now) (steps.new - steps.old)) }
{
    if gens.is_empty() {
        return Ok(false_constraints(alloc, gens.dim())?);
    }
    let made = {
        let dim = gens.dim();
        let system = generator_system(alloc, gens, steps)?;
        let Cone {
            lines,
            rays,
            sat: _,
        } = system;
        stored_constraints(alloc, dim, lines, rays)
    };
    Ok(made?)
}

/// The generators that the closed polyhedron of the constraints stores, from the canonical system
/// of their list.
fn generators_of_system(alloc: Global, cons: &ConsSys, system: Cone) -> Result<GensSys, Memory>
    requires narrow { cons.now.dim ≤ MAX_DIM }
    requires closed { AreClosed cons.now }
    requires lists { AreLists (cons.now.dim + 1) system.lines system.rays }
    requires canon { Canon (ConeOf (cons.now.dim + 1) (constraint_list cons.now))
        (vectors system.lines.rows) (vectors system.rays.rows) }
    ensures { IfOk result (AreStoredGenerators cons.now) }
{
    let dim = cons.dim();
    if !has_point(dim, &system.rays) {
        return Ok(GensSys::new(alloc, dim));
    }
    let Cone {
        lines,
        rays,
        sat: _,
    } = system;
    stored_generators(alloc, dim, lines, rays)
}

/// The canonical system of the constraint list of a closed polyhedron.
fn constraint_system<L: Ledger>(
    alloc: Global,
    cons: &ConsSys,
    steps: &mut Steps<L>,
) -> Result<Cone, ConvErr>
    ensures canon { IfOk result
        (λ system. Canon (ConeOf (cons.now.dim + 1) (constraint_list cons.now))
        (vectors system.lines.rows) (vectors system.rays.rows)) }
    ensures lists { IfOk result (λ system. AreLists (cons.now.dim + 1) system.lines system.rays) }
    ensures overflow { IfErr result (IsRealOverflow (cons.now.dim + 1) (constraint_list cons.now)) }
    ensures no_fewer { steps.old ≤ steps.new }
    ensures counted { IsCountedUpto (cons.now.dim + 1) (constraint_list cons.now)
        (length (constraint_list cons.now)) (steps.new - steps.old) }
    ensures counted_before { IfErr result
        (IsCountedBefore (cons.now.dim + 1) (constraint_list cons.now) (steps.new - steps.old)) }
{
    let rows = constraint_list(alloc, cons)?;
    convert_in_better_order(alloc, rows.width(), &rows, steps)
}

/// The canonical system of the generator list of a closed polyhedron.
fn generator_system<L: Ledger>(
    alloc: Global,
    gens: &GensSys,
    steps: &mut Steps<L>,
) -> Result<Cone, ConvErr>
    ensures canon { IfOk result
        (λ system. Canon (ConeOf (gens.now.dim + 1) (generator_list gens.now))
        (vectors system.lines.rows) (vectors system.rays.rows)) }
    ensures lists { IfOk result (λ system. AreLists (gens.now.dim + 1) system.lines system.rays) }
    ensures overflow { IfErr result (IsRealOverflow (gens.now.dim + 1) (generator_list gens.now)) }
    ensures no_fewer { steps.old ≤ steps.new }
    ensures counted { IsCountedUpto (gens.now.dim + 1) (generator_list gens.now)
        (length (generator_list gens.now)) (steps.new - steps.old) }
    ensures counted_before { IfErr result
        (IsCountedBefore (gens.now.dim + 1) (generator_list gens.now) (steps.new - steps.old)) }
{
    let rows = generator_list(alloc, gens)?;
    convert_in_better_order(alloc, rows.width(), &rows, steps)
}
