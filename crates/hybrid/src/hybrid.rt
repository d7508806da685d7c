//! Linear hybrid automata.
ghost use Rattle.std.specs.Prelude.{◌≡◌, ◌<◌, ◌≤◌, length, slice_get, Some, All, IfOk};
ghost use Rattle.poly_pair.specs.declared.topology.Topology.TheVariants.{Closed};
ghost use Rattle.poly_pair.specs.declared.topology.TheConstants.{MAX_DIM};
ghost use Rattle.poly_pair.specs.Polyhedra.{IsEmpty, IsUniverse};
ghost use Rattle.poly_pair.specs.ClosedPolyhedra.{IsClosedOver};
ghost use Rattle.hybrid.specs.Systems.{IsKeptHybrid, with_invariant, with_flow};

use poly_pair::{Poly, Topology};
use row_core::Memory;
use std::alloc::Global;
use std::marker::Model;
use trans_sys::{System, empty_sets};

/// A linear hybrid automaton: a transition system, and for each location an invariant, the states
/// in which it may stay, and a flow, the velocities with which its state moves there. All are
/// closed polyhedra.
pub struct Hybrid {
    system: System,
    invariants: Vec<Poly>,
    flows: Vec<Poly>,
}

// Written by hand, so that a function that drops an automaton makes one call.
impl Drop for Hybrid {
    fn drop(self) {
        let Self {
            system: _,
            invariants: _,
            flows: _,
        } = self;
    }
}

impl Model for Hybrid {
    ghost use Rattle.hybrid.specs.Systems.{HybridAutomaton, IsKeptHybrid};

    ghost Value = { HybridAutomaton };

    ghost view = { λ h.
        record { system = h.system; invariants = h.invariants.items; flows = h.flows.items } };

    ghost invariant = { λ h. IsKeptHybrid
        (record { system = h.system; invariants = h.invariants.items; flows = h.flows.items }) };
}

/// So many closed universes of a dimension.
fn universes(alloc: Global, dim: usize, count: usize) -> Result<Vec<Poly>, Memory>
    requires { dim ≤ MAX_DIM }
    ensures count { IfOk result (λ sets. length sets.items ≡ count) }
    ensures universe { IfOk result (λ sets. All (IsUniverse Closed dim) sets.items) }
    ensures closed { IfOk result (λ sets. All (IsClosedOver dim) sets.items) }
{
    let mut sets = Vec::new(alloc);
    for _ in 0..count {
        let set = Poly::universe(alloc, Topology::Closed, dim)?;
        let _kept = set.dim();
        sets.push(set)?;
    }
    Ok(sets)
}

impl Hybrid {
    /// The automaton of the system with the universe as each invariant and empty flows, so that no
    /// time passes. Out of memory, the system is dropped.
    pub fn new(alloc: Global, system: System) -> Result<Hybrid, Memory>
        ensures system { IfOk result (λ h. h.system ≡ system) }
        ensures invariants { IfOk result (λ h. All (IsUniverse Closed system.dim) h.invariants) }
        ensures invariant_count { IfOk result (λ h. length h.invariants ≡ length system.initial) }
        ensures flows { IfOk result (λ h. All (IsEmpty Closed system.dim) h.flows) }
        ensures flow_count { IfOk result (λ h. length h.flows ≡ length system.initial) }
    {
        let invariants = universes(alloc, system.dim(), system.locs())?;
        let flows = empty_sets(alloc, system.dim(), system.locs())?;
        Ok(Hybrid {
            system,
            invariants,
            flows,
        })
    }

    /// Lends the transition system.
    #[inline]
    pub fn system(&self) -> &System
        ensures value { result.now ≡ self.now.system }
        ensures kept { IsKeptHybrid self.now }
    {
        &self.system
    }

    /// Lends the invariant of a location.
    #[inline]
    pub fn inv(&self, location: usize) -> &Poly
        requires { location < length self.now.invariants }
        ensures value { slice_get self.now.invariants location ≡ Some result.now }
        ensures kept { IsKeptHybrid self.now }
    {
        &self.invariants[location]
    }

    /// Lends the flow of a location.
    #[inline]
    pub fn flow(&self, location: usize) -> &Poly
        requires { location < length self.now.flows }
        ensures value { slice_get self.now.flows location ≡ Some result.now }
        ensures kept { IsKeptHybrid self.now }
    {
        &self.flows[location]
    }

    /// Replaces the invariant of a location.
    pub fn set_inv(&mut self, location: usize, p: Poly)
        requires location { location < length self.old.system.initial }
        requires closed { p.topology ≡ Closed }
        requires dim { p.cons.dim ≡ self.old.system.dim }
        ensures { self.new ≡ with_invariant self.old location p }
    {
        let _kept = p.dim();
        self.invariants[location] = p;
    }

    /// Replaces the flow of a location.
    pub fn set_flow(&mut self, location: usize, p: Poly)
        requires location { location < length self.old.system.initial }
        requires closed { p.topology ≡ Closed }
        requires dim { p.cons.dim ≡ self.old.system.dim }
        ensures { self.new ≡ with_flow self.old location p }
    {
        let _kept = p.dim();
        self.flows[location] = p;
    }
}
