//! Transition systems.
ghost use Rattle.std.specs.Prelude.{◌≡◌, ◌*◌, ◌^◌, ◌<◌, ◌≤◌, [], length, slice_get, Some, All, IfOk, OnOk, OnErr};
ghost use Rattle.poly_pair.specs.declared.topology.Topology.TheVariants.{Closed};
ghost use Rattle.poly_pair.specs.declared.topology.TheConstants.{MAX_DIM};
ghost use Rattle.poly_pair.specs.Polyhedra.{IsEmpty};
ghost use Rattle.trans_sys.specs.declared.system.TheConstants.{MAX_LOCATIONS};
ghost use Rattle.poly_pair.specs.ClosedPolyhedra.{IsClosedOver};
ghost use Rattle.trans_sys.specs.Systems.{IsKeptSystem, with_initial, with_transition};

use crate::sets::empty_sets;
use crate::transition::Transition;
use poly_pair::{MAX_DIM, Poly, Topology};
use row_core::Memory;
use std::alloc::Global;
use std::marker::Model;

/// The largest number of locations of a system.
pub const MAX_LOCATIONS: usize = 100;

/// A transition system: locations with their initial states, and transitions between them. All sets
/// are closed polyhedra.
pub struct System {
    alloc: Global,
    dim: usize,
    initial: Vec<Poly>,
    transitions: Vec<Transition>,
}

// Written by hand, so that a function that drops a system makes one call.
impl Drop for System {
    fn drop(self) {
        let Self {
            alloc: _,
            dim: _,
            initial: _,
            transitions: _,
        } = self;
    }
}

impl Model for System {
    ghost use Rattle.trans_sys.specs.Systems.{TransitionSystem, IsKeptSystem};

    ghost Value = { TransitionSystem };

    ghost view = { λ s.
        record { dim = s.dim; initial = s.initial.items; transitions = s.transitions.items } };

    ghost invariant = { λ s. IsKeptSystem
        (record { dim = s.dim; initial = s.initial.items; transitions = s.transitions.items }) };
}

/// Copies of polyhedra.
fn copied_sets(alloc: Global, sets: &[Poly]) -> Result<Vec<Poly>, Memory>
    ensures { IfOk result (λ copies. copies.items ≡ sets.now) }
{
    let mut copies = Vec::new(alloc);
    for location in 0..sets.len() {
        copies.push(sets[location].try_copy()?)?;
    }
    Ok(copies)
}

/// Copies of transitions.
fn copied_transitions(alloc: Global, transitions: &[Transition]) -> Result<Vec<Transition>, Memory>
    ensures { IfOk result (λ copies. copies.items ≡ transitions.now) }
{
    let mut copies = Vec::new(alloc);
    for index in 0..transitions.len() {
        copies.push(transitions[index].try_copy()?)?;
    }
    Ok(copies)
}

impl System {
    /// A system in which no location has an initial state, without transitions.
    pub fn new(alloc: Global, dim: usize, locations: usize) -> Result<System, Memory>
        requires narrow { 2 * dim ≤ MAX_DIM }
        requires some { 0 < locations }
        requires few { locations ≤ MAX_LOCATIONS }
        ensures dim { IfOk result (λ s. s.dim ≡ dim) }
        ensures locations { IfOk result (λ s. length s.initial ≡ locations) }
        ensures initial { IfOk result (λ s. All (IsEmpty Closed dim) s.initial) }
        ensures transitions { IfOk result (λ s. s.transitions ≡ []) }
    {
        let initial = empty_sets(alloc, dim, locations)?;
        Ok(System {
            alloc,
            dim,
            initial,
            transitions: Vec::new(alloc),
        })
    }

    /// An equal system.
    pub fn try_copy(&self) -> Result<System, Memory>
        ensures { IfOk result (λ s. s ≡ self.now) }
    {
        let initial = copied_sets(self.alloc, &self.initial)?;
        let transitions = copied_transitions(self.alloc, &self.transitions)?;
        Ok(System {
            alloc: self.alloc,
            dim: self.dim,
            initial,
            transitions,
        })
    }

    /// Copies of the initial states of all locations.
    pub fn init_sets(&self) -> Result<Vec<Poly>, Memory>
        ensures value { IfOk result (λ sets. sets.items ≡ self.now.initial) }
        ensures kept { IsKeptSystem self.now }
    {
        copied_sets(self.alloc, &self.initial)
    }

    /// Replaces the initial states of a location.
    pub fn set_init(&mut self, location: usize, p: Poly)
        requires location { location < length self.old.initial }
        requires closed { p.topology ≡ Closed }
        requires dim { p.cons.dim ≡ self.old.dim }
        ensures { self.new ≡ with_initial self.old location p }
    {
        let _kept = p.dim();
        self.initial[location] = p;
    }

    /// Appends a transition. Out of memory, the system is as before, and the
    /// relation is dropped.
    pub fn push_trans(&mut self, from: usize, to: usize, relation: Poly) -> Result<(), Memory>
        requires source { from < length self.old.initial }
        requires target { to < length self.old.initial }
        requires closed { relation.topology ≡ Closed }
        requires dim { relation.cons.dim ≡ 2 * self.old.dim }
        ensures pushed { OnOk result
            (self.new ≡ with_transition self.old
            (record { source = from; target = to; relation = relation })) }
        ensures refused { OnErr result (self.new ≡ self.old) }
    {
        let _kept = relation.dim();
        self.transitions.push(Transition {
            source: from,
            target: to,
            relation,
        })?;
        Ok(())
    }

    /// The number of variables of a state.
    #[inline]
    pub fn dim(&self) -> usize
        ensures value { result ≡ self.now.dim }
        ensures kept { IsKeptSystem self.now }
    {
        self.dim
    }

    /// The number of locations.
    #[inline]
    pub fn locs(&self) -> usize
        ensures value { result ≡ length self.now.initial }
        ensures kept { IsKeptSystem self.now }
    {
        self.initial.len()
    }

    /// Lends the initial states of a location.
    #[inline]
    pub fn init(&self, location: usize) -> &Poly
        requires { location < length self.now.initial }
        ensures value { slice_get self.now.initial location ≡ Some result.now }
        ensures kept { IsKeptSystem self.now }
    {
        &self.initial[location]
    }

    /// The number of transitions.
    #[inline]
    pub fn trans_len(&self) -> usize
        ensures value { result ≡ length self.now.transitions }
        ensures few { result < 2 ^ 63 }
        ensures kept { IsKeptSystem self.now }
    {
        self.transitions.len()
    }

    /// Lends a transition.
    #[inline]
    pub fn trans(&self, index: usize) -> &Transition
        requires { index < length self.now.transitions }
        ensures value { slice_get self.now.transitions index ≡ Some result.now }
        ensures kept { IsKeptSystem self.now }
    {
        &self.transitions[index]
    }
}
