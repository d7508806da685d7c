//! Loops.
ghost use Rattle.std.specs.Prelude.{◌≡◌, ◌<◌, ◌≤◌, [], ◌++◌, ◌∷◌, length, slice_get, Some, OnOk};
ghost use Rattle.stored_systems.specs.PointSets.{AreClosed};
ghost use Rattle.poly_pair.specs.declared.topology.TheConstants.{MAX_DIM};
ghost use Rattle.loop_analysis.specs.Loops.{IsLoop, IsAssignment, with_assignment};

use cons_sys::ConsSys;
use poly_pair::MAX_DIM;
use row_core::Memory;
use std::alloc::Global;
use std::marker::Model;
use term_text::Frac;

/// A variable becomes the value of a fraction.
#[derive(Drop)]
pub struct Assignment {
    pub variable: usize,
    pub value: Frac,
}

/// A loop: where it starts, the guard under which its body is taken, and the assignments of
/// the body in order.
#[derive(Drop)]
pub struct Loop {
    start: ConsSys,
    guard: ConsSys,
    body: Vec<Assignment>,
}

impl Model for Loop {
    ghost use Rattle.loop_analysis.specs.Loops.{WhileLoop, IsLoop};

    ghost Value = { WhileLoop };

    ghost view = { λ l. record {
      dim = l.start.dim;
      start = l.start;
      guard = l.guard;
      body = l.body.items;
    } };

    ghost invariant = { λ l. IsLoop (record {
      dim = l.start.dim;
      start = l.start;
      guard = l.guard;
      body = l.body.items;
    }) };
}

impl Loop {
    /// A loop with an empty body.
    pub fn new(alloc: Global, start: ConsSys, guard: ConsSys) -> Loop
        requires narrow { start.dim ≤ MAX_DIM }
        requires same_dim { guard.dim ≡ start.dim }
        requires start { AreClosed start }
        requires guard { AreClosed guard }
        ensures { result ≡ record { dim = start.dim; start = start; guard = guard; body = [] } }
    {
        Loop {
            start,
            guard,
            body: Vec::new(alloc),
        }
    }

    /// Appends an assignment to the body.
    pub fn push(&mut self, assignment: Assignment) -> Result<(), Memory>
        requires { IsAssignment self.old.dim assignment }
        ensures { OnOk result (self.new ≡ with_assignment self.old assignment) }
    {
        self.body.push(assignment)?;
        Ok(())
    }

    /// The number of variables of a state.
    pub fn dim(&self) -> usize
        ensures value { result ≡ self.now.dim }
        ensures kept { IsLoop self.now }
    {
        self.start.dim()
    }

    /// Lends the constraints of the start.
    pub fn start(&self) -> &ConsSys
        ensures value { result.now ≡ self.now.start }
        ensures kept { IsLoop self.now }
    {
        &self.start
    }

    /// Lends the constraints of the guard.
    pub fn guard(&self) -> &ConsSys
        ensures value { result.now ≡ self.now.guard }
        ensures kept { IsLoop self.now }
    {
        &self.guard
    }

    /// The number of assignments.
    pub fn len(&self) -> usize
        ensures { result ≡ length self.now.body }
    {
        self.body.len()
    }

    /// Lends an assignment.
    #[tactic(auto, using(crate::proofs::RunLemmas::fits_at))]
    pub fn assignment(&self, index: usize) -> &Assignment
        requires { index < length self.now.body }
        ensures value { slice_get self.now.body index ≡ Some result.now }
        ensures fits { IsAssignment self.now.dim result.now }
    {
        &self.body[index]
    }
}
