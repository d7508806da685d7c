//! The list of a file, and its polyhedron.
ghost use Rattle.std.specs.Prelude.{◌≡◌, ◌-◌, ◌≤◌, IfOk, IfErr};
ghost use Rattle.poly_pair.specs.declared.topology.Topology.TheVariants.{Closed};
ghost use Rattle.file_poly.specs.Files.{IsFit, IsOfList, IsOverflowOnList, IsCountedOnList, IsCountedBeforeOnList};

use cons_sys::ConsSys;
use gens_sys::GensSys;
use poly_pair::{Poly, Topology};
use row_core::{ConvErr, Steps};
use std::alloc::Global;
use std::sync::ledger::Ledger;

/// The list of a file.
#[derive(Debug, Drop)]
pub enum Listed {
    /// Constraints.
    Cons(ConsSys),
    /// Generators.
    Gens(GensSys),
}

impl Listed {
    /// The closed polyhedron of the list.
    ///
    /// # Errors
    ///
    /// An overflow is one of the conversion of the constraint list or the generator list, or of its
    /// second list.
    pub fn polyhedron<L: Ledger>(
        &self,
        alloc: Global,
        steps: &mut Steps<L>,
    ) -> Result<Poly, ConvErr>
        requires { IsFit self.now }
        ensures set { IfOk result (IsOfList self.now) }
        ensures closed { IfOk result (λ p. p.topology ≡ Closed) }
        ensures overflow { IfErr result (IsOverflowOnList self.now) }
        ensures no_fewer { steps.old ≤ steps.new }
        ensures counted { IsCountedOnList self.now (steps.new - steps.old) }
        ensures counted_before { IfErr result
            (IsCountedBeforeOnList self.now (steps.new - steps.old)) }
    {
        match self {
            Listed::Cons(cons) => Poly::from_cons(alloc, Topology::Closed, cons, steps),
            Listed::Gens(gens) => Poly::from_gens_with_point(alloc, Topology::Closed, gens, steps),
        }
    }
}
