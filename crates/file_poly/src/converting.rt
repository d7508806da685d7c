//! The conversion of a list into a file of the other kind.
ghost use Rattle.std.specs.Prelude.{◌-◌, ◌≤◌, IfOk, IfErr};
ghost use Rattle.stored_systems.specs.PointSets.{AreClosed, AreClosedKinds};
ghost use Rattle.poly_pair.specs.FirstLists.{LacksPoint};
ghost use Rattle.poly_pair.specs.declared.topology.TheConstants.{MAX_DIM};
ghost use Rattle.file_poly.specs.Files.{IsFit, IsOtherFileOf, IsOverflowOnFirst, IsCountedOnFirst, IsCountedBeforeFirst};
ghost use Rattle.file_poly.specs.declared.listed.Listed.TheVariants;

use crate::listed::Listed;
use crate::other_system::{constraints_alone, generators_alone};
use cdd_text::{constraints_are_read_back, generators_are_read_back, write_ext, write_ine};
use cons_sys::ConsSys;
use gens_sys::GensSys;
use poly_pair::laws::{kept_is_empty, kept_is_pair};
use reply_text::Text;
use row_core::{ConvErr, Steps};
use std::alloc::Global;
use std::sync::ledger::Ledger;
use stored_systems::stored_laws::stored_is_closed;

impl Listed {
    /// The file of the other system of the list's closed polyhedron: of the generators where the
    /// list has constraints, and of the constraints where it has generators. Only that system is
    /// made.
    ///
    /// # Errors
    ///
    /// An overflow is one of the conversion of the constraint list or the generator list.
    pub fn other_file<L: Ledger>(
        &self,
        alloc: Global,
        steps: &mut Steps<L>,
    ) -> Result<Text, ConvErr>
        requires { IsFit self.now }
        ensures file { IfOk result (IsOtherFileOf self.now) }
        ensures overflow { IfErr result (IsOverflowOnFirst self.now) }
        ensures no_fewer { steps.old ≤ steps.new }
        ensures counted { IsCountedOnFirst self.now (steps.new - steps.old) }
        ensures counted_before { IfErr result
            (IsCountedBeforeFirst self.now (steps.new - steps.old)) }
    {
        match self {
            Listed::Cons(cons) => generators_file(alloc, cons, steps),
            Listed::Gens(gens) => constraints_file(alloc, gens, steps),
        }
    }
}

// The file of the generators of a constraint list's polyhedron.
fn generators_file<L: Ledger>(
    alloc: Global,
    cons: &ConsSys,
    steps: &mut Steps<L>,
) -> Result<Text, ConvErr>
    requires narrow { cons.now.dim ≤ MAX_DIM }
    requires closed { AreClosed cons.now }
    ensures file { IfOk result (IsOtherFileOf (TheVariants.Cons cons.now)) }
    ensures overflow { IfErr result (IsOverflowOnFirst (TheVariants.Cons cons.now)) }
    ensures no_fewer { steps.old ≤ steps.new }
    ensures counted { IsCountedOnFirst (TheVariants.Cons cons.now) (steps.new - steps.old) }
    ensures counted_before { IfErr result
        (IsCountedBeforeFirst (TheVariants.Cons cons.now) (steps.new - steps.old)) }
{
    stored_is_closed();
    kept_is_pair();
    kept_is_empty();
    generators_are_read_back();
    let gens = match generators_alone(alloc, cons, steps) {
        Ok(gens) => gens,
        Err(cause) => return Err(cause),
    };
    let _dim = gens.dim();
    let _rows = gens.len();
    Ok(write_ext(alloc, &gens)?)
}

// The file of the constraints of a generator list's polyhedron.
fn constraints_file<L: Ledger>(
    alloc: Global,
    gens: &GensSys,
    steps: &mut Steps<L>,
) -> Result<Text, ConvErr>
    requires narrow { gens.now.dim ≤ MAX_DIM }
    requires kinds { AreClosedKinds gens.now }
    requires point { ¬ (LacksPoint gens.now.list) }
    ensures file { IfOk result (IsOtherFileOf (TheVariants.Gens gens.now)) }
    ensures overflow { IfErr result (IsOverflowOnFirst (TheVariants.Gens gens.now)) }
    ensures no_fewer { steps.old ≤ steps.new }
    ensures counted { IsCountedOnFirst (TheVariants.Gens gens.now) (steps.new - steps.old) }
    ensures counted_before { IfErr result
        (IsCountedBeforeFirst (TheVariants.Gens gens.now) (steps.new - steps.old)) }
{
    stored_is_closed();
    constraints_are_read_back();
    let cons = match constraints_alone(alloc, gens, steps) {
        Ok(cons) => cons,
        Err(cause) => return Err(cause),
    };
    let _dim = cons.dim();
    let _rows = cons.len();
    Ok(write_ine(alloc, &cons)?)
}
