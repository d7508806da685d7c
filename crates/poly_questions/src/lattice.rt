//! The commands that ask how two polyhedra lie.
ghost use Rattle.std.specs.Prelude.{◌≡◌};
ghost use Rattle.std.specs.Option.{option_copied};
ghost use Rattle.line_values.specs.Meaning.{on_two};
ghost use Rattle.poly_questions.specs.Lattice.{compared, contains as ask_contains, equal as ask_equal, disjoint as ask_disjoint};
ghost use Rattle.line_values.specs.Performed.{IsPerformed};

use line_values::{StepErr, answer, refusal_of_pair};
use poly_pair::Poly;
use reply_text::{Fault, Text};
use row_core::Steps;
use script_text::Comparison;
use std::alloc::Global;
use std::sync::ledger::Ledger;

/// Whether each point of the second is in the first.
fn contains(alloc: Global, p: &Poly, q: &Poly) -> Result<Text, StepErr>
    requires topology { p.now.topology ≡ q.now.topology }
    requires dim { p.now.cons.dim ≡ q.now.cons.dim }
    ensures { IsPerformed (ask_contains p.now q.now) result }
{
    match lattice_ops::contains(p, q) {
        Ok(holds) => answer(alloc, holds),
        Err(pair) => Err(refusal_of_pair(alloc, p.cons(), q.gens(), pair)),
    }
}

/// Whether both have the same points.
fn equal(alloc: Global, p: &Poly, q: &Poly) -> Result<Text, StepErr>
    requires topology { p.now.topology ≡ q.now.topology }
    requires dim { p.now.cons.dim ≡ q.now.cons.dim }
    ensures { IsPerformed (ask_equal p.now q.now) result }
{
    match lattice_ops::equal(p, q) {
        Ok(holds) => answer(alloc, holds),
        Err(pair) if pair.turned => Err(refusal_of_pair(alloc, q.cons(), p.gens(), pair)),
        Err(pair) => Err(refusal_of_pair(alloc, p.cons(), q.gens(), pair)),
    }
}

/// Whether no point is in both.
fn disjoint<L: Ledger>(
    alloc: Global,
    p: &Poly,
    q: &Poly,
    steps: &mut Steps<L>,
) -> Result<Text, StepErr>
    requires topology { p.now.topology ≡ q.now.topology }
    requires dim { p.now.cons.dim ≡ q.now.cons.dim }
    ensures { IsPerformed (ask_disjoint p.now q.now) result }
{
    match lattice_ops::disjoint(alloc, p, q, steps) {
        Ok(holds) => answer(alloc, holds),
        Err(cause) => Err(StepErr::from(cause)),
    }
}

/// How two polyhedra lie.
pub fn compare<L: Ledger>(
    alloc: Global,
    by: Comparison,
    p: Option<&Poly>,
    q: Option<&Poly>,
    steps: &mut Steps<L>,
) -> Result<Text, StepErr>
    ensures { IsPerformed
        (on_two (option_copied p.entry) (option_copied q.entry) (compared by)) result }
{
    let Some(p) = p else {
        return Err(StepErr::Input(Fault::UnknownName));
    };
    let Some(q) = q else {
        return Err(StepErr::Input(Fault::UnknownName));
    };
    if p.topology() != q.topology() {
        return Err(StepErr::Input(Fault::TopologyMismatch));
    }
    if p.dim() != q.dim() {
        return Err(StepErr::Input(Fault::DimMismatch));
    }
    match by {
        Comparison::Contains => contains(alloc, p, q),
        Comparison::Equal => equal(alloc, p, q),
        Comparison::Disjoint => disjoint(alloc, p, q, steps),
    }
}
