//! The commands that make, copy or change polyhedra.
ghost use Rattle.std.specs.Prelude.{◌≡◌, ◌≤◌, ◌<◌, MatchOption, IfOk};
ghost use Rattle.grammar.specs.Form.{Matches};
ghost use Rattle.grammar.specs.Grammar.{alone};
ghost use Rattle.grammar.specs.Cases.{cons_cases, gens_cases};
ghost use Rattle.script_text.specs.Commands.{is_strict};
ghost use Rattle.poly_pair.specs.declared.topology.TheConstants.{MAX_DIM};
ghost use Rattle.poly_makers.specs.Makers.{cons as make_cons, gens as make_gens, space_of, IsSpace, copy as make_copy, closure as make_closure, add as add_to, addgen as addgen_to};
ghost use Rattle.line_values.specs.Performed.{IsPerformed};

use expr_text::one_answer;
use line_values::{StepErr, constraints_of, generators_of};
use poly_pair::{MAX_DIM, Poly, Topology, lacks_point};
use reply_text::Fault;
use row_core::{Memory, Steps};
use script_text::{Part, Space};
use std::alloc::Global;
use std::sync::ledger::Ledger;

/// The dimension of a line, where it is within the limit.
fn small_dim(n: u64) -> Option<usize>
    ensures { MatchOption result (MAX_DIM < n) (λ dim. (dim ≡ n) × (dim ≤ MAX_DIM)) }
{
    if n > MAX_DIM as u64 {
        return None;
    }
    Some(n as usize)
}

/// The polyhedron that the dimension alone determines: all points, or none.
pub fn space(
    alloc: Global,
    space: Space,
    topology: Topology,
    n: u64,
    full: bool,
) -> Result<Poly, StepErr>
    ensures { IsPerformed (space_of space full topology n) result }
{
    let Some(dim) = small_dim(n) else {
        return Err(StepErr::Input(Fault::TooManyDims));
    };
    if full {
        return Err(StepErr::Input(Fault::TooManyNames));
    }
    whole_or_empty(alloc, space, topology, dim).map_err(StepErr::from)
}

/// All points, or none.
fn whole_or_empty(
    alloc: Global,
    space: Space,
    topology: Topology,
    dim: usize,
) -> Result<Poly, Memory>
    requires { dim ≤ MAX_DIM }
    ensures { IfOk result (IsSpace space topology dim) }
{
    match space {
        Space::Universe => Poly::universe(alloc, topology, dim),
        Space::Empty => Poly::empty(alloc, topology, dim),
    }
}

/// A copy.
pub fn copy(p: &Poly, full: bool) -> Result<Poly, StepErr>
    ensures { IsPerformed (make_copy full p.now) result }
{
    if full {
        return Err(StepErr::Input(Fault::TooManyNames));
    }
    p.try_copy().map_err(StepErr::from)
}

/// The smallest closed set that includes the polyhedron, in its topology.
pub fn closure<L: Ledger>(
    alloc: Global,
    p: &Poly,
    full: bool,
    steps: &mut Steps<L>,
) -> Result<Poly, StepErr>
    ensures { IsPerformed (make_closure full p.now) result }
{
    if full {
        return Err(StepErr::Input(Fault::TooManyNames));
    }
    lattice_ops::closure(alloc, p, steps).map_err(StepErr::from)
}

/// The polyhedron of the points at which the constraints of a text hold.
pub fn cons<L: Ledger>(
    alloc: Global,
    topology: Topology,
    n: u64,
    part: &Part,
    full: bool,
    steps: &mut Steps<L>,
) -> Result<Poly, StepErr>
    requires form { Matches (alone cons_cases) part.now.text }
    requires told { part.now.strict ≡ is_strict part.now.text }
    ensures { IsPerformed (make_cons full topology n part.now) result }
{
    let Some(dim) = small_dim(n) else {
        return Err(StepErr::Input(Fault::TooManyDims));
    };
    let system = match constraints_of(alloc, topology, part, dim) {
        Ok(system) => system,
        Err(cause) => return Err(cause),
    };
    if full {
        return Err(StepErr::Input(Fault::TooManyNames));
    }
    Poly::from_cons(alloc, topology, &system, steps).map_err(StepErr::from)
}

/// The polyhedron of the points that the generators of a text generate.
pub fn gens<L: Ledger>(
    alloc: Global,
    topology: Topology,
    n: u64,
    part: &Part,
    full: bool,
    steps: &mut Steps<L>,
) -> Result<Poly, StepErr>
    requires form { Matches (alone gens_cases) part.now.text }
    requires told { part.now.strict ≡ is_strict part.now.text }
    ensures { IsPerformed (make_gens full topology n part.now) result }
{
    one_answer();
    let Some(dim) = small_dim(n) else {
        return Err(StepErr::Input(Fault::TooManyDims));
    };
    let system = match generators_of(alloc, topology, part, dim) {
        Ok(system) => system,
        Err(cause) => return Err(cause),
    };
    if lacks_point(&system) {
        return Err(StepErr::Input(Fault::NoPoint));
    }
    if full {
        return Err(StepErr::Input(Fault::TooManyNames));
    }
    Poly::from_gens(alloc, topology, &system, steps).map_err(StepErr::from)
}

/// The points of a polyhedron at which the constraints of a text hold.
pub fn add<L: Ledger>(
    alloc: Global,
    p: &Poly,
    part: &Part,
    steps: &mut Steps<L>,
) -> Result<Poly, StepErr>
    requires form { Matches (alone cons_cases) part.now.text }
    requires told { part.now.strict ≡ is_strict part.now.text }
    ensures { IsPerformed (add_to part.now p.now) result }
{
    let topology = p.topology();
    let more = match constraints_of(alloc, topology, part, p.dim()) {
        Ok(more) => more,
        Err(cause) => return Err(cause),
    };
    p.add_cons(&more, steps).map_err(StepErr::from)
}

/// What the generators of a polyhedron and those of a text generate.
pub fn addgen<L: Ledger>(
    alloc: Global,
    p: &Poly,
    part: &Part,
    steps: &mut Steps<L>,
) -> Result<Poly, StepErr>
    requires form { Matches (alone gens_cases) part.now.text }
    requires told { part.now.strict ≡ is_strict part.now.text }
    ensures { IsPerformed (addgen_to part.now p.now) result }
{
    one_answer();
    let topology = p.topology();
    let more = match generators_of(alloc, topology, part, p.dim()) {
        Ok(more) => more,
        Err(cause) => return Err(cause),
    };
    p.add_gens(&more, steps).map_err(StepErr::from)
}
