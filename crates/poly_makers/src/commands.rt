//! What each maker makes, from the table as it stands: its operands are looked up here, and here
//! alone.
ghost use Rattle.std.specs.Option.{option_copied};
ghost use Rattle.line_values.specs.Meaning.{on_one, on_two};
ghost use Rattle.line_values.specs.Operands.{poly_of};
ghost use Rattle.line_values.specs.Performed.{IsPerformed};
ghost use Rattle.poly_makers.specs.Meanings.{made_alone, made_of_one, made_of_two, made, added};
ghost use Rattle.command_tasks.specs.Parts.{GivenFits, OfOneFits, MakerFits, AdditionFits};

use crate::affine::{VariableMap, mapped_by, remove};
use crate::makers::{add, addgen, closure, cons, copy, gens, space};
use crate::operators::{extend, of_two};
use crate::widenings::widen;
use command_tasks::{Addition, Given, Maker, OfOne, OfTwo};
use line_values::{PolyEntry, StepErr, poly_at, topology_of};
use name_table::Names;
use poly_pair::{Poly, Topology};
use reply_text::Fault;
use row_core::Steps;
use std::alloc::Global;
use std::sync::ledger::Ledger;

/// What the maker makes, where the table is full for its name or not, or why it is refused.
pub fn make<E: PolyEntry, L: Ledger>(
    alloc: Global,
    names: &Names<E>,
    maker: Maker,
    full: bool,
    steps: &mut Steps<L>,
) -> Result<Poly, StepErr>
    requires { MakerFits maker }
    ensures { IsPerformed (made (poly_of E.as_poly names.now) full maker) result }
{
    match maker {
        Maker::Given { top, n, by } => make_alone(alloc, by, topology_of(top), n, full, steps),
        Maker::OfOne { p, by } => make_of_one(alloc, by, poly_at(names, &p), full, steps),
        Maker::OfTwo { p, q, by } => {
            let one = poly_at(names, &p);
            make_of_two(alloc, by, one, poly_at(names, &q), full, steps)
        }
    }
}

/// What words and a part make alone.
fn make_alone<L: Ledger>(
    alloc: Global,
    by: Given,
    topology: Topology,
    n: u64,
    full: bool,
    steps: &mut Steps<L>,
) -> Result<Poly, StepErr>
    requires { GivenFits by }
    ensures { IsPerformed (made_alone by full topology n) result }
{
    match by {
        Given::Cons(part) => cons(alloc, topology, n, &part, full, steps),
        Given::Gens(part) => gens(alloc, topology, n, &part, full, steps),
        Given::Space(kind) => space(alloc, kind, topology, n, full),
    }
}

/// What is made of one polyhedron.
fn make_of_one<L: Ledger>(
    alloc: Global,
    by: OfOne,
    p: Option<&Poly>,
    full: bool,
    steps: &mut Steps<L>,
) -> Result<Poly, StepErr>
    requires { OfOneFits by }
    ensures { IsPerformed (on_one (option_copied p.entry) (made_of_one by full)) result }
{
    let Some(p) = p else {
        return Err(StepErr::Input(Fault::UnknownName));
    };
    match by {
        OfOne::Copy => copy(p, full),
        OfOne::Closure => closure(alloc, p, full, steps),
        OfOne::Map { by, v, rel, frac } => {
            let map = VariableMap { by, v, rel };
            mapped_by(alloc, map, p, &frac, full, steps)
        }
        OfOne::Extend { by, n } => extend(alloc, by, p, n, full, steps),
        OfOne::Remove(vars) => remove(alloc, p, &vars, full, steps),
    }
}

/// What is made of two polyhedra.
fn make_of_two<L: Ledger>(
    alloc: Global,
    by: OfTwo,
    p: Option<&Poly>,
    q: Option<&Poly>,
    full: bool,
    steps: &mut Steps<L>,
) -> Result<Poly, StepErr>
    ensures { IsPerformed
        (on_two (option_copied p.entry) (option_copied q.entry) (made_of_two by full)) result }
{
    let Some(p) = p else {
        return Err(StepErr::Input(Fault::UnknownName));
    };
    let Some(q) = q else {
        return Err(StepErr::Input(Fault::UnknownName));
    };
    match by {
        OfTwo::Operate(op) => of_two(alloc, op, p, q, full, steps),
        OfTwo::Widen => widen(alloc, p, q, full, steps),
    }
}

/// The polyhedron with what is added, or why the line is refused.
pub fn add_to<L: Ledger>(
    alloc: Global,
    p: Option<&Poly>,
    addition: Addition,
    steps: &mut Steps<L>,
) -> Result<Poly, StepErr>
    requires { AdditionFits addition }
    ensures { IsPerformed (on_one (option_copied p.entry) (added addition)) result }
{
    let Some(p) = p else {
        return Err(StepErr::Input(Fault::UnknownName));
    };
    match addition {
        Addition::Cons(part) => add(alloc, p, &part, steps),
        Addition::Gens(part) => addgen(alloc, p, &part, steps),
    }
}
