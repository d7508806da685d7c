//! What each task does, from the table as it stands.
ghost use Rattle.name_table.specs.Table.{entry_of};
ghost use Rattle.line_values.specs.Effects.{all_placed};
ghost use Rattle.line_values.specs.Performed.{IsPerformed};
ghost use Rattle.calc_state.specs.Changes.{IsTested};
ghost use Rattle.calc_state.specs.Meanings.{made_poly, made_powerset, made_shape, put_under, answered, ran, changed_part_of, on_table};
ghost use Rattle.command_tasks.specs.Tasks.{AskedFits, PolyMakerFits, ShapeMakerFits, MadeFits, TableTaskFits};

use crate::change::{put_hybrid, put_powerset, put_shape, put_system};
use crate::entry::Entry;
use crate::operands::{hybrid_at, powerset_at, shape_at, system_at};
use crate::part_tests::{added_transition, replaced_initial, replaced_part};
use crate::parts::PartChange;
use bd_shape::Shape;
use bd_shape::commands::{
    bounds, of_two_shapes, shape_contains, shape_of_set, shape_poly, shape_print,
};
use command_tasks::{
    Asked, Made, PartTask, PolyMaker, PowersetMaker, Running, ShapeMaker, TableTask,
};
use fixpoint::commands::{fixpoint, system};
use hybrid::commands::{hybrid, reach};
use line_values::{Change, StepErr, drop_name, is_full, poly_at, put_numbered, put_poly, say};
use name_table::Names;
use poly_makers::{add_to, make};
use poly_pair::Poly;
use poly_questions::ask;
use powerset::Powerset;
use powerset::commands::{covers, member, of_two_powersets, pset, psize};
use ranking::commands::{rank, ranking};
use reply_text::Text;
use row_core::Steps;
use std::alloc::Global;
use std::sync::ledger::Ledger;

/// What a task does with the table, or why it is refused.
pub fn change_of<L: Ledger>(
    alloc: Global,
    names: &Names<Entry>,
    task: TableTask,
    steps: &mut Steps<L>,
) -> Result<Change<Entry>, StepErr>
    requires { TableTaskFits task }
    ensures { IsPerformed (on_table names.now task) result }
{
    match task {
        TableTask::Nothing => Ok(Change::Says(Text::new(alloc))),
        TableTask::TakesOut(name) => drop_name(names, name),
        TableTask::Asks(asked) => say(answer_to(alloc, names, asked, steps)),
        TableTask::Puts(out, made) => put_made(alloc, names, out, made, steps),
        TableTask::AddsTo(p, addition) => {
            let made = add_to(alloc, poly_at(names, &p), addition, steps);
            put_poly(p, made)
        }
        TableTask::PutsAll(prefix, running) => {
            let sets = run(alloc, names, running, &prefix, steps);
            put_numbered(prefix, sets)
        }
    }
}

/// The entry that is made, put under the name.
fn put_made<L: Ledger>(
    alloc: Global,
    names: &Names<Entry>,
    out: Text,
    made: Made,
    steps: &mut Steps<L>,
) -> Result<Change<Entry>, StepErr>
    requires { MadeFits made }
    ensures { IsPerformed (put_under names.now out made) result }
{
    let full = is_full(names, &out);
    match made {
        Made::Poly(by) => put_poly(out, make_poly(alloc, names, by, full, steps)),
        Made::System(n, locations) => put_system(out, system(alloc, n, locations, full)),
        Made::Powerset(by) => put_powerset(out, make_powerset(alloc, names, by, full, steps)),
        Made::Shape(by) => put_shape(out, make_shape(alloc, names, by, full)),
        Made::Hybrid(s) => put_hybrid(out, hybrid(alloc, system_at(names, &s), full)),
    }
}

/// The polyhedron that is made.
fn make_poly<L: Ledger>(
    alloc: Global,
    names: &Names<Entry>,
    by: PolyMaker,
    full: bool,
    steps: &mut Steps<L>,
) -> Result<Poly, StepErr>
    requires { PolyMakerFits by }
    ensures { IsPerformed (made_poly names.now full by) result }
{
    match by {
        PolyMaker::OfPolyhedra(maker) => make(alloc, names, maker, full, steps),
        PolyMaker::Member(s, i) => member(powerset_at(names, &s), i, full),
        PolyMaker::Rank(r) => rank(alloc, poly_at(names, &r), full, steps),
        PolyMaker::OfShape(s) => shape_poly(alloc, shape_at(names, &s), full, steps),
    }
}

/// The powerset that is made.
fn make_powerset<L: Ledger>(
    alloc: Global,
    names: &Names<Entry>,
    by: PowersetMaker,
    full: bool,
    steps: &mut Steps<L>,
) -> Result<Powerset, StepErr>
    ensures { IsPerformed (made_powerset names.now full by) result }
{
    match by {
        PowersetMaker::OfPoly(p) => pset(alloc, poly_at(names, &p), full),
        PowersetMaker::OfTwo(op, s, t) => {
            let one = powerset_at(names, &s);
            of_two_powersets(alloc, op, one, powerset_at(names, &t), full, steps)
        }
    }
}

/// The shape that is made.
fn make_shape(
    alloc: Global,
    names: &Names<Entry>,
    by: ShapeMaker,
    full: bool,
) -> Result<Shape, StepErr>
    requires { ShapeMakerFits by }
    ensures { IsPerformed (made_shape names.now full by) result }
{
    match by {
        ShapeMaker::OfPoly(p) => shape_of_set(alloc, poly_at(names, &p), full),
        ShapeMaker::Bounds(n, part) => bounds(alloc, n, &part, full),
        ShapeMaker::OfTwo(op, s, t) => {
            let one = shape_at(names, &s);
            of_two_shapes(alloc, op, one, shape_at(names, &t), full)
        }
    }
}

/// The line that answers what is asked.
fn answer_to<L: Ledger>(
    alloc: Global,
    names: &Names<Entry>,
    asked: Asked,
    steps: &mut Steps<L>,
) -> Result<Text, StepErr>
    requires { AskedFits asked }
    ensures { IsPerformed (answered names.now asked) result }
{
    match asked {
        Asked::OfPolyhedra(question) => ask(alloc, names, question, steps),
        Asked::Psize(s) => psize(alloc, powerset_at(names, &s)),
        Asked::Covers(s, t) => {
            let one = powerset_at(names, &s);
            covers(alloc, one, powerset_at(names, &t), steps)
        }
        Asked::Ranking(r) => ranking(alloc, poly_at(names, &r), steps),
        Asked::ShapeContains(s, t) => {
            let one = shape_at(names, &s);
            shape_contains(alloc, one, shape_at(names, &t))
        }
        Asked::ShapePrint(s) => shape_print(alloc, shape_at(names, &s)),
    }
}

/// The sets of a run.
fn run<L: Ledger>(
    alloc: Global,
    names: &Names<Entry>,
    running: Running,
    prefix: &Text,
    steps: &mut Steps<L>,
) -> Result<Vec<Poly>, StepErr>
    ensures { IsPerformed (ran names.now prefix.now running) (all_placed prefix.now result) }
{
    match running {
        Running::System(s, delay) => {
            fixpoint(alloc, names, system_at(names, &s), delay, prefix, steps)
        }
        Running::Hybrid(h, delay) => reach(
            alloc,
            names,
            hybrid_at(names, &h),
            delay,
            prefix,
            steps,
        ),
    }
}

/// The change of a part of the entry under the name, or why it is refused.
pub fn part_change_of(
    names: &Names<Entry>,
    name: &Text,
    task: PartTask,
) -> Result<PartChange, StepErr>
    ensures { IsTested (changed_part_of names.now name.now task) (entry_of names.now name.now)
        name.now result }
{
    match task {
        PartTask::Initial(location, p) => {
            replaced_initial(system_at(names, name), location, poly_at(names, &p))
        }
        PartTask::Transition(source, target, r) => {
            added_transition(system_at(names, name), source, target, poly_at(names, &r))
        }
        PartTask::Location(part, location, p) => {
            replaced_part(part, hybrid_at(names, name), location, poly_at(names, &p))
        }
    }
}
