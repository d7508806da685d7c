//! The task of each command.
ghost use Rattle.std.specs.Prelude.{◌≡◌};
ghost use Rattle.command_tasks.specs.Tasks.{task_of, further_task, puts, puts_poly, makes_alone, makes_of_one, makes_of_two, puts_powerset, puts_shape, adds, tells, asks, asks_about, runs, changes};

use crate::on_polyhedra::{About, Addition, Given, Maker, OfOne, OfTwo, Question};
use crate::tasks::{
    Asked, Made, PartTask, PolyMaker, PowersetMaker, Running, ShapeMaker, TableTask, Task,
};
use reply_text::Text;
use script_text::Command;

/// What a command asks of the calculator: the one list of all commands, of which each is one line.
pub fn task_of(command: Command) -> Task
    ensures { result ≡ task_of command }
{
    match command {
        Command::Cons { out, top, n, cons } => makes_alone(out, top, n, Given::Cons(cons)),
        Command::Gens { out, top, n, gens } => makes_alone(out, top, n, Given::Gens(gens)),
        Command::Space { space, out, top, n } => makes_alone(out, top, n, Given::Space(space)),
        Command::Copy { out, p } => makes_of_one(out, p, OfOne::Copy),
        Command::Drop { name } => Task::OnTable(TableTask::TakesOut(name)),
        Command::Add { p, cons } => adds(p, Addition::Cons(cons)),
        Command::Addgen { p, gens } => adds(p, Addition::Gens(gens)),
        Command::Has { p, point } => asks_about(p, About::Has(point)),
        Command::Size { p } => asks_about(p, About::Size),
        Command::Print { side, p } => asks_about(p, About::Print(side)),
        Command::Names => asks(Question::Names),
        Command::OfTwo { op, out, p, q } => makes_of_two(out, p, q, OfTwo::Operate(op)),
        Command::Closure { out, p } => makes_of_one(out, p, OfOne::Closure),
        Command::Compare { by, p, q } => asks(Question::Compare { by, p, q }),
        Command::Isempty { p } => asks_about(p, About::Isempty),
        Command::Relation { p, con } => asks_about(p, About::Relation(con)),
        Command::Bound { of, p, expr } => asks_about(p, About::Bound(of, expr)),
        Command::Map {
            by,
            out,
            p,
            v,
            rel,
            frac,
        } => makes_of_one(out, p, OfOne::Map { by, v, rel, frac }),
        Command::Extend { by, out, p, n } => makes_of_one(out, p, OfOne::Extend { by, n }),
        Command::Remove { out, p, vars } => makes_of_one(out, p, OfOne::Remove(vars)),
        Command::Widen { out, p, q } => makes_of_two(out, p, q, OfTwo::Widen),
        Command::Read { out, form } => Task::Opens(out, form),
        Command::Write { p, form } => asks_about(p, About::Write(form)),
        further => further_task(further),
    }
}

/// The same of a command on systems, powersets, shapes, automata or ranking functions; no other
/// asks anything.
fn further_task(command: Command) -> Task
    ensures { result ≡ further_task command }
{
    match command {
        Command::System { out, n, l } => puts(out, Made::System(n, l)),
        Command::Init { s, loc, p } => changes(s, PartTask::Initial(loc, p)),
        Command::Trans { s, loc, loc2, r } => changes(s, PartTask::Transition(loc, loc2, r)),
        Command::Fixpoint { s, delay, prefix } => runs(prefix, Running::System(s, delay)),
        Command::Pset { out, p } => puts_powerset(out, PowersetMaker::OfPoly(p)),
        Command::OfTwoPowersets { op, out, s, t } => puts_powerset(
            out,
            PowersetMaker::OfTwo(op, s, t),
        ),
        Command::Member { out, s, i } => puts_poly(out, PolyMaker::Member(s, i)),
        Command::Psize { s } => tells(Asked::Psize(s)),
        Command::Covers { s, t } => tells(Asked::Covers(s, t)),
        Command::Rank { out, r } => puts_poly(out, PolyMaker::Rank(r)),
        Command::Ranking { r } => tells(Asked::Ranking(r)),
        Command::ShapeOf { out, p } => puts_shape(out, ShapeMaker::OfPoly(p)),
        Command::Bounds { out, n, cons } => puts_shape(out, ShapeMaker::Bounds(n, cons)),
        Command::OfTwoShapes { op, out, s, t } => puts_shape(out, ShapeMaker::OfTwo(op, s, t)),
        Command::ShapeContains { s, t } => tells(Asked::ShapeContains(s, t)),
        Command::ShapePrint { s } => tells(Asked::ShapePrint(s)),
        Command::ShapePoly { out, s } => puts_poly(out, PolyMaker::OfShape(s)),
        Command::Hybrid { out, s } => puts(out, Made::Hybrid(s)),
        Command::SetPart { part, h, loc, p } => changes(h, PartTask::Location(part, loc, p)),
        Command::Reach { h, delay, prefix } => runs(prefix, Running::Hybrid(h, delay)),
        _ => Task::OnTable(TableTask::Nothing),
    }
}

/// What is made is put.
fn puts(out: Text, made: Made) -> Task
    ensures { result ≡ puts out made }
{
    Task::OnTable(TableTask::Puts(out, made))
}

/// A polyhedron is made and put.
fn puts_poly(out: Text, by: PolyMaker) -> Task
    ensures { result ≡ puts_poly out by }
{
    puts(out, Made::Poly(by))
}

/// What words and a part make alone is put.
fn makes_alone(out: Text, top: bool, n: u64, by: Given) -> Task
    ensures { result ≡ makes_alone out top n by }
{
    puts_poly(out, PolyMaker::OfPolyhedra(Maker::Given { top, n, by }))
}

/// What is made of one polyhedron is put.
fn makes_of_one(out: Text, p: Text, by: OfOne) -> Task
    ensures { result ≡ makes_of_one out p by }
{
    puts_poly(out, PolyMaker::OfPolyhedra(Maker::OfOne { p, by }))
}

/// What is made of two polyhedra is put.
fn makes_of_two(out: Text, p: Text, q: Text, by: OfTwo) -> Task
    ensures { result ≡ makes_of_two out p q by }
{
    puts_poly(out, PolyMaker::OfPolyhedra(Maker::OfTwo { p, q, by }))
}

/// A powerset is made and put.
fn puts_powerset(out: Text, by: PowersetMaker) -> Task
    ensures { result ≡ puts_powerset out by }
{
    puts(out, Made::Powerset(by))
}

/// A shape is made and put.
fn puts_shape(out: Text, by: ShapeMaker) -> Task
    ensures { result ≡ puts_shape out by }
{
    puts(out, Made::Shape(by))
}

/// The polyhedron under the name gets an addition.
fn adds(p: Text, addition: Addition) -> Task
    ensures { result ≡ adds p addition }
{
    Task::OnTable(TableTask::AddsTo(p, addition))
}

/// Something is asked.
fn tells(asked: Asked) -> Task
    ensures { result ≡ tells asked }
{
    Task::OnTable(TableTask::Asks(asked))
}

/// Something is asked of polyhedra or of the names.
fn asks(question: Question) -> Task
    ensures { result ≡ asks question }
{
    tells(Asked::OfPolyhedra(question))
}

/// Something is asked about one polyhedron.
fn asks_about(p: Text, about: About) -> Task
    ensures { result ≡ asks_about p about }
{
    asks(Question::OfOne { p, about })
}

/// A run's sets are put under the names that begin so.
fn runs(prefix: Text, running: Running) -> Task
    ensures { result ≡ runs prefix running }
{
    Task::OnTable(TableTask::PutsAll(prefix, running))
}

/// A part of the entry under the name is changed.
fn changes(name: Text, part: PartTask) -> Task
    ensures { result ≡ changes name part }
{
    Task::ChangesPart(name, part)
}
