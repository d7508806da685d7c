//! What a command asks of the calculator. Its nesting is the commands' families, so that each match
//! is total.
use crate::on_polyhedra::{Addition, Maker, Question};
use reply_text::Text;
use script_text::{LocationPart, Part, PowersetOperator, ShapeOperator};

/// What a command asks of the calculator.
#[derive(Drop)]
pub enum Task {
    /// A file is opened for the name, of generators or not.
    Opens(Text, bool),
    /// A part of the entry under the name is changed.
    ChangesPart(Text, PartTask),
    /// The table is read, and then changed as a whole, or not at all.
    OnTable(TableTask),
}

/// What is done with the table as a whole.
#[derive(Drop)]
pub enum TableTask {
    /// Nothing.
    Nothing,
    /// The name is taken out.
    TakesOut(Text),
    /// Something is asked.
    Asks(Asked),
    /// What is made is put under the name.
    Puts(Text, Made),
    /// The polyhedron under the name gets an addition.
    AddsTo(Text, Addition),
    /// The sets of a run are put under the names that begin so, each with its number.
    PutsAll(Text, Running),
}

/// What is asked.
#[derive(Drop)]
pub enum Asked {
    /// Of polyhedra, or of the names.
    OfPolyhedra(Question),
    /// `psize`
    Psize(Text),
    /// `covers`
    Covers(Text, Text),
    /// `ranking`
    Ranking(Text),
    /// `scontains`
    ShapeContains(Text, Text),
    /// `sprint`
    ShapePrint(Text),
}

/// What is made.
#[derive(Drop)]
pub enum Made {
    /// A polyhedron.
    Poly(PolyMaker),
    /// `system`: a transition system of so many variables and locations.
    System(u64, u64),
    /// A powerset.
    Powerset(PowersetMaker),
    /// A bounded-difference shape.
    Shape(ShapeMaker),
    /// `hybrid`: an automaton of a system.
    Hybrid(Text),
}

/// What makes a polyhedron.
#[derive(Drop)]
pub enum PolyMaker {
    /// Polyhedra alone, or words.
    OfPolyhedra(Maker),
    /// `member`
    Member(Text, u64),
    /// `rank`
    Rank(Text),
    /// `spoly`
    OfShape(Text),
}

/// What makes a powerset.
#[derive(Drop)]
pub enum PowersetMaker {
    /// `pset`
    OfPoly(Text),
    /// `join`, `pmeet`
    OfTwo(PowersetOperator, Text, Text),
}

/// What makes a bounded-difference shape.
#[derive(Drop)]
pub enum ShapeMaker {
    /// `shape`
    OfPoly(Text),
    /// `bounds`
    Bounds(u64, Part),
    /// `smeet`, `shull`
    OfTwo(ShapeOperator, Text, Text),
}

/// What is run, with its delay.
#[derive(Drop)]
pub enum Running {
    /// `fixpoint`
    System(Text, u64),
    /// `reach`
    Hybrid(Text, u64),
}

/// Which part is changed.
#[derive(Drop)]
pub enum PartTask {
    /// `init`: of the location, by a polyhedron.
    Initial(u64, Text),
    /// `trans`: from the one location to the other, by a relation.
    Transition(u64, u64, Text),
    /// `inv`, `flow`: of the location, by a polyhedron.
    Location(LocationPart, u64, Text),
}
