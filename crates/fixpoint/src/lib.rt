//! Runs of transition systems to a fixpoint.
//!
//! - [`post`] is the set of all successors of the states of a polyhedron by a relation.
//! - [`run`] takes rounds of the transitions of a system until one changes nothing. Each run ends.
//!
//! [`laws`] says that there is one such end, and what falls at each turn on the way to it, and
//! [`commands`] has the functions of the calculator's commands that make and run systems.
#![tactic(auto)]

pub mod commands;
pub mod laws;
mod pairs;
mod runs;
mod successors;
mod transitions;

pub use runs::run;
pub use successors::post;
