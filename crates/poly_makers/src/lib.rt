//! The commands that make polyhedra, or add to one: what each makes, or why it is refused.
//!
//! - [`make`] makes what a `Maker` says, of the parts of its line or of polyhedra that are looked
//!   up in a table of which some entries are polyhedra.
//! - [`add_to`] gives a polyhedron with what an `Addition` says.
//!
//! A maker is told whether the table of names is full. Each does what its meaning says: the first
//! fault in the order of faults, an overflow of its own arithmetic, or a set that is right and what
//! is stored of it.
#![tactic(auto)]

mod affine;
mod commands;
mod makers;
mod operators;
mod widenings;

pub use commands::{add_to, make};
