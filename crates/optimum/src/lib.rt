//! The bounds of an expression on a polyhedron, and how a polyhedron lies to a constraint,
//! on both topologies.
//!
//! - [`sup`] and [`inf`] give the least upper and the greatest lower bound, a [`Sup`].
//! - [`relation`] says by a [`Relation`] whether the points satisfy a constraint.
//! - [`shown`] gives the rows of the pair that a call refuses with.
//! - [`laws`] says that each has one answer, and what the generator shows that an answer numbers.
//!
//! None of the first three calls takes memory. Each may answer the first product or partial sum
//! that leaves the range.
#![tactic(auto)]

mod bounds;
pub mod laws;
mod outcome;
mod relating;
mod seeking;
mod showing;

pub use bounds::{inf, sup};
pub use outcome::{Relation, Sup};
pub use relating::relation;
pub use showing::shown;
