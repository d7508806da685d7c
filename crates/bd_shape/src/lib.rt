//! Bounded-difference shapes: sets of points by bounds of their variables and of the
//! differences of two.
//!
//! - [`Shape`] keeps for each two places the greatest difference, a fraction or none. Place 0 is
//!   the number 0, and place i the variable i.
//! - [`shape_of`] gives the smallest shape that includes a closed polyhedron, and [`shape_from`]
//!   that of constraints.
//! - [`shape_rows`] lists the constraints of a shape, and [`shape_poly`] makes them a polyhedron.
//! - [`shape_meet`], [`shape_hull`] and [`shape_contains`] combine and compare two shapes.
//! - [`commands`] has the functions of the calculator's commands on shapes.
#![tactic(auto)]

pub mod commands;
mod forms;
mod given;
pub mod laws;
mod listing;
mod pairs;
mod refusal;
mod rows;
mod shape;
mod suprema;

pub use given::shape_from;
pub use listing::{shape_poly, shape_rows};
pub use pairs::{shape_contains, shape_hull, shape_meet};
pub use refusal::ShapeErr;
pub use shape::Shape;
pub use suprema::shape_of;
