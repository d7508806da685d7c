//! Sets that include others: boxes, and what constraints leave of a polyhedron.
//!
//! - [`bounding_box`] gives the bounds of each variable on a polyhedron, as constraints.
//! - [`difference`] gives the smallest polyhedron that has the points at which some of the given
//!   constraints doesn't hold.
#![tactic(auto)]

mod boxes;
mod differences;
mod ways;

pub use boxes::bounding_box;
pub use differences::difference;
