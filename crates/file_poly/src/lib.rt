//! Closed polyhedra of files in the format of cdd and lrs, both ways.
//!
//! - [`read_file`] gives the list that a file holds, and [`Listed::polyhedron`] the polyhedron of
//!   the list.
//! - [`Listed::other_file`] gives the file of the other system of that polyhedron, which alone is
//!   made.
//! - [`write_file`] gives the file of a polyhedron's constraints, or of its generators.
#![tactic(auto)]

mod converting;
mod listed;
mod other_system;
mod reading;
mod writing;

pub use cdd_reading::Format;
pub use listed::Listed;
pub use reading::read_file;
pub use writing::write_file;
