//! A file that is being read: its lines as they come, and the polyhedron of the whole file.
//!
//! - [`OpenFile`] keeps the lines so far.
//! - [`read_whole`] makes the polyhedron of a whole file, or tells why it is refused.
#![tactic(auto)]

mod reading;

pub use reading::{OpenFile, read_whole};
