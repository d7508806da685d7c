//! Changes of the dimension of polyhedra, on both topologies.
//!
//! - [`embed`] adds variables that are free, and [`project`] variables that are 0; [`remove_dims`]
//!   takes variables away.
//! - [`concat`] gives the product of two sets.
//!
//! [`laws`] says which of them undo each other.
#![tactic(auto)]

mod added_variables;
mod changes;
pub mod laws;

pub use changes::{concat, embed, project, remove_dims};
