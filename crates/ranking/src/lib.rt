//! Affine ranking functions of relations.
//!
//! - [`ranking_set`] gives all affine functions that are at least 0 at the state of each pair of a
//!   relation and fall by at least 1 to its successor, as a polyhedron of their coefficients.
//! - [`print_ranking`] gives the printed form of one of them, or `none`.
//!
//! [`laws`] says what is printed, and [`commands`] has the functions of the calculator's commands
//! that make ranking functions or say one of them.
#![tactic(auto)]

pub mod commands;
pub mod laws;
mod printing;
mod rows;
mod sets;
mod systems;

pub use printing::print_ranking;
pub use sets::ranking_set;
