//! Powersets: finite unions of polyhedra.
//!
//! - [`Powerset`] keeps polyhedra of one topology and dimension.
//! - [`join`] and [`pmeet`] have the points of two powersets, and their common points, without
//!   members that others include.
//! - [`covers`] says whether each point of one powerset is in another, or shows a point that isn't.
//!
//! [`laws`] says what these mean in words of points, and [`commands`] has the functions of the
//! calculator's commands on powersets.
#![tactic(auto)]

pub mod commands;
mod covering;
mod joining;
pub mod laws;
mod powersets;
mod reducing;

pub use covering::{Cover, covers};
pub use joining::{join, pmeet};
pub use powersets::Powerset;
