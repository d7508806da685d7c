//! Polyhedra that keep two canonical systems: their constraints and their generators.
//!
//! - [`Poly`] is a polyhedron of a [`Topology`] and of at most [`MAX_DIM`] variables.
//! - [`constraints_of`] and [`generators_of`] are the lists of rows that are converted for a system
//!   of constraints or generators; [`Poly::from_rows`] and [`Poly::from_vectors`] take such lists.
//! - [`start_of_vectors`] gives the system of the generator list of a closed polyhedron, and
//!   [`closed_of_vectors`] the closed polyhedron of the two systems of such a list.
//! - [`spanning_generators`] gives generators of the set of a constraint list by one conversion.
//! - [`GenErr`] says why generators give no polyhedron.
//!
//! [`laws`] says what holds of the two systems of each polyhedron; further laws of closed ones are
//! public functions of `stored_systems`.
#![tactic(auto)]

mod adding;
mod errors;
pub mod laws;
mod lists;
mod making;
mod pairing;
mod poly;
mod spanning;
mod starting;
mod systems;
mod topology;

pub use errors::GenErr;
pub use lists::{constraints_of, generators_of};
pub use making::{has_point_kind, lacks_point};
pub use pairing::closed_of_vectors;
pub use poly::Poly;
pub use spanning::{spanning_generators, spanning_generators_from};
pub use starting::start_of_vectors;
pub use topology::{MAX_DIM, Topology};
