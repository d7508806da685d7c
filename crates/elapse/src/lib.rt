//! Time elapse of polyhedra, on both topologies.
//!
//! - [`time_elapse`] is the smallest polyhedron that includes all points `x + t*y` with x in the
//!   one, y in the other and t a fraction of at least 0.
//!
//! [`laws`] says what holds of each time elapse.
#![tactic(auto)]

mod directions;
pub mod laws;
mod moving;

pub use moving::time_elapse;
