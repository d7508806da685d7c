//! The constraints of a sample system: a cube, cut by rows that a generator of numbers draws.
//!
//! [`sample_constraints`] makes the system of so many rows. The rows are always the same: nothing
//! is random.
#![tactic(auto)]

mod draws;
mod samples;

pub use samples::sample_constraints;
