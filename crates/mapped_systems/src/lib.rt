//! Systems of constraints and generators whose rows are mapped: a variable replaced by an
//! expression, and variables added or taken away.
//!
//! - [`image_generators`] and [`preimage_constraints`] replace a variable, and [`inverse_row`] is
//!   the expression that undoes this.
//! - [`padded_generators`] and [`padded_constraints`] have more columns, all 0;
//!   [`picked_generators`] and [`remaining_generators`] have fewer.
//! - [`joined_constraints`] are those of two systems, on variables side by side.
#![tactic(auto)]

mod columns;
mod inverse_rows;
pub mod laws;
mod mapped;
mod pulled;
mod refusals;
mod substitution;

pub use inverse_rows::inverse_row;
pub use mapped::{image_generators, padded_generators, picked_generators, remaining_generators};
pub use pulled::{joined_constraints, padded_constraints, preimage_constraints};
