//! What a closed polyhedron stores: the canonical systems of its generators and of its constraints,
//! and which of the ones are 0 on which of the others.
//!
//! - [`constraint_list`] and [`generator_list`] are the lists of rows that are converted for a
//!   system of constraints or generators, [`joined_constraints`] and [`joined_generators`] those of
//!   two systems, and [`second_list`] that of a canonical system.
//! - [`stored_constraints`] and [`stored_generators`] are what canonical systems stand for;
//!   [`false_constraints`] is what the empty set stores, and [`axes`] are the lines of the set of
//!   all points.
//! - [`pair_zeros`], [`turned_zeros`] and [`divisor_zeros`] are tables of their zeros.
//! - [`generator_rows`], [`constraint_rows`], [`ray_marks`], [`inequality_marks`] and
//!   [`trimmed_rays`] make canonical systems of what is stored.
//! - [`first_lists`] says what the canonical systems of a list of constraints or generators are.
//! - [`stored_laws`] says what a polyhedron knows of its set by the two systems that it stores.
#![tactic(auto)]

mod axis_rows;
pub mod first_lists;
mod lists;
mod parts;
pub mod stored_laws;
mod storing;
mod storing_generators;
mod zeros;

pub use axis_rows::{axes, axis};
pub use lists::{
    constraint_list, divisor_row, generator_list, has_point, joined_constraints, joined_generators,
    second_list,
};
pub use parts::{constraint_rows, generator_rows, inequality_marks, ray_marks, trimmed_rays};
pub use storing::{false_constraints, stored_constraints};
pub use storing_generators::{push_generator, stored_generators};
pub use zeros::{divisor_zeros, pair_zeros, turned_zeros};
