//! Tables of truth values, with a row for each ray and a column for each constraint.
//!
//! - [`SatMatrix`] keeps the rows as bits, and is appended to without memory once it is reserved.
//! - [`crossings`] gives the pairs of adjacent rays on the two sides of a row, by what
//!   [`least_shared`] tells; [`PairLists`] keeps its lists, [`expected_looks`] says how much work.
//! - [`mark_zeros`], [`after_line_step`] and [`after_ray_step`] bring the table up to date.
#![tactic(auto)]

mod adjacency;
mod looks;
mod matrix;
mod narrowing;
mod ranking;
mod searches;
mod zeros;

pub use adjacency::{PairLists, Pairs, crossings, least_shared};
pub use looks::expected_looks;
pub use matrix::SatMatrix;
pub use zeros::{after_line_step, after_ray_step, mark_zeros};
