//! Rows of exact integers in one buffer, which are appended without memory once it is reserved, and
//! what a step of a conversion makes of them.
//!
//! - [`RowStore`] keeps rows, and combines two of them in place.
//! - [`VectorList`] keeps the lines or the rays of a system, with one mark. [`values`] gives their
//!   values on a row; [`last_crossing`], [`all_meet`], [`count_meeting`] and [`marks`] tell from
//!   these how they lie to it.
//! - [`line_step`] is the step with a row that isn't 0 on some line of a system, and [`ray_step`]
//!   that with a row that is 0 on all lines.
//! - [`combine`] gives the combination of two vectors that is 0 on a row.
//! - [`ValueFault`] and [`CombineFault`] name vectors whose value or combination leaves the range.
#![tactic(auto)]

mod combination;
mod combining;
mod fault;
mod line_steps;
mod ray_steps;
mod row_values;
mod store;
mod vectors;
mod windows;

pub use combination::combine;
pub use fault::{CombineFault, Part, Place, ValueFault};
pub use line_steps::{SystemOnRow, line_step};
pub use ray_steps::ray_step;
pub use row_values::{
    Marks, Values, all_meet, count_meeting, last_crossing, mark_pairs, marks, values,
};
pub use store::RowStore;
pub use vectors::{Crossing, VectorList, make_empty};
