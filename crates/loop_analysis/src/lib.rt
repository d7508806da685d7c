//! Bounds of the variables of a loop.
//!
//! - [`Loop`] is a loop over rational variables: the constraints of its start, those of its guard,
//!   and the [`Assignment`]s of its body in order.
//! - [`find_bounds`] gives constraints that hold whenever control comes to the loop's head, and
//!   constraints that hold whenever it goes on behind the loop, in each run.
//!
//! What a run is stands in `specs/Runs.antt`, in words of points alone.
#![tactic(auto)]

mod analysis;
mod loops;
mod rounds;

pub use analysis::{Bounds, DELAY, find_bounds};
pub use loops::{Assignment, Loop};
