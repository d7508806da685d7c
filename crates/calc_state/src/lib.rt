//! The calculator's table of names, and the step of one line.
//!
//! - [`Calc`] is the calculator, and [`Calc::step`] takes a line, and [`Calc::finish`] ends a
//!   script.
//! - [`StepErr`] says why a line was not accepted.
//! - [`one_first`], [`one_reply`] and [`names_stay_distinct`] are laws of the definitions that the
//!   contracts cite.
#![tactic(auto)]

mod calc;
mod change;
mod entry;
mod laws;
mod operands;
mod part_tests;
mod parts;
mod perform;

pub use calc::Calc;
pub use laws::{names_stay_distinct, one_first, one_reply};
pub use line_values::StepErr;
