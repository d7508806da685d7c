//! The values of texts of expressions, constraints and points.
//!
//! - [`expr_of`], [`frac_of`], [`point_of`], [`con_of`] and [`cons_of`] give the rows of texts that
//!   have their form, with blanks around it. A caller asks the recognizer of the grammar first.
//! - [`ValueErr`] says why such a text has no row.
//! - [`ratio_of`] gives the row and the divisor of a text of a generator before they are made a
//!   vector.
//! - [`one_reading`] and [`one_row`] are laws of the definitions that the contracts cite.
#![tactic(auto)]

mod cons;
mod laws;
mod rows;
mod scan;
mod terms;
mod texts;

pub use cons::{OneCon, con_of, cons_of};
pub use laws::{one_reading, one_row};
pub use terms::ValueErr;
pub use texts::{Frac, expr_of, frac_of, point_of, ratio_of};
