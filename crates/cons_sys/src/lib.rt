//! Systems of linear constraints, and whether they hold at a point.
//!
//! - [`ConKind`] says what a constraint asks of its row's value.
//! - [`ConsSys`] keeps a list of constraints over one dimension, each row primitive.
//! - [`same_points`] and [`one_answer`] are laws of the definitions that the contracts cite.
#![tactic(auto)]

mod kind;
mod laws;
mod system;

pub use kind::ConKind;
pub use laws::{one_answer, same_points};
pub use system::{ConsSys, Iter};
