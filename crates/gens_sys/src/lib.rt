//! Systems of generators, and what they span.
//!
//! - [`GenKind`] says what a vector generates, and [`GenPushErr`] why a vector is refused.
//! - [`GensSys`] keeps a list of generators over one dimension, each vector primitive.
//! - [`same_points`] is a law of what generators span.
#![tactic(auto)]

mod kind;
mod laws;
mod system;

pub use kind::{GenKind, GenPushErr};
pub use laws::same_points;
pub use system::{GensSys, Iter};
