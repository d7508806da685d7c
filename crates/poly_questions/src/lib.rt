//! The commands that ask about polyhedra or the names: what each says, or why it is refused.
//!
//! - [`ask`] answers a `Question` about polyhedra that are looked up in a table of which some
//!   entries are polyhedra.
//! - [`one_answer`] is the law that a question which converts nothing has one answer.
//!
//! Each does what its meaning says: the first fault in the order of faults, an overflow of its own
//! arithmetic, or an answer that is right.
#![tactic(auto)]

mod commands;
mod files;
mod lattice;
mod laws;
mod optima;
mod questions;

pub use commands::ask;
pub use laws::one_answer;
