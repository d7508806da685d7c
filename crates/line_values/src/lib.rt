//! Why a line is refused, what the parts of a line say, and what a command says or does to the
//! table of names.
//!
//! - [`StepErr`] says why a line was not accepted, [`refusal_of_pair`] where the arithmetic of two
//!   rows left the range.
//! - [`constraints_of`], [`generators_of`], [`point_of`], [`constraint_of`], [`expression_of`] and
//!   [`fraction_of`] read the part of a line, or give its first fault.
//! - [`Change`] is what an accepted command does, over entries of which some are polyhedra
//!   ([`PolyEntry`]).
//! - [`poly_at`] looks a polyhedron up, [`is_full`] tells whether there is no room for a name, and
//!   [`drop_name`] takes one out.
//! - [`answer`] and [`no_with_point`] are lines that answer a question.
#![tactic(auto)]

mod answers;
mod change;
mod entry;
mod operands;
mod proper;
mod refusal;
mod texts;

pub use answers::{answer, no_with_point};
pub use change::{Change, as_line, drop_name, ok, put_entry, put_numbered, put_poly, say};
pub use entry::PolyEntry;
pub use operands::{format_of, is_full, is_max, poly_at, topology_of};
pub use proper::{are_proper, is_proper};
pub use refusal::{StepErr, refusal_of_pair};
pub use texts::{
    constraint_of, constraints_of, expression_of, fraction_of, generators_of, point_of,
};
