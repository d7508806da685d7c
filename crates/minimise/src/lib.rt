//! The second system of a cone, from its rows and the zeros of its rays.
//!
//! - [`simplify`] gives the canonical system of all rows that are valid on the cone, or the
//!   combination that leaves the range; [`Simplified`] is its answer.
//! - [`reduced_parts`] brings lines and rays in minimal form to reduced echelon form.
#![tactic(auto)]

mod bases;
mod facets;
mod fault;
mod forming;
mod laws;
mod parts;
mod rays;
mod reduction;
mod second_system;
mod second_table;

pub use forming::reduced_parts;
pub use laws::{
    echelon_is_narrow, echelon_takes_line, flat_rows, formed_is_system, simplified_is_system,
    system_is_minimal,
};
pub use second_system::{Simplified, simplify};
