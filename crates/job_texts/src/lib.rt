//! The jobs of a call that read no script: a file that is converted, and a sample.
//!
//! - [`convert_file`] reads a file of constraints and writes the one of generators, or the other
//!   way round.
//! - [`write_sample`] writes the line of the sample of a number of rows.
#![tactic(auto)]

mod conversions;
mod samples;

pub use conversions::convert_file;
pub use samples::write_sample;
