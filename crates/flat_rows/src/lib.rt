//! Rows of one width in one buffer, which are appended without memory once it is reserved.
//!
//! - [`FlatRows`] keeps them, whatever their entries are.
//! - [`push_and`] and [`widened`] are of rows of words.
#![tactic(auto)]

mod rows;
mod words;

pub use rows::FlatRows;
pub use words::{push_and, widened};
