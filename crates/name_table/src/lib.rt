//! A table of names, and what stands under each.
//!
//! - [`Names`] has at most [`MAX_NAMES`] names where its user asks for room first, and keeps them
//!   in the order in which they were made.
#![tactic(auto)]

mod names;
mod numbering;

pub use names::{MAX_NAMES, Names};
