//! What the words of a command line ask for.
//!
//! - [`Words`] are the words, and [`Words::job`] is the [`Job`] that they ask for, if any.
//! - [`words_of`] gives the arguments of the program as words.
#![tactic(auto)]

mod arguments;
mod job;
mod words;

pub use arguments::words_of;
pub use job::Job;
pub use words::Words;
