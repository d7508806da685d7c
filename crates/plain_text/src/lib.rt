//! Bytes of plain text: the first of its lines, and digits.
//!
//! - [`first_line_feed`], [`without_return`] and [`split_line`] find where a line ends.
//! - [`is_nat`], [`number_up_to`] and [`digits_len`] read digits.
#![tactic(auto)]

mod digits;
mod lines;

pub use digits::{digits_len, is_nat, number_up_to};
pub use lines::{first_line_feed, split_line, without_return};
