//! Rows of truth values, 64 in each word, by lanes of words, and searches among such rows.
#![tactic(auto)]

mod cells;
mod counts;
mod kernels;
mod places;
mod searches;

pub use cells::{fill_front, mark_column, mark_zeros, write_behind};
pub use counts::{count, count_and, has_one_more};
pub use kernels::{and_into, is_subset_of_and, or_into};
pub use places::{get, is_subset, set, with_bit};
pub use searches::{has_covering_row, has_third_row, is_within_some, next_sharing};
