//! Rays in descending order, by the first column at which two of them differ, and the rows of a
//! list in sorted order.
//!
//! - [`descending_order`] gives the indices of the rays, the greatest first, [`is_descending`] tells
//!   whether they stand so, and [`rays_at`] gives the rays at some indices. All read any list that
//!   lends rows of one width ([`LendRows`]).
//! - [`sorted_order`] gives the indices of the rows in sorted order, [`places_of`] the place of
//!   each row in an order, and [`rows_at`] the rows at some indices.
#![tactic(auto)]

mod keys;
mod lending;
mod order;
mod row_order;

pub use lending::LendRows;
pub use order::{Indices, descending_order, is_descending, rays_at};
pub use row_order::{is_as_listed, places_of, rows_at, sorted_order};
