//! Conversion of a cone between its rows and its canonical system of lines and rays, by
//! Chernikova's algorithm, which is also called the double description method (T. S. Motzkin et
//! al., 1953; N. V. Chernikova, 1965).
//!
//! - [`convert`] takes in one row after another, and [`Cone`] is what it gives.
//! - [`convert_in_better_order`] gives the same, by whichever of two orders of the rows is done
//!   first.
//! - [`add_rows`] takes further rows into such a system. [`add_rows_from`] does so with one list
//!   and an index, without a copy of the list; its answer [`Added`] also tells whether the rows
//!   changed the system.
#![tactic(auto)]

mod beside;
mod better_order;
mod cone;
mod conversion;
mod fault;
mod list_order;
mod lists;
mod order;
mod plan;
mod scratch;
mod step;
mod system;
mod taking;

pub use better_order::convert_in_better_order;
pub use cone::{Added, Cone};
pub use conversion::{add_rows, add_rows_from, convert};
