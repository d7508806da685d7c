//! Rows of exact integers, and arithmetic that says where it leaves the range.
//!
//! - [`RowBuf`], [`MarkedRows`] and [`RowList`] keep rows whose numbers are of the range, from
//!   `-(2^127 - 1)` to `2^127 - 1`.
//! - [`Memory`], [`Overflow`], [`PairOver`] and [`ConvErr`] are the answers that a call may refuse
//!   by.
//! - [`Steps`] counts combinations of two rows.
//! - [`dot`] and [`combine_into`] give the exact numbers, or the first column that leaves the
//!   range.
//! - [`product`], [`sum`] and [`combination`] give one exact number, if the range isn't left.
//! - [`bits`] tells how large the numbers of a row are; [`Summing`], [`combine_within`] and
//!   [`make_primitive_within`] are told it, and test nothing where all that they compute fits.
//! - [`word_dot`] and [`short_dot`] are for numbers of so few bits that they can't refuse.
//! - [`gcd`] and [`make_primitive`] divide a row by the greatest common divisor of its entries, and
//!   [`is_primitive`] tells whether there is none above 1; [`quotient`] divides one number, and
//!   [`negate`] changes all signs.
#![tactic(auto)]

mod buffers;
mod counting;
mod errors;
mod linear;
mod marked;
mod primitive;
mod signs;
mod sizes;

pub use buffers::{RowBuf, RowList};
pub use counting::Steps;
pub use errors::{ConvErr, Memory, OverKind, Overflow, PairOver};
pub use linear::{
    Summing, combination, combine_into, combine_within, dot, product, short_dot, sum,
};
pub use marked::{Iter, MarkedRows};
pub use primitive::{gcd, is_primitive, make_primitive, make_primitive_within, quotient};
pub use signs::negate;
pub use sizes::{bits, word_dot};
