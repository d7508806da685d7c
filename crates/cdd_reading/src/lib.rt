//! Files of constraints and of generators in the format of cdd and lrs, as they are read.
//!
//! - [`read_ine`] and [`read_ext`] give the list that a file holds, or the fault for which it is
//!   refused. [`one_answer`] is the law that no file has two answers. [`is_end`] tells the line
//!   that ends a file, and [`linearity_after_end`] looks behind it.
//! - [`rows_are_scaled`] is the law of a row of fractions, whose arithmetic is [`common_divisor`],
//!   [`quotient`] and [`signed`].
#![tactic(auto)]

mod body;
mod cuts;
mod file;
mod format;
mod head;
mod laws;
mod marks;
mod numbers;
mod quotients;
mod read;
mod store;
mod table;
mod tokens;
mod values;

pub use file::{is_end, linearity_after_end};
pub use format::{Format, NumberType};
pub use laws::{one_answer, rows_are_scaled};
pub use quotients::{common_divisor, quotient, signed};
pub use read::{read_ext, read_ine};
pub use reply_text::{Fault, ReadErr};
