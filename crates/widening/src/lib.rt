//! The standard widening of closed polyhedra, and updates that end.
//!
//! - [`widen`] replaces a polyhedron that is included in another by one that includes both and has
//!   some of their inequalities alone.
//! - [`update`] gives what a place of a run becomes where a larger set is found: that set while a
//!   delay remains, and then its widening.
//! - [`run`] takes rounds of [`Turns`], each of which joins something to the set of a place, until
//!   a whole round changes nothing.
//! - [`dot_overflow`] shows a row and a generator whose dot leaves the range.
//!
//! [`laws`] says that a number falls at each update, so that updates and runs end.
#![tactic(auto)]

mod inequalities;
mod kept;
pub mod laws;
mod least;
mod runs;
mod settled;
mod table;
mod turns;
mod updates;
mod values;
mod widenings;
mod zeros;

pub use runs::run;
pub use turns::Turns;
pub use updates::{Updated, update};
pub use values::dot_overflow;
pub use widenings::widen;
