//! Whether finitely many systems of inequalities have all points of a set.
//!
//! - [`Walls`] are the inequalities of a system, with what encodes them.
//! - [`uncovered`] shows a point of a set at which no system of a list holds, if there is one.
#![tactic(auto)]

mod branches;
mod contacts;
mod halfspaces;
mod inequalities;
mod parts;
mod pieces;
mod region;
mod search;
mod walls;

pub use branches::uncovered;
pub use walls::Walls;
