//! Laws of the sets that constraints and generators stand for, on both topologies: none speaks of
//! how they are stored.
//!
//! [`asks`] is the test of one value that they speak of.
#![tactic(auto)]

mod asking;
pub mod generators;
pub mod joined;

pub use asking::asks;
