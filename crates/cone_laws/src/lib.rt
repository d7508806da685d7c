//! Cones of rows, what lines and rays span, and the laws of the canonical system;
//! a cone, the rows that are valid on it, and the canonical systems of both.
#![tactic(auto)]

pub mod adjacency;
pub mod duality;
pub mod echelon;
pub mod extreme_rays;
pub mod members;
pub mod steps;
pub mod system_steps;
pub mod uniqueness;
pub mod valid_rows;
