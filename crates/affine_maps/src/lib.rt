//! Images, preimages, shadows and posts of polyhedra, on both topologies.
//!
//! - [`image`] and [`preimage`] replace a variable by what stands in an [`ImageRel`] to an
//!   expression.
//! - [`shadow`] keeps some columns of the points at which constraints hold, [`shadow_from`] begins
//!   with the stored pair of a polyhedron, and [`shadow_generators_from`] gives generators alone.
//! - [`post_from`] is the set of all successors of the states of a set by a relation, and
//!   [`post_generators`] gives generators of it.
//!
//! [`laws`] says which of them undo each other, and what images by relations are.
#![tactic(auto)]

mod carrying;
mod collapsing;
mod images;
mod inverse_maps;
pub mod laws;
mod orders;
mod posts;
mod related;
mod relations;
mod shadows;

pub use images::{image, preimage};
pub use posts::{later_variables, post_from, post_generators};
pub use relations::ImageRel;
pub use shadows::{shadow, shadow_from, shadow_generators_from};
