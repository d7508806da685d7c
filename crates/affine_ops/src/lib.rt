//! Images, preimages, posts and changes of the dimension of polyhedra, from one crate.
//!
//! [`affine_maps`] has images, preimages, shadows and posts, [`dimensions`] the calls that add and
//! take away variables, and [`mapped_systems`] the systems that both make.
#![tactic(auto)]

pub use affine_maps::{
    ImageRel, image, later_variables, post_from, post_generators, preimage, shadow, shadow_from,
    shadow_generators_from,
};
pub use dimensions::{concat, embed, project, remove_dims};
pub use mapped_systems::padded_constraints;
