//! Laws of images and preimages, over their definitions alone.
ghost use Rattle.affine_maps.specs.ImageResults.{EqualImageIsSubstituted, EqualPreimageIsSubstituted};
ghost use Rattle.affine_maps.specs.RelationLaws.{ImageIsShadow, PreimageIsShadow};
ghost use Rattle.affine_maps.specs.Laws.{ImageIsUndone};

/// Where the variable has a part in the expression, the preimage of the image is the set.
pub fn image_is_undone()
    ensures { ImageIsUndone }
{}

/// The image of a set by a relation is what its constraints with one more variable become where
/// that variable takes the place of the mapped one.
pub fn image_is_shadow()
    ensures { ImageIsShadow }
{}

/// The preimage of a set by a relation is what its constraints with one more variable in the place
/// of the mapped one become without that variable.
pub fn preimage_is_shadow()
    ensures { PreimageIsShadow }
{}

/// The image and the preimage by equality are those by the map that replaces the variable by the
/// expression over the divisor.
pub fn equality_is_substitution()
    ensures image { EqualImageIsSubstituted }
    ensures preimage { EqualPreimageIsSubstituted }
{}
