//! Laws of added and joined variables, over their definitions alone.
ghost use Rattle.dimensions.specs.Laws.{EmbeddingIsUndone, ProjectionIsUndone, FirstFactorIsBack, SecondFactorIsBack};

/// Without the variables that were added free, a set is as before.
pub fn embedding_is_undone()
    ensures { EmbeddingIsUndone }
{}

/// Without the variables that were added as 0, a set is as before.
pub fn projection_is_undone()
    ensures { ProjectionIsUndone }
{}

/// A product with a set that has a point is the first set, without the variables behind.
pub fn first_factor_is_back()
    ensures { FirstFactorIsBack }
{}

/// A product behind a set that has a point is the second set, without the first variables.
pub fn second_factor_is_back()
    ensures { SecondFactorIsBack }
{}
