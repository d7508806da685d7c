//! Laws of adjacent rays, and of systems without a ray to spare.

ghost use Rattle.cone_laws.specs.AdjacencyLaws.{FaceLaw, RayStepIsMinimal, LineStepIsIrredundant, NoRayIsIrredundant, RaysAreNotZero, OneMoreLaw, TooFewLaw};

/// Two rays of a system without a ray to spare are adjacent exactly where no third ray is 0 on
/// each row on which both are (Fukuda and Prodon, 1996).
pub fn face_law()
    ensures { FaceLaw }
{}

/// A step that combines adjacent rays alone keeps the system of the cone minimal.
pub fn ray_step_is_minimal()
    ensures { RayStepIsMinimal }
{}

/// A step with a line that crosses the row leaves no ray to spare where none was.
pub fn line_step_is_irredundant()
    ensures { LineStepIsIrredundant }
{}

/// Where there is no ray, none is to spare.
pub fn no_ray_is_irredundant()
    ensures { NoRayIsIrredundant }
{}

/// Where no ray is to spare, no ray is 0.
pub fn rays_are_not_zero()
    ensures { RaysAreNotZero }
{}

/// Where one of two rays is 0 on just one row more than on those on which both are, no third ray
/// stands between them.
pub fn one_more_law()
    ensures { OneMoreLaw }
{}

/// Where too few rows are 0 on both of two rays, a third ray stands between them.
pub fn too_few_law()
    ensures { TooFewLaw }
{}
