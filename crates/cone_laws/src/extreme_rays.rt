//! Laws of extreme rays, and of the faces on which rows are 0.

ghost use Rattle.cone_laws.specs.ExtremeRays.{FaceOfRay, LikeRayIsSame, RayTouches, RaysAreExtreme, ZeroIsSpanned};

/// The rays of a system are extreme.
pub fn rays_are_extreme()
    ensures { RaysAreExtreme }
{}

/// A vector that is 0 on each row on which a ray is 0 is a multiple of the ray but for the lines.
pub fn face_of_ray()
    ensures { FaceOfRay }
{}

/// Each ray is 0 on some row on which a given vector of the cone is positive,
/// or that vector is a multiple of the ray but for the lines.
pub fn ray_touches()
    ensures { RayTouches }
{}

/// A primitive vector that is 0 at the pivots and is spanned by the lines and one ray is that ray.
pub fn like_ray_is_same()
    ensures { LikeRayIsSame }
{}

/// Where a valid row is 0, the lines and the rays on which it is 0 span the vector.
pub fn zero_is_spanned()
    ensures { ZeroIsSpanned }
{}
