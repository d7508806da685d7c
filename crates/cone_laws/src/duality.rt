//! The bipolar law: a cone that is spanned is what its dual cone admits.

ghost use Rattle.cone_laws.specs.Duality.{AdmittedIsSpanned, SpannedIsAdmitted};

/// The lines and rays of a finite list span exactly what every row admits that is 0 on the lines
/// and at least 0 on the rays (Farkas, 1902; Weyl, 1935).
pub fn bipolar_law()
    ensures admitted_is_spanned { AdmittedIsSpanned }
    ensures spanned_is_admitted { SpannedIsAdmitted }
{}
