//! Laws of the reduced echelon form of lines and rays.

ghost use Rattle.cone_laws.specs.EchelonLaws.{UnitsAreEchelon, LineStepKeepsEchelon, RayStepKeepsEchelon};

/// The unit vectors in order are primitive lines in reduced echelon form.
pub fn units_are_echelon()
    ensures { UnitsAreEchelon }
{}

/// A step with a line that crosses the row keeps the reduced echelon form.
pub fn line_step_keeps_echelon()
    ensures { LineStepKeepsEchelon }
{}

/// A step that combines rays keeps the reduced echelon form.
pub fn ray_step_keeps_echelon()
    ensures { RayStepKeepsEchelon }
{}
