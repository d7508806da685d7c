//! Laws of the double description method (Motzkin, Raiffa, Thompson and Thrall, 1953;
//! Chernikova, 1964): from the unit vectors each step leads to the system of one row more.

ghost use Rattle.cone_laws.specs.SystemLaws.{EveryPrefixHasASystem, LineStepCount, LineStepKeepsSystem, RayStepCount, RayStepKeepsSystem, StartIsSystem};

/// The unit vectors as lines, without a ray, are the system of no row.
pub fn start_is_system()
    ensures { StartIsSystem }
{}

/// A step with a line that crosses the row leads to the system of one row more.
pub fn line_step_keeps_system()
    ensures { LineStepKeepsSystem }
{}

/// Where the row is 0 on all lines, a step with the adjacent rays on its two sides leads
/// to the system of one row more.
pub fn ray_step_keeps_system()
    ensures { RayStepKeepsSystem }
{}

/// The first rows of each list, however many, have a system.
pub fn every_prefix_has_a_system()
    ensures { EveryPrefixHasASystem }
{}

/// Where the row isn't 0 on some line, the system of one row more has at least as many lines
/// and rays as there were, but for one.
pub fn line_step_count()
    ensures { LineStepCount }
{}

/// Where the row is 0 on all lines,
/// the system of one row more has at least as many lines and rays as there are lines,
/// rays on which the row stays at its side, and pairs of adjacent rays on its two sides.
pub fn ray_step_count()
    ensures { RayStepCount }
{}
