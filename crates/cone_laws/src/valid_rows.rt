//! Laws of the dual cone: the rows that are at least 0 on a cone.

ghost use Rattle.cone_laws.specs.DualSystems.{ListOfSystem, SecondOfSecond, SpannedByTheList, SystemsAreDual, ValidIsDual};

/// The list of a system has its lines and its rays.
pub fn list_of_system()
    ensures { ListOfSystem }
{}

/// A row is at least 0 on a cone exactly where it is 0 on the lines and at least 0
/// on the rays that generate the cone.
pub fn valid_is_dual()
    ensures { ValidIsDual }
{}

/// The system of the valid rows admits the cone again (Farkas, 1902; Weyl, 1935).
pub fn second_of_second()
    ensures { SecondOfSecond }
{}

/// What a list spans is what the system of its valid rows admits.
pub fn spanned_by_the_list()
    ensures { SpannedByTheList }
{}

/// The canonical system of a list and the canonical system of its valid rows
/// are each that of what the other admits.
pub fn systems_are_dual()
    ensures { SystemsAreDual }
{}
