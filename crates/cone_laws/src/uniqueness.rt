//! Laws of the canonical system:
//! it is unique, and it doesn't depend on the order in which its rays are found.

ghost use Rattle.cone_laws.specs.UniqueLaws.{HasOnePrimitive, SystemIsUnique, CanonIsUnique, OrderIsLexicographic, OrderKeepsSystem, SortedSystemIsCanon};

/// A row is a positive multiple of one primitive row alone, so all ways of making it primitive have
/// one answer.
pub fn one_primitive()
    ensures { HasOnePrimitive }
{}

/// Two systems of one cone have the same lines, and the same rays but for their order.
pub fn system_is_unique()
    ensures { SystemIsUnique }
{}

/// A cone has one canonical system.
pub fn canon_is_unique()
    ensures { CanonIsUnique }
{}

/// In each order of its rays a system is a system.
pub fn order_keeps_system()
    ensures { OrderKeepsSystem }
{}

/// A system with its rays in descending order is the canonical system.
pub fn sorted_system_is_canon()
    ensures { SortedSystemIsCanon }
{}

/// Comparing two vectors of one width entry by entry tells which of them is greater.
pub fn order_is_lexicographic()
    ensures { OrderIsLexicographic }
{}
