//! Laws of the two systems that a closed polyhedron stores.
ghost use Rattle.stored_systems.specs.PairedSystems.{StoredListsTell};
ghost use Rattle.stored_systems.specs.StoredLaws.{StoredIsClosed, StoredIsEmpty, StoredIsPair, StoredIsIrredundant, StoredIsCanonical, StoredAdmitsValidRows, StoredInequalitiesTouch, StoredIsUnique};

/// There are neither strict constraints nor closure points.
pub fn stored_is_closed()
    ensures { StoredIsClosed }
{}

/// Without generators there is no point, and only then.
pub fn stored_is_empty()
    ensures { StoredIsEmpty }
{}

/// Both systems hold the same points.
pub fn stored_is_pair()
    ensures { StoredIsPair }
{}

/// No constraint and no generator can be left out.
pub fn stored_is_irredundant()
    ensures { StoredIsIrredundant }
{}

/// The systems are the canonical ones of the set.
pub fn stored_is_canonical()
    ensures { StoredIsCanonical }
{}

/// The generators tell which rows are valid on the set.
pub fn stored_admits_valid_rows()
    ensures { StoredAdmitsValidRows }
{}

/// Each inequality is 0 at a stored point.
pub fn stored_inequalities_touch()
    ensures { StoredInequalitiesTouch }
{}

/// A set has one pair of stored systems.
pub fn stored_is_unique()
    ensures { StoredIsUnique }
{}

/// Two sets of a dimension have the same points exactly where their constraints are one list, and
/// exactly where their generators are.
pub fn stored_lists_tell()
    ensures { StoredListsTell }
{}
