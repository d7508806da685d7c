//! Laws of the second system.

ghost use Rattle.minimise.specs.FlatRows.{FlatIsZeroOnRays};
ghost use Rattle.minimise.specs.Bases.{EchelonIsNarrow, EchelonTakesLine};
ghost use Rattle.minimise.specs.SecondSystems.{SimplifiedIsSystem};
ghost use Rattle.minimise.specs.MinimalForms.{SystemIsMinimal, FormedIsSystem};

/// The rows that are 0 on the whole cone are those that are 0 on its rays.
pub fn flat_rows()
    ensures { FlatIsZeroOnRays }
{}

/// The basis of the rows that are 0 on the cone, and one reduced row for each greatest set of zeros
/// of the others, are the system of the valid rows.
pub fn simplified_is_system()
    ensures { SimplifiedIsSystem }
{}

/// A list in reduced echelon form has at most as many lines as columns.
pub fn echelon_is_narrow()
    ensures { EchelonIsNarrow }
{}

/// A list in reduced echelon form takes in a line whose pivot is new.
pub fn echelon_takes_line()
    ensures { EchelonTakesLine }
{}

/// The system of a cone is in minimal form.
pub fn system_is_minimal()
    ensures { SystemIsMinimal }
{}

/// The reduced echelon basis of lines, and rays reduced by it, are a system where the lines and
/// rays are in minimal form.
pub fn formed_is_system()
    ensures { FormedIsSystem }
{}
