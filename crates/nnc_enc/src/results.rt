//! What the decoding calls and the strong calls give.
ghost use Rattle.nnc_enc.specs.Coded.{RayIsCoded, SecondListAdmits};
ghost use Rattle.nnc_enc.specs.NeededGenerators.{StrongVectorsAreNeeded};
ghost use Rattle.nnc_enc.specs.Results.{DecodedRowsCode, DecodedVectorsCode, StrongRowsAreNeeded, StrongRowsCode, StrongVectorsCode};

/// Decoded constraints hold exactly at the points that the cone codes.
pub fn decoded_rows_code()
    ensures { DecodedRowsCode }
{}

/// Strong constraints hold exactly at the points that the cone codes.
pub fn strong_rows_code()
    ensures { StrongRowsCode }
{}

/// No strong constraint can be left out.
pub fn strong_rows_are_needed()
    ensures { StrongRowsAreNeeded }
{}

/// Decoded generators span exactly the points that the cone codes.
pub fn decoded_vectors_code()
    ensures { DecodedVectorsCode }
{}

/// Strong generators span exactly the points that the cone codes.
pub fn strong_vectors_code()
    ensures { StrongVectorsCode }
{}

/// No strong generator can be left out.
pub fn strong_vectors_are_needed()
    ensures { StrongVectorsAreNeeded }
{}

/// A ray that is positive in column e codes a point: the vector without column e.
pub fn ray_is_coded()
    ensures { RayIsCoded }
{}

/// The list of a system admits the cone that the system generates: what the second conversion of
/// a pair stands on.
pub fn second_list_admits()
    ensures { SecondListAdmits }
{}
