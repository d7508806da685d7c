//! Which canonical systems meet the conditions of the decoding and the strong calls.
ghost use Rattle.nnc_enc.specs.Conditions.{ConstraintsHaveVectors, GeneratorsHaveRows, RowsHaveVectors, VectorsHaveRows};

/// Where some ray is positive in column e, the system of the list of constraints is one of vectors.
pub fn constraints_have_vectors()
    ensures { ConstraintsHaveVectors }
{}

/// The system of the list of generators with a point is one of valid rows.
pub fn generators_have_rows()
    ensures { GeneratorsHaveRows }
{}

/// The list of a system of vectors has a system of valid rows.
pub fn vectors_have_rows()
    ensures { VectorsHaveRows }
{}

/// The list of a system of valid rows has a system of vectors.
pub fn rows_have_vectors()
    ensures { RowsHaveVectors }
{}
