//! Laws of the lists that encode constraints and generators.

ghost use Rattle.nnc_enc.specs.EncodedDuals.{DualIsEncoded, EncodedHasDual};
ghost use Rattle.nnc_enc.specs.EncodedGenerators.{CodedIsSpanned, GeneratorsEncode, SpannedIsCoded};
ghost use Rattle.nnc_enc.specs.Encoding.{ConstraintsAreCoded, ConstraintsEncode};

/// The list of a system of constraints codes exactly the points at which they hold.
pub fn constraints_code()
    ensures coded { ConstraintsAreCoded }
    ensures encoded { ConstraintsEncode }
{}

/// The list of a system of generators with a point has an encoded dual, and codes what
/// the generators span.
pub fn generators_code()
    ensures encoded { GeneratorsEncode }
    ensures coded { SpannedIsCoded }
    ensures spanned { CodedIsSpanned }
{}

/// The rows that are valid on an encoded cone with a point are an encoded dual, and what an encoded
/// dual admits is an encoded cone with a point.
pub fn duals_are_encoded()
    ensures dual { EncodedHasDual }
    ensures cone { DualIsEncoded }
{}
