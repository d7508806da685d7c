//! Laws of bounds and relations.
ghost use Rattle.optimum.specs.Laws.{HasOneBound, HasOneSup, HasOneRelation, GeneratorIsWitness};

/// A set has no point, or no bound, or one bound, which is attained or isn't.
pub fn one_bound()
    ensures { HasOneBound }
{}

/// The generators in their order give one answer to `sup`, and one to `inf`.
pub fn one_sup()
    ensures { HasOneSup }
{}

/// They give one answer to `relation`.
pub fn one_relation()
    ensures { HasOneRelation }
{}

/// The generator that an answer numbers shows the bound: it is a point of the set's closure that
/// has the bound as its value, and a point of the set exactly where the bound is attained.
pub fn generator_is_witness()
    ensures { GeneratorIsWitness }
{}
