//! Answers of questions.

/// How the points of a set lie to a constraint.
#[derive(Clone, Copy)]
pub struct Relation {
    /// No point satisfies the constraint.
    pub disjoint: bool,
    /// Some point satisfies it and some doesn't.
    pub intersects: bool,
    /// Each point satisfies it.
    pub included: bool,
    /// The row is 0 at each point.
    pub saturates: bool,
}

/// The least upper or the greatest lower bound of an expression on a set.
#[derive(Clone, Copy)]
pub enum Sup {
    /// There is no point.
    Empty,
    /// There is no bound.
    Unbounded,
    /// The bound, in lowest terms.
    At {
        /// The numerator.
        num: i128,
        /// The denominator, at least 1.
        den: i128,
        /// Whether some point has this value.
        attained: bool,
        /// The generator that shows it: the first point, or else the first closure point,
        /// that has this value.
        index: usize,
    },
}
