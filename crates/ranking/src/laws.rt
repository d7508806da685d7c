//! Laws of ranking functions.
ghost use Rattle.ranking.specs.Laws.{PrintedFunctionRanks};
ghost use Rattle.ranking.specs.Runs.{RankedRunsAreBounded, RankedRunsEnd};

/// What is printed of the ranking functions of a relation is one of them: at each pair of a state
/// and its successor it is at least 0 at the state and falls by at least 1. It is `none` exactly
/// where no affine function does so.
pub fn printed_function_ranks()
    ensures { PrintedFunctionRanks }
{}

/// A run that keeps to a relation that has a ranking function, and takes a step, takes at most as
/// many as the first value, rounded down, and one more. No run is infinite.
pub fn ranked_runs_end()
    ensures bounded { RankedRunsAreBounded }
    ensures ended { RankedRunsEnd }
{}
