//! Laws of the time elapse, by its definition alone.
ghost use Rattle.elapse.specs.ElapseLaws.{ElapseIncludesStart, ElapseMovesOn};

/// Each point of the first set is in the time elapse, where the second set has a point.
pub fn elapse_includes_start()
    ensures { ElapseIncludesStart }
{}

/// From each point of the time elapse each point of the second set leads to points of
/// the time elapse.
pub fn elapse_moves_on()
    ensures { ElapseMovesOn }
{}
