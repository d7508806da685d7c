//! The delay of a run.
ghost use Rattle.std.specs.Prelude.{◌<◌, ◌≤◌, MatchBool};

/// The largest delay.
const MAX_DELAY: u64 = 1_000_000;

/// Whether the delay is out of range.
pub fn is_too_long(delay: u64) -> bool
    ensures { MatchBool result (1000000 < delay) (delay ≤ 1000000) }
{
    delay > MAX_DELAY
}
