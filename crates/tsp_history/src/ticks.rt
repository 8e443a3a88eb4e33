//! Distances of ticks.
ghost use Rattle.std.specs.Prelude.{◌≤◌, ◌<◌, ◌+◌, MatchBool};

/// Whether a tick lies this many ticks or more before another.
pub(crate) fn is_far(early: u64, ticks: u64, late: u64) -> bool
    ensures { MatchBool result (early + ticks ≤ late) (late < early + ticks) }
{
    if late < ticks {
        return false;
    }
    early <= late - ticks
}
