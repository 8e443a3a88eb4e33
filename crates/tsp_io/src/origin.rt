//! How ticks are counted from one of the machine's counters.
ghost use Rattle.std.specs.Prelude.{◌≡◌, ◌↔◌, IsTrue};

use crate::speed::{nanos_after, reach, speed_of};

/// A rate is at most so many parts in 10^9 above or below the machine's.
const MOST: u64 = 1_000_000;

/// A moment of a counter of the machine, the tick at it, and the rate of ticks from then on: when the
/// counter has come `e` whole microseconds since, `e + floor(e * rate / 10^9)` ticks have passed. So a
/// program that reads the same counter counts the same ticks.
#[derive(Clone, Copy, PartialEq, Eq, Debug)]
pub struct Origin {
    /// The number that Linux gives the counter: 4 for `CLOCK_MONOTONIC_RAW`, 1 for `CLOCK_MONOTONIC`.
    pub counter: u64,
    /// The moment, in nanoseconds of the counter.
    pub nanos: i64,
    /// The tick at that moment.
    pub tick: u64,
    /// How many parts in 10^9 ticks are faster than the counter.
    pub rate: i64,
}

impl Origin {
    ghost use Rattle.tsp_io.specs.Origins.{CanRetune, IsNear, IsOther, retuned};

    /// From where ticks are counted at another rate from this tick on: from the first whole microsecond
    /// at which it had passed. None if the rate is the same; if it is beyond 1,000,000 parts in 10^9; if
    /// the tick is one before this moment, or past 2^51; and if the moment is more than 2^61 nanoseconds.
    pub fn retuned(&self, tick: u64, rate: i64) -> Option<Origin>
        ensures { result ≡ retuned tick rate self.now }
    {
        if self.can_retune(tick, rate) {
            let since = reach(speed_of(self.rate), tick - self.tick);
            Some(Origin {
                counter: self.counter,
                nanos: nanos_after(self.nanos, since),
                tick,
                rate,
            })
        } else {
            None
        }
    }

    /// Whether ticks can be counted at another rate from this tick on.
    fn can_retune(&self, tick: u64, rate: i64) -> bool
        ensures { IsTrue result ↔ CanRetune tick rate self.now }
    {
        self.is_other(rate) && self.is_near(tick)
    }

    /// Whether this is another rate; neither is beyond its bound.
    fn is_other(&self, rate: i64) -> bool
        ensures { IsTrue result ↔ IsOther rate self.now }
    {
        rate.unsigned_abs() <= MOST
            && self.rate.unsigned_abs() <= MOST
            && speed_of(rate) != speed_of(self.rate)
    }

    /// Whether this tick is none before the moment, and all numbers stay far from the ends of 64 bits.
    fn is_near(&self, tick: u64) -> bool
        ensures { IsTrue result ↔ IsNear tick self.now }
    {
        self.tick <= tick && tick <= 1 << 51 && self.nanos.unsigned_abs() <= 1 << 61
    }
}
