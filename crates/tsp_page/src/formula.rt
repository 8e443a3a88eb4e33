//! The daemon's clock by its half of the page.
ghost use Rattle.std.specs.Prelude.{◌≡◌, ◌≤◌, ◌<◌, ◌+◌, ◌-◌, ◌^◌, ℤ, pos, negsuc, nat_abs, ◌*ℤ◌, ◌≤ℤ◌, ◌<ℤ◌, ◌↔◌, IsTrue};
ghost use Rattle.tsp_page.specs.Formula.{tick_at, elapsed, gained, target_at, rest_at, shown_at};
ghost use Rattle.tsp_page.specs.Sound.{IsSoundCount, IsSoundDaemon, IsSoundLook};

use crate::daemon_half::DaemonHalf;
use crate::look_half::LookHalf;
use tsp_base::constants::SLEW;
use tsp_clock::slew::eased;

/// One part in 10^9.
const BILLION: i64 = 1_000_000_000;

/// The greatest size of a time on a page in microseconds.
const FARTHEST: u64 = 1 << 56;

impl DaemonHalf {
    /// Whether a daemon can have written this half. One that isn't sound counts as a stale one.
    pub fn is_sound(&self) -> bool
        ensures { IsTrue result ↔ IsSoundDaemon self.now }
    {
        self.counts_soundly()
            && self.target.unsigned_abs() <= FARTHEST
            && self.rest.unsigned_abs() <= FARTHEST
            && self.moved.unsigned_abs() <= FARTHEST
    }

    /// Whether a daemon can count by these numbers.
    fn counts_soundly(&self) -> bool
        ensures { IsTrue result ↔ IsSoundCount self.now }
    {
        0 <= self.origin
            && self.origin < 1 << 62
            && self.origin_tick <= 1 << 51
            && self.rate.unsigned_abs() <= 1_000_000
            && self.tick <= 1 << 53
    }

    /// The daemon's tick at a nanosecond of the clock by which it counts, below 2^62: `origin_tick` and the whole
    /// microseconds since, and `rate` parts in 10^9 of them, rounded down. It is negative only before the origin.
    pub fn tick_at(&self, now: u64) -> i64
        requires sound { IsSoundDaemon self.now }
        requires now { now < 2 ^ 62 }
        ensures value { result ≡ tick_at self.now now }
        ensures low { negsuc 4616297729932600 ≤ℤ result }
        ensures high { result ≤ℤ pos (2 ^ 53) }
    {
        let elapsed = self.elapsed(now);
        self.origin_tick as i64 + elapsed + gained(self.rate, elapsed)
    }

    /// The whole microseconds since the origin.
    fn elapsed(&self, now: u64) -> i64
        requires sound { IsSoundDaemon self.now }
        requires now { now < 2 ^ 62 }
        ensures value { result ≡ elapsed self.now now }
        ensures small { nat_abs result ≤ 4611686018427388 }
    {
        (now as i64 - self.origin).div_euclid(1000)
    }

    /// What the daemon's clock aims at, at a tick of at most 2^53, in microseconds since 1970.
    pub fn target_at(&self, tick: u64) -> i64
        requires sound { IsSoundDaemon self.now }
        requires tick { tick ≤ 2 ^ 53 }
        ensures value { result ≡ target_at self.now tick }
        ensures small { nat_abs result ≤ 2 ^ 56 + 2 ^ 53 }
    {
        self.target + (tick as i64 - self.tick as i64)
    }

    /// What the page shows at a tick of at most 2^53, in microseconds since 1970: the clock's shown value, and never less
    /// than `least`.
    pub fn shown_at(&self, tick: u64) -> i64
        requires sound { IsSoundDaemon self.now }
        requires tick { tick ≤ 2 ^ 53 }
        ensures { result ≡ shown_at self.now tick }
    {
        let shown = self.target_at(tick) - self.rest_at(tick);
        if shown < self.least {
            self.least
        } else {
            shown
        }
    }

    /// What is still to be slewed at a tick.
    fn rest_at(&self, tick: u64) -> i64
        requires sound { IsSoundDaemon self.now }
        ensures value { result ≡ rest_at self.now tick }
        ensures small { nat_abs result ≤ 2 ^ 56 }
    {
        eased(self.rest, tick.saturating_sub(self.tick) / SLEW)
    }
}

impl LookHalf {
    /// Whether a supervisor can have written this half. One that isn't sound counts as none.
    pub fn is_sound(&self) -> bool
        ensures { IsTrue result ↔ IsSoundLook self.now }
    {
        self.moved.unsigned_abs() <= FARTHEST
            && self.low.unsigned_abs() <= FARTHEST
            && self.high.unsigned_abs() <= FARTHEST
            && self.drift <= 1000
    }
}

/// The rate's part of so many microseconds, rounded down. It divides in 64 bits.
fn gained(rate: i64, elapsed: i64) -> i64
    requires rate { nat_abs rate ≤ 1000000 }
    requires elapsed { nat_abs elapsed ≤ 4611686018427388 }
    ensures value { result ≡ gained rate elapsed }
    ensures small { nat_abs result ≤ 4611686018428 }
{
    let whole = times(elapsed.div_euclid(BILLION), rate);
    let part = times(elapsed.rem_euclid(BILLION), rate);
    whole + part.div_euclid(BILLION)
}

/// A product with a rate.
fn times(count: i64, rate: i64) -> i64
    requires count { nat_abs count ≤ 1000000000 }
    requires rate { nat_abs rate ≤ 1000000 }
    ensures value { result ≡ count *ℤ rate }
    ensures small { nat_abs result ≤ 1000000000000000 }
{
    count * rate
}
