//! Clocks whose monotonic one nobody slews.
ghost use Rattle.std.specs.Prelude.{◌≡◌, ℕ, ◌+◌, ◌*◌, ◌<◌, IfSome, IsSome, pos, if◌then◌else◌};
ghost use Rattle.std.specs.Duration.{as_nanos};

use crate::counter::Counter;
use libc::types::timespec;
use std::io;
use std::io::ErrorKind;
use std::rt::Clock;
use std::time::Duration;

/// Linux's number of `CLOCK_MONOTONIC_RAW`.
const RAW: i32 = 4;

/// The clocks of `rt`, but the monotonic one is Linux's `CLOCK_MONOTONIC_RAW`, if that is wanted. Where
/// the system doesn't give it, the monotonic one is that of `rt`, Linux's `CLOCK_MONOTONIC`. Which of
/// both it is, is settled when this is made, since the two count from different moments.
#[derive(Drop)]
pub struct Unslewed<R> {
    rt: R,
    counter: Counter,
}

impl<R: Clock> Unslewed<R> {
    /// Clocks whose monotonic one is the counter that is wanted, if the machine gives a reading of it now.
    pub fn new(rt: R, wanted: Counter) -> Unslewed<R>
        ensures clocks { result.rt ≡ rt }
        ensures monotonic { wanted ≡ Counter.Monotonic → result.counter ≡ Counter.Monotonic }
    {
        let counter = match wanted {
            Counter::Raw => raw_if(reading_of(RAW).is_some()),
            Counter::Monotonic => Counter::Monotonic,
        };
        Unslewed { rt, counter }
    }

    /// Which counter of the machine the monotonic clock is.
    pub fn counter(&self) -> Counter
        ensures { result ≡ self.now.counter }
    {
        self.counter
    }
}

/// The raw counter if it is there, and else the other.
fn raw_if(there: bool) -> Counter
    ensures { result ≡ (if there then Counter.Raw else Counter.Monotonic) }
{
    if there {
        Counter::Raw
    } else {
        Counter::Monotonic
    }
}

impl<R: Clock> Clock for Unslewed<R> {
    fn monotonic(&self) -> io::Result<Duration> {
        match self.counter {
            Counter::Raw => reading_of(RAW).ok_or_else(|| io::Error::from(ErrorKind::Unsupported)),
            Counter::Monotonic => self.rt.monotonic(),
        }
    }

    fn since_1970(&self) -> io::Result<Duration> {
        self.rt.since_1970()
    }

    fn sleep(&self, duration: Duration) {
        self.rt.sleep(duration)
    }
}

/// The time of the machine's clock with this number since some moment before the program's start; None if the
/// machine gives no reading.
#[inline(always)]
pub(crate) fn reading_of(clock: i32) -> Option<Duration> {
    let mut time = timespec {
        tv_sec: 0,
        tv_nsec: 0,
    };
    if libc::clock_gettime(clock, &mut time) != 0 {
        return None;
    }
    span(time.tv_sec, time.tv_nsec)
}

/// So many seconds and nanoseconds; None exactly if there are fewer than 0 of either, or 10^9 nanoseconds
/// or more.
fn span(secs: i64, nanos: i64) -> Option<Duration>
    ensures sum { IfSome result (λ d. (s n : ℕ) → secs ≡ pos s → nanos ≡ pos n
        → as_nanos d ≡ s * 1000000000 + n) }
    ensures all { (s n : ℕ) → secs ≡ pos s → nanos ≡ pos n → n < 1000000000 → IsSome result }
{
    if secs < 0 || nanos < 0 || nanos >= 1_000_000_000 {
        return None;
    }
    Some(Duration::new(secs as u64, nanos as u32))
}
