//! The machine's monotonic clock.
ghost use Rattle.std.specs.Prelude.{◌≡◌, ◌/◌, ◌<◌, ◌^◌, ◌↔◌, IfSome, IsSome};
ghost use Rattle.std.specs.Duration.{as_nanos};

use std::rt::Clock;
use std::time::Duration;

/// The monotonic clock, in whole microseconds since some moment before the program's start; None if
/// the machine gives no reading.
#[inline(always)]
pub(crate) fn machine_micros(rt: &impl Clock) -> Option<u64> {
    micros_of(rt.monotonic().ok()?)
}

/// The whole microseconds of a span; None exactly if they don't fit 64 bits. (Numbers of 128 bits, as
/// `as_micros` gives them, would be slower, and each turn of a daemon reads the clock three times.)
#[inline(always)]
fn micros_of(span: Duration) -> Option<u64>
    ensures value { IfSome result (λ micros. micros ≡ as_nanos span / 1000) }
    ensures fits { IsSome result ↔ (as_nanos span / 1000 < 2 ^ 64) }
{
    let whole = span.as_secs().checked_mul(1_000_000)?;
    whole.checked_add(u64::from(span.subsec_micros()))
}
