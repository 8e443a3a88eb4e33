//! Tick counters and their drift.
ghost use Rattle.std.specs.Prelude.{◌≡◌, ◌≤◌, ◌^◌, nat_abs};
ghost use Rattle.tsp_base.specs.Ticks.{tick_at, width};

/// How many ticks, at most, a counter's advance over `x` microseconds of true time differs from `x`, where
/// its drift is at most `drift` parts in a million.
pub fn width(drift: u32, x: u64) -> u64
    requires drift { drift ≤ 1000 }
    requires time { x ≤ 2 ^ 61 }
    ensures { result ≡ width drift x }
{
    ((drift as u128 * x as u128 + 999_999) / 1_000_000 + 1) as u64
}

/// The tick of a counter that gains `rate` microseconds a second, at a true time in microseconds.
pub fn tick_at(rate: i32, at: u64) -> u64
    requires rate { nat_abs rate ≤ 1000 }
    requires time { at ≤ 1000000000000000 }
    ensures { result ≡ tick_at rate at }
{
    if rate >= 0 {
        at + at * (rate as u64) / 1_000_000
    } else {
        at - (at * (rate.unsigned_abs() as u64) + 999_999) / 1_000_000
    }
}
