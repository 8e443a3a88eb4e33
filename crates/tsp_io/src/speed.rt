//! How far a counter comes at its rate.
ghost use Rattle.std.specs.Prelude.{◌≡◌, ℕ, ◌≤◌, ◌*◌, ◌/◌, ◌^◌, nat_abs, pos, ◌+ℤ◌};
ghost use Rattle.tsp_io.specs.Speeds.{reach, speed_of};

/// The machine's own rate: so many ticks in 10^9 microseconds.
const OWN: i64 = 1_000_000_000;

/// How many ticks pass at this rate in 10^9 microseconds.
pub(crate) fn speed_of(rate: i64) -> u64
    requires { nat_abs rate ≤ 1000000 }
    ensures value { result ≡ speed_of rate }
    ensures low { 999000000 ≤ result }
    ensures high { result ≤ 1001000000 }
{
    (OWN + rate) as u64
}

/// After how many whole microseconds so many ticks have passed at this speed.
pub(crate) fn reach(speed: u64, ticks: u64) -> u64
    requires low { 999000000 ≤ speed }
    requires high { speed ≤ 1001000000 }
    requires ticks { ticks ≤ 2 ^ 51 }
    ensures value { result ≡ reach speed ticks }
    ensures few { result ≤ 2254054054054054 }
    ensures come { ticks ≤ result * speed / 1000000000 }
    ensures first { (e : ℕ) → ticks ≤ e * speed / 1000000000 → result ≤ e }
{
    let needed = ticks as u128 * 1_000_000_000;
    ((needed + (speed as u128 - 1)) / speed as u128) as u64
}

/// The moment so many microseconds later, in nanoseconds.
pub(crate) fn nanos_after(nanos: i64, micros: u64) -> i64
    requires nanos { nat_abs nanos ≤ 2 ^ 61 }
    requires micros { micros ≤ 2254054054054054 }
    ensures { result ≡ nanos +ℤ pos (1000 * micros) }
{
    nanos + (1_000 * micros) as i64
}
