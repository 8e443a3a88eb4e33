//! The rate at which a counter runs beside the machine's clock.
ghost use Rattle.std.specs.Prelude.{◌≡◌, ◌≤ℤ◌, ◌↔◌, ◌+ℤ◌, IsSome, IfSome, pos, negsuc};
ghost use Rattle.tsp_io.specs.Clocks.{IsSpeed, counted};

/// The machine's own rate: so many ticks in 10^9 microseconds.
const OWN: i64 = 1_000_000_000;

/// How far a counter comes while the machine's clock comes 10^9 microseconds: from 999,000,000 to
/// 1,001,000,000 ticks.
#[derive(Clone, Copy, PartialEq, Eq, Debug)]
pub struct Rate {
    speed: u32,
    ghost range: { IsSpeed speed },
}

impl Rate {
    /// The machine's own rate.
    pub fn own() -> Rate
        ensures { result.speed ≡ 1000000000 }
    {
        Rate {
            speed: 1_000_000_000,
        }
    }

    /// The rate that is so many parts in 10^9 above the machine's, or below it; None exactly where
    /// that isn't from -1,000,000 to 1,000,000.
    pub fn of(parts: i64) -> Option<Rate>
        ensures range { IsSome result ↔ ((negsuc 999999 ≤ℤ parts) × (parts ≤ℤ pos 1000000)) }
        ensures value { IfSome result (λ rate. pos rate.speed ≡ pos 1000000000 +ℤ parts) }
    {
        if parts < -1_000_000 || parts > 1_000_000 {
            return None;
        }
        Some(Rate {
            speed: (OWN + parts) as u32,
        })
    }

    /// How many parts in 10^9 it is above the machine's.
    pub fn parts(&self) -> i64
        ensures { pos 1000000000 +ℤ result ≡ pos self.now.speed }
    {
        i64::from(self.speed) - OWN
    }

    /// How far the counter has come when the machine's clock has come `elapsed` microseconds: rounded
    /// down, and at most 2^61.
    #[tactic(auto, using(crate::proofs::RateLemmas::by_parts, crate::proofs::RateLemmas::own))]
    pub fn ticks(&self, elapsed: u64) -> u64
        ensures { result ≡ counted self.now.speed elapsed }
    {
        // (Most counters run at the machine's own rate, and each turn of a daemon asks twice.)
        if self.speed == 1_000_000_000 {
            return elapsed.min(1 << 61);
        }
        if elapsed >= 1 << 62 {
            return 1 << 61;
        }
        // (By whole quotients and what is left of them, no number of 128 bits is divided.)
        let speed = self.speed as u64;
        let whole = elapsed / 1_000_000_000 * speed;
        let part = elapsed % 1_000_000_000 * speed / 1_000_000_000;
        (whole + part).min(1 << 61)
    }
}
