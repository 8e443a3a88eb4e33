//! By how much clocks part.
ghost use Rattle.std.specs.Prelude.{◌≡◌, ◌≤◌, ◌^◌};
ghost use Rattle.tsp_base.specs.Ticks.{width};
ghost use Rattle.tsp_page.specs.Formula.{spread};

use crate::layout::RECKONED;

/// By how many microseconds, at most, a counter's advance over `passed` microseconds differs from them, where its drift is
/// at most `drift` parts in a million. It divides in 64 bits.
pub fn width(drift: u64, passed: u64) -> u64
    requires drift { drift ≤ 1000 }
    requires passed { passed ≤ 18000000000000000 }
    ensures value { result ≡ width drift passed }
    ensures small { result ≤ 18000000000002 }
{
    (drift * passed + 999_999) / 1_000_000 + 1
}

/// By how many microseconds two clocks may have parted since the own counter was `passed` microseconds back, at most 2^53:
/// twice the width of the true time that may have passed. That is within `passed` and its width for 100 seconds, and
/// always within `passed` and twice its width.
pub fn spread(drift: u64, passed: u64) -> u64
    requires drift { drift ≤ 1000 }
    requires passed { passed ≤ 2 ^ 53 }
    ensures value { result ≡ spread drift passed }
    ensures small { result ≤ 36000000000004 }
{
    let own = width(drift, passed);
    let error = if passed > RECKONED { 2 * own } else { own };
    2 * width(drift, passed + error)
}
