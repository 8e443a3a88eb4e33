//! How what is still to be slewed gets less.
ghost use Rattle.std.specs.Prelude.{◌≡◌, ◌^◌, ◌<◌, nat_abs};
ghost use Rattle.tsp_base.specs.NodeFacts.{eased};

/// A number of microseconds, moved towards zero by so many and not past it.
pub fn eased(rest: i64, by: u64) -> i64
    requires { nat_abs rest < 2 ^ 63 }
    ensures { result ≡ eased rest by }
{
    let left = rest.unsigned_abs().saturating_sub(by) as i64;
    if rest < 0 { -left } else { left }
}
