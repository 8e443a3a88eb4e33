//! How far another clock is ahead, by an exchange of Timestamp messages.
ghost use Rattle.std.specs.Prelude.{◌≡◌, ◌<◌, ◌≤ℤ◌, ◌↔◌, IsTrue, IfSome, pos};
ghost use Rattle.tsp_icmp.specs.Days.{trip_of, shift_of, lesser_half, greater_half, difference_of, IsAtMost, Dayside};

/// The milliseconds of a day.
const DAY: u32 = 86_400_000;

/// The milliseconds of half a day.
const HALF_DAY: u32 = 43_200_000;

/// Whether a stamp is a standard time: milliseconds since midnight UT, below 86,400,000. (RFC 792 sets the
/// highest bit of any other.)
pub fn standard(v: u32) -> bool
    ensures { IsTrue result ↔ (v < 86400000) }
{
    v < DAY
}

/// From `early` to `late`, in milliseconds, where midnight may be between them.
pub fn trip(early: u32, late: u32) -> u32
    requires early { early < 86400000 }
    requires late { late < 86400000 }
    ensures value { pos result ≡ trip_of early late }
    ensures small { result < 86400000 }
{
    (late + DAY - early) % DAY
}

/// How far `r` is ahead of `o`, in milliseconds, from minus half a day to less than half a day.
fn shift(o: u32, r: u32) -> i64
    requires o { o < 86400000 }
    requires r { r < 86400000 }
    ensures { result ≡ shift_of o r }
{
    i64::from((r + DAY + HALF_DAY - o) % DAY) - i64::from(HALF_DAY)
}

/// How far another clock is ahead, and by how much that may be wrong, both in milliseconds.
///
/// The request was sent at `o`, and its reply came at `d`, by the own clock; the other clock read `r` in
/// between. All three are milliseconds since midnight UT, and midnight may be between them. None comes
/// exactly where the reply came half a day or more after the request.
pub fn difference(o: u32, r: u32, d: u32) -> Option<(i64, i64)>
    requires o { o < 86400000 }
    requires r { r < 86400000 }
    requires d { d < 86400000 }
    ensures value { result ≡ difference_of o r d }
    ensures none { (result ≡ None) ↔ (pos 43200000 ≤ℤ trip_of o d) }
    ensures range { IfSome result (λ x. IsAtMost (pos 64800000) x.0 × IsAtMost (pos 21600001) x.1) }
    ensures dayside { Dayside o r d result }
{
    let trip = trip(o, d);
    if trip >= HALF_DAY {
        return None;
    }
    let half = i64::from(trip / 2);
    Some((shift(o, r) - half, i64::from(trip) - half + 1))
}
