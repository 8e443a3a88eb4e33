//! The protocol's numbers. All times are microseconds; deadlines are counted in a node's own ticks.
//!
//! A margin is the true time by which this number alone could change before the first promise fails, while
//! every clock drifts by 1,000 parts in a million. `docs/PROMISES.md` has the promises.
ghost use Rattle.std.specs.Prelude.{◌≡◌, pos};

/// Silent time after a boot. Margin: `LIFE + DATEHOLD` stays 4.8 s below it.
pub const QUIET: u64 = 80_000_000;

/// How long a backed candidate is held. Margin: 3.9 s above the least for which two strict winners of
/// one network lie 50 s apart, and 20 s of ticks below `QUIET`.
pub const HOLD: u64 = 60_000_000;

/// How long a search, a candidature and a resolution last. Margin: `WINDOW + SLACK` stays 3.9 s below
/// `HOLD` less the 50 s between two strict winners.
pub const WINDOW: u64 = 5_000_000;

/// The greatest lateness of a deadline that still acts. Margin: that of `WINDOW`, and
/// `CLOSE + SLACK + LAST + LIFE` stays 36.9 s below `QUIET`.
pub const SLACK: u64 = 1_000_000;

/// The least election delay, and the least time from a boot or a Quit to a candidature. Margin:
/// `LAST + LIFE` stays 265 s below it.
pub const ELECT_MIN: u64 = 300_000_000;

/// The election delay is `ELECT_MIN + word % ELECT_SPREAD`. No promise rests on it.
pub const ELECT_SPREAD: u64 = 300_000_000;

/// From one round's start to the next. No promise rests on it.
pub const ROUND: u64 = 240_000_000;

/// How long a round waits while another port of its node has one. No promise rests on it.
pub const WAIT: u64 = 20_000_000;

/// Between the exchanges of a round. No promise rests on it.
pub const PROBE: u64 = 1_000_000;

/// From a round's start to its close. Margin: 7 s of ticks above `GAP`, and that of `SLACK`.
pub const CLOSE: u64 = 8_000_000;

/// Between the posts of a numbered send. No promise rests on it.
pub const RETRY: u64 = 1_000_000;

/// How often a numbered send is posted at most, its first post included. No promise rests on it.
pub const TRIES: u64 = 3;

/// No repeat is posted later than this after its send began. Margin: `LIFE + LAST + LIFE` stays 5.9 s
/// below `REUSE`.
pub const LAST: u64 = 4_000_000;

/// After this long without a correction to a peer, one may begin with any number. Margin: that of
/// `LAST`.
pub const REUSE: u64 = 70_000_000;

/// The least time between two corrections that a follower takes. Margin: 32,768 of them last 9 hours
/// longer than the 64.1 s for which a number must not come again; and that of `CLOSE`.
pub const GAP: u64 = 1_000_000;

/// The width of a group of clocks that agree. No promise rests on it.
pub const SPAN: u64 = 20_000;

/// The greatest amount that is slewed in; a larger one steps the shown clock. No promise rests on it.
pub const MAXADJ: u64 = 20_000_000;

/// How many ticks it takes to slew one microsecond. No promise rests on it.
pub const SLEW: u64 = 200;

/// How long a master answers a repeated date request without setting its clock anew. Margin: 10.9 s of
/// ticks above `LIFE + LAST`, and that of `QUIET`.
pub const DATEHOLD: u64 = 45_000_000;

/// How often a LOOP may be passed on. No promise rests on it.
pub const HOPS: u8 = 10;

/// The longest life of a datagram, in true time. It is a premise of promises; no code reads it. Margin: all
/// promises hold up to 34.8 s.
pub const LIFE: u64 = 30_000_000;

/// A difference of this magnitude or more, 2^30 seconds, isn't averaged.
pub const FAR: i64 = 1_073_741_824_000_000;

/// The bound of a clock's value: 2^31 seconds.
pub const LIMIT: i64 = 2_147_483_648_000_000;

/// The greatest true time of a schedule, and the greatest magnitude of a wall clock in it.
pub const SCHEDULE_END: u64 = 1_000_000_000_000_000;

/// The value of each constant, since clauses elsewhere cite the names alone.
pub fn constants_have_these_values()
    ensures quiet { QUIET ≡ 80000000 }
    ensures hold { HOLD ≡ 60000000 }
    ensures window { WINDOW ≡ 5000000 }
    ensures slack { SLACK ≡ 1000000 }
    ensures elect_min { ELECT_MIN ≡ 300000000 }
    ensures elect_spread { ELECT_SPREAD ≡ 300000000 }
    ensures round { ROUND ≡ 240000000 }
    ensures wait { WAIT ≡ 20000000 }
    ensures probe { PROBE ≡ 1000000 }
    ensures close { CLOSE ≡ 8000000 }
    ensures retry { RETRY ≡ 1000000 }
    ensures tries { TRIES ≡ 3 }
    ensures last { LAST ≡ 4000000 }
    ensures reuse { REUSE ≡ 70000000 }
    ensures gap { GAP ≡ 1000000 }
    ensures span { SPAN ≡ 20000 }
    ensures max_adjust { MAXADJ ≡ 20000000 }
    ensures slew { SLEW ≡ 200 }
    ensures date_hold { DATEHOLD ≡ 45000000 }
    ensures hops { HOPS ≡ 10 }
    ensures life { LIFE ≡ 30000000 }
    ensures far { FAR ≡ pos 1073741824000000 }
    ensures limit { LIMIT ≡ pos 2147483648000000 }
    ensures schedule_end { SCHEDULE_END ≡ 1000000000000000 }
{}
