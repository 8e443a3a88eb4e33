//! The reader's formula of `tsp_page` for C: a static library of three functions. Programs don't need it, since
//! `tsp_clock.h` has the formula in C; the tests of that header compare it with these functions, which are proved.
//!
//! ```c
//! struct told { int64_t shown, earliest, latest; uint64_t age, life, steps; int32_t role, status; };
//! int64_t tsp_page_tick(const uint8_t *fields, size_t length, uint64_t now);
//! uint64_t tsp_page_spread(uint64_t drift, uint64_t passed);
//! int32_t tsp_page_read(const uint8_t *page, size_t length, uint64_t now, struct told *told);
//! ```
//!
//! What a function requires is for its caller in C to keep: nothing checks it there.
//!
//! # What is proved
//!
//! In parentheses are the contracts, clauses and definitions that say it.
//!
//! - Each gives what the function of `tsp_page` gives that it calls (`told`, `unsound`, `stale`).
//!
//! # What is only tested
//!
//! - Nothing here.
#![tactic(auto)]

ghost use Rattle.std.specs.Prelude.{◌≡◌, ◌≢◌, ◌≤◌, ◌<◌, ◌^◌, ◌+◌, length, drop, pos};
ghost use Rattle.tsp_page.specs.Formula.{spread, tick_at};
ghost use Rattle.tsp_page.specs.Halves.{daemon_half_of, look_half_of};
ghost use Rattle.tsp_page.specs.Readings.{reading_of, without_interval};
ghost use Rattle.tsp_page.specs.Sound.{IsSoundDaemon, IsSoundLook};
ghost use Rattle.tsp_page.specs.declared.reading.Status.TheVariants.{Stale};
ghost use Rattle.tsp_page_c.specs.Told.{told_of};

use tsp_page::daemon_half::DaemonHalf;
use tsp_page::look_half::LookHalf;
use tsp_page::reading::{Reading, read};
use tsp_page::spread::spread;

/// What a page tells, as C has it. Times are microseconds since 1970, and `age` is in microseconds; what isn't known is 0.
#[repr(C)]
#[derive(Clone, Copy)]
pub struct Told {
    /// What the clock shows.
    pub shown: i64,
    /// The master's clock is no less.
    pub earliest: i64,
    /// And no more.
    pub latest: i64,
    /// How long ago the look was.
    pub age: u64,
    /// The word of the daemon's life.
    pub life: u64,
    /// How often the clock was stepped in this life.
    pub steps: u64,
    /// What the daemon is: 0 nobody, 1 follows, 2 leads.
    pub role: i32,
    /// What is known of the clock: 0 stale, 1 waiting, 2 synchronised, 3 holding.
    pub status: i32,
}

/// The daemon's tick at a nanosecond below 2^62, by the fields of its half, which must be sound.
#[unsafe(no_mangle)]
pub extern "C" fn tsp_page_tick(fields: &[u8], now: u64) -> i64
    requires fields { 112 ≤ length fields.now }
    requires sound { IsSoundDaemon (daemon_half_of fields.now) }
    requires now { now < 2 ^ 62 }
    ensures { result ≡ tick_at (daemon_half_of fields.now) now }
{
    DaemonHalf::of(fields).tick_at(now)
}

/// By how many microseconds two clocks may have parted since the own counter was `passed` microseconds back.
#[unsafe(no_mangle)]
pub extern "C" fn tsp_page_spread(drift: u64, passed: u64) -> u64
    requires drift { drift ≤ 1000 }
    requires passed { passed ≤ 2 ^ 53 }
    ensures { result ≡ spread drift passed }
{
    spread(drift, passed)
}

/// What a page tells at a nanosecond of the clock by which its daemon counts; the status is given too.
#[unsafe(no_mangle)]
pub extern "C" fn tsp_page_read(page: &[u8], now: u64, told: &mut Told) -> i32
    requires page { 4096 ≤ length page.now }
    ensures told { IsSoundDaemon (daemon_half_of (drop 72 page.now))
        → IsSoundLook (look_half_of (drop 520 page.now)) → now < 2 ^ 62
        → told.new ≡ told_of (daemon_half_of (drop 72 page.now))
        (reading_of (daemon_half_of (drop 72 page.now)) (look_half_of (drop 520 page.now))
        (tick_at (daemon_half_of (drop 72 page.now)) now)) }
    ensures unsound { told.new.status ≢ pos 0 → IsSoundDaemon (daemon_half_of (drop 72 page.now))
        × IsSoundLook (look_half_of (drop 520 page.now)) × (now < 2 ^ 62) }
    ensures stale { told.new.status ≡ pos 0 → told.new ≡ told_of (daemon_half_of (drop 72 page.now))
        (without_interval Stale (pos 0)) }
    ensures status { result ≡ told.new.status }
{
    let daemon = DaemonHalf::of(page.split_at(72).1);
    let look = LookHalf::of(page.split_at(520).1);
    *told = told_of(&daemon, &read(&daemon, &look, now));
    told.status
}

/// A reading as C has it.
fn told_of(daemon: &DaemonHalf, reading: &Reading) -> Told
    ensures { result ≡ told_of daemon.now reading.now }
{
    Told {
        shown: reading.shown,
        earliest: reading.interval.earliest,
        latest: reading.interval.latest,
        age: reading.interval.age,
        life: daemon.life,
        steps: daemon.steps,
        role: daemon.rank.number() as i32,
        status: reading.status.number() as i32,
    }
}
