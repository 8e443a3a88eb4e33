//! What a reader of the page tells.
ghost use Rattle.std.specs.Prelude.{◌≡◌, ◌≢◌, ◌≤◌, ◌<◌, ◌^◌, ℤ, pos, ◌+ℤ◌, ◌-ℤ◌, ◌≤ℤ◌, nat_abs};
ghost use Rattle.tsp_page.specs.Formula.{tick_at};
ghost use Rattle.tsp_page.specs.Readings.{runs, counts, is_fresh, standing, status_number, status_of, target_then, leading_interval, looked_interval, interval_of, reading_of, without_interval};
ghost use Rattle.tsp_page.specs.Sound.{IsSoundDaemon, IsSoundLook};
ghost use Rattle.tsp_page.specs.declared.reading.Status.TheVariants.{Stale};

use crate::daemon_half::DaemonHalf;
use crate::layout::LASTS;
use crate::look_half::LookHalf;
use crate::rank::Rank;
use crate::spread::spread;

/// What is known of the clock.
#[derive(Clone, Copy, PartialEq, Eq, Debug)]
pub enum Status {
    /// The daemon doesn't run: it said so last more than 64 seconds ago, or later than now.
    Stale,
    /// There is no look of this life yet.
    Waiting,
    /// The daemon leads; or it follows a master, at which the supervisor looked at most 64 seconds ago.
    Synchronised,
    /// It led or had a master in this life, and has none now, or one that nobody has looked at for 64 seconds.
    Holding,
}

/// Where the master's clock lies, as it ran on since the look. Times are microseconds since 1970.
#[derive(Clone, Copy, PartialEq, Eq, Debug)]
pub struct Interval {
    /// It is no less.
    pub earliest: i64,
    /// And no more.
    pub latest: i64,
    /// How long ago the look was, in microseconds of the own counter.
    pub age: u64,
}

/// What a page tells at a moment.
#[derive(Clone, Copy, PartialEq, Eq, Debug)]
pub struct Reading {
    /// What is known of the clock.
    pub status: Status,
    /// What the clock shows, in microseconds since 1970; 0 where it is stale.
    pub shown: i64,
    /// Where the master's clock lies; zeros where the clock is neither synchronised nor holding.
    pub interval: Interval,
}

impl Status {
    /// The status's number: 0 to 3 in the order above.
    pub fn number(self) -> u32
        ensures { result ≡ status_number self }
    {
        match self {
            Status::Stale => 0,
            Status::Waiting => 1,
            Status::Synchronised => 2,
            Status::Holding => 3,
        }
    }
}

/// Whether the daemon said that it runs at most 64 seconds before a tick, and not after it.
fn runs(daemon: &DaemonHalf, tick: u64) -> bool
    ensures { result ≡ runs daemon.now tick }
{
    daemon.alive <= tick && tick - daemon.alive <= LASTS
}

/// Whether there is a look of the daemon's life, and not one after a tick.
fn counts(daemon: &DaemonHalf, look: &LookHalf, tick: u64) -> bool
    ensures { result ≡ counts daemon.now look.now tick }
{
    look.had && look.life == daemon.life && look.looked <= tick
}

/// Whether the look is one at the master that the daemon follows, and was at most 64 seconds before a tick.
fn is_fresh(daemon: &DaemonHalf, look: &LookHalf, tick: u64) -> bool
    ensures { result ≡ is_fresh daemon.now look.now tick }
{
    look.master == daemon.master && tick.saturating_sub(look.looked) <= LASTS
}

/// The status of a daemon that runs.
fn standing(daemon: &DaemonHalf, look: &LookHalf, tick: u64) -> Status
    ensures { result ≡ standing daemon.now look.now tick }
{
    match daemon.rank {
        Rank::Leads => Status::Synchronised,
        Rank::Follows if counts(daemon, look, tick) && is_fresh(daemon, look, tick) => {
            Status::Synchronised
        }
        _ if counts(daemon, look, tick) => Status::Holding,
        _ => Status::Waiting,
    }
}

/// What is known of the clock at a tick, as `DaemonHalf::tick_at` gives it.
pub fn status_at(daemon: &DaemonHalf, look: &LookHalf, tick: i64) -> Status
    ensures { result ≡ status_of daemon.now look.now tick }
{
    if 0 <= tick && runs(daemon, tick as u64) {
        standing(daemon, look, tick as u64)
    } else {
        Status::Stale
    }
}

/// Where the master's clock lies at a tick of at most 2^53, as it ran on since the look. A daemon that leads is the master.
/// Else the look's bounds count from the own target as it was then: what the own clock was corrected by since is taken off,
/// and each bound is as much wider as both clocks may have parted. It means something only where the status says so.
pub fn interval_at(daemon: &DaemonHalf, look: &LookHalf, tick: u64) -> Interval
    requires daemon { IsSoundDaemon daemon.now }
    requires look { IsSoundLook look.now }
    requires tick { tick ≤ 2 ^ 53 }
    ensures { result ≡ interval_of daemon.now look.now tick }
{
    match daemon.rank {
        Rank::Leads => leading_interval(daemon, tick),
        Rank::Follows | Rank::Nobody => looked_interval(daemon, look, tick),
    }
}

/// The interval of a host that leads.
fn leading_interval(daemon: &DaemonHalf, tick: u64) -> Interval
    requires daemon { IsSoundDaemon daemon.now }
    requires tick { tick ≤ 2 ^ 53 }
    ensures { result ≡ leading_interval daemon.now tick }
{
    let target = daemon.target_at(tick);
    Interval {
        earliest: target,
        latest: target,
        age: 0,
    }
}

/// The interval of a host that doesn't lead.
fn looked_interval(daemon: &DaemonHalf, look: &LookHalf, tick: u64) -> Interval
    requires daemon { IsSoundDaemon daemon.now }
    requires look { IsSoundLook look.now }
    requires tick { tick ≤ 2 ^ 53 }
    ensures { result ≡ looked_interval daemon.now look.now tick }
{
    let target = target_then(daemon, look, tick);
    let age = tick.saturating_sub(look.looked);
    around(target, look.low, look.high, spread(look.drift, age), age)
}

/// The own target at a tick as it would be if the clock hadn't been corrected since the look.
fn target_then(daemon: &DaemonHalf, look: &LookHalf, tick: u64) -> i64
    requires daemon { IsSoundDaemon daemon.now }
    requires look { IsSoundLook look.now }
    requires tick { tick ≤ 2 ^ 53 }
    ensures value { result ≡ target_then daemon.now look.now tick }
    ensures small { nat_abs result ≤ 2 ^ 58 }
{
    daemon.target_at(tick) - (daemon.moved - look.moved)
}

/// The interval between two bounds from a target, with so much more on both sides.
fn around(target: i64, low: i64, high: i64, apart: u64, age: u64) -> Interval
    requires target { nat_abs target ≤ 2 ^ 58 }
    requires low { nat_abs low ≤ 2 ^ 56 }
    requires high { nat_abs high ≤ 2 ^ 56 }
    requires apart { apart ≤ 36000000000004 }
    ensures { result ≡ record {
      earliest = (target +ℤ low) -ℤ pos apart;
      latest = (target +ℤ high) +ℤ pos apart;
      age = age;
    } }
{
    Interval {
        earliest: target + low - apart as i64,
        latest: target + high + apart as i64,
        age,
    }
}

/// What a page tells at a nanosecond of the clock by which the daemon counts. A page that neither can have written is
/// stale.
pub fn read(daemon: &DaemonHalf, look: &LookHalf, now: u64) -> Reading
    ensures sound { IsSoundDaemon daemon.now → IsSoundLook look.now → now < 2 ^ 62
        → result ≡ reading_of daemon.now look.now (tick_at daemon.now now) }
    ensures unsound { result.status ≢ Stale
        → IsSoundDaemon daemon.now × IsSoundLook look.now × (now < 2 ^ 62) }
    ensures stale { result.status ≡ Stale → result ≡ without_interval Stale (pos 0) }
{
    if now < 1 << 62 && daemon.is_sound() && look.is_sound() {
        reading_at(daemon, look, daemon.tick_at(now))
    } else {
        nothing(Status::Stale, 0)
    }
}

/// What a page tells at a tick.
fn reading_at(daemon: &DaemonHalf, look: &LookHalf, tick: i64) -> Reading
    requires daemon { IsSoundDaemon daemon.now }
    requires look { IsSoundLook look.now }
    requires tick { tick ≤ℤ pos (2 ^ 53) }
    ensures { result ≡ reading_of daemon.now look.now tick }
{
    match status_at(daemon, look, tick) {
        Status::Stale => nothing(Status::Stale, 0),
        Status::Waiting => nothing(Status::Waiting, daemon.shown_at(tick as u64)),
        known => Reading {
            status: known,
            shown: daemon.shown_at(tick as u64),
            interval: interval_at(daemon, look, tick as u64),
        },
    }
}

/// A reading without an interval.
fn nothing(status: Status, shown: i64) -> Reading
    ensures { result ≡ without_interval status shown }
{
    Reading {
        status,
        shown,
        interval: Interval {
            earliest: 0,
            latest: 0,
            age: 0,
        },
    }
}
