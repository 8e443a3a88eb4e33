//! The daemon's half of the page.
ghost use Rattle.std.specs.Prelude.{◌≡◌, ◌≤◌, length};
ghost use Rattle.tsp_page.specs.Halves.{daemon_octets, daemon_half_of};

use crate::numbers::{i64_at, octets_of_all, u64_at};
use crate::rank::Rank;
use arrayvec::ArrayVec;

/// What a daemon says of its clock in the life that it is in. Ticks and times are microseconds; times are counted since
/// 1970. The fields stand on the page in this order, eight octets each, behind the half's sequence.
#[derive(Clone, Copy, PartialEq, Eq, Debug)]
pub struct DaemonHalf {
    /// The word of the life.
    pub life: u64,
    /// The kernel's number of the clock by which the daemon counts: `RAW` or `MONOTONIC`.
    pub counter: u64,
    /// What that clock read at tick `origin_tick`, in nanoseconds.
    pub origin: i64,
    /// The tick from which the daemon counts by `rate`.
    pub origin_tick: u64,
    /// By how many parts in 10^9 the daemon counts faster than that clock.
    pub rate: i64,
    /// The tick of the clock's last correction in this life, or of the boot where there was none.
    pub tick: u64,
    /// What the clock aimed at right after it.
    pub target: i64,
    /// What was still to be slewed right after it.
    pub rest: i64,
    /// The least that may be shown: what the page that stood here before showed when this one replaced it. After a step
    /// and at a life's begin it is the least number.
    pub least: i64,
    /// The sum of the amounts of all corrections of this life, steps too.
    pub moved: i64,
    /// How often the clock was stepped in this life.
    pub steps: u64,
    /// What the daemon is on its networks.
    pub rank: Rank,
    /// The number of the master that it follows; 0 where it follows nobody.
    pub master: u64,
    /// The tick of the last turn that was written.
    pub alive: u64,
}

impl DaemonHalf {
    /// The octets of the fields, to be written at `DAEMON_FIELDS_AT`.
    pub fn octets(&self) -> ArrayVec<u8, 112>
        ensures { result.items ≡ daemon_octets self.now }
    {
        octets_of_all(&[
            self.life,
            self.counter,
            self.origin.cast_unsigned(),
            self.origin_tick,
            self.rate.cast_unsigned(),
            self.tick,
            self.target.cast_unsigned(),
            self.rest.cast_unsigned(),
            self.least.cast_unsigned(),
            self.moved.cast_unsigned(),
            self.steps,
            self.rank.number(),
            self.master,
            self.alive,
        ])
    }

    /// The half whose fields have these octets. They are at least 112; those behind don't count. A rank that there isn't
    /// is read as `Nobody`.
    pub fn of(octets: &[u8]) -> DaemonHalf
        requires { 112 ≤ length octets.now }
        ensures { result ≡ daemon_half_of octets.now }
    {
        DaemonHalf {
            life: u64_at(octets, 0),
            counter: u64_at(octets, 8),
            origin: i64_at(octets, 16),
            origin_tick: u64_at(octets, 24),
            rate: i64_at(octets, 32),
            tick: u64_at(octets, 40),
            target: i64_at(octets, 48),
            rest: i64_at(octets, 56),
            least: i64_at(octets, 64),
            moved: i64_at(octets, 72),
            steps: u64_at(octets, 80),
            rank: Rank::of(u64_at(octets, 88)),
            master: u64_at(octets, 96),
            alive: u64_at(octets, 104),
        }
    }
}
