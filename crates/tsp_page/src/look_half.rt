//! The look's half of the page.
ghost use Rattle.std.specs.Prelude.{◌≡◌, ◌≤◌, ◌++◌, length};
ghost use Rattle.tsp_page.specs.Halves.{look_octets, look_half_of};

use crate::numbers::{append, i64_at, octets_of_all, u64_at};
use arrayvec::ArrayVec;

/// What the supervisor says of its last look at the master's clock. Ticks and times are microseconds. The fields stand on
/// the page in this order behind the half's sequence, eight octets each, and the name takes the last 256.
#[derive(Clone, Copy, PartialEq, Eq, Debug)]
pub struct LookHalf {
    /// The word of the life in which it looked.
    pub life: u64,
    /// `moved` of the daemon's half by which the look was reckoned.
    pub moved: i64,
    /// The tick of the look: that of its first stamp of the own clock.
    pub looked: u64,
    /// The least by which the master's clock was ahead of the own target.
    pub low: i64,
    /// The most.
    pub high: i64,
    /// The number of the master that was looked at; 0 where the host itself led.
    pub master: u64,
    /// By how many parts in a million a counter of the network may be wrong.
    pub drift: u64,
    /// Whether a look of this life stands here: from its first one on.
    pub had: bool,
    /// The rate that the supervisor has learned, in parts in 10^9.
    pub learned: i64,
    /// The master's name, ended by a NUL.
    pub name: [u8; 256],
}

impl LookHalf {
    /// The octets of the fields, to be written at `LOOK_FIELDS_AT`.
    pub fn octets(&self) -> ArrayVec<u8, 328>
        ensures { result.items ≡ look_octets self.now }
    {
        let mut out = octets_of_all(&[
            self.life,
            self.moved.cast_unsigned(),
            self.looked,
            self.low.cast_unsigned(),
            self.high.cast_unsigned(),
            self.master,
            self.drift,
            self.had as u64,
            self.learned.cast_unsigned(),
        ]);
        append(&mut out, &self.name);
        out
    }

    /// The half whose fields have these octets. They are at least 328; those behind don't count. `had` is read as true
    /// where its number is 1.
    pub fn of(octets: &[u8]) -> LookHalf
        requires { 328 ≤ length octets.now }
        ensures { result ≡ look_half_of octets.now }
    {
        let mut name = [0; 256];
        name.copy_from_slice(&octets[72..328]);
        LookHalf {
            life: u64_at(octets, 0),
            moved: i64_at(octets, 8),
            looked: u64_at(octets, 16),
            low: i64_at(octets, 24),
            high: i64_at(octets, 32),
            master: u64_at(octets, 40),
            drift: u64_at(octets, 48),
            had: u64_at(octets, 56) == 1,
            learned: i64_at(octets, 64),
            name,
        }
    }
}
