//! A clock's best difference.
ghost use Rattle.std.specs.Prelude.{◌≡◌, pos};
ghost use Rattle.std.specs.Str.{bytes_eq};
ghost use Rattle.tsp_group.specs.Values.{IsNear};
ghost use Rattle.tsp_icmp.specs.Days.{IsAtMost};
ghost use Rattle.tsp_icmp_command.specs.Bests.{micros_of};

use std::marker::Model;
use tsp_base::name::Name;

/// A clock's name, how far it is ahead, and the round trip of the exchange that says so, in milliseconds.
#[derive(Drop)]
pub(crate) struct Best {
    name: Name,
    diff: i64,
    trip: u32,
}

impl Model for Best {
    ghost use Rattle.std.specs.Prelude.{pos};
    ghost use Rattle.tsp_icmp.specs.Days.{IsAtMost};
    ghost use Rattle.tsp_icmp_command.specs.Bests.{BestValue};

    ghost Value = { BestValue };

    ghost view = { λ b. record { name = b.name; diff = b.diff; trip = b.trip } };

    ghost invariant = { λ b. IsAtMost (pos 64800000) b.diff };
}

impl Best {
    /// A difference from -64,800,000 to 64,800,000 milliseconds, with its round trip.
    pub(crate) fn new(name: Name, diff: i64, trip: u32) -> Best
        requires { IsAtMost (pos 64800000) diff }
        ensures { result ≡ record { name = name; diff = diff; trip = trip } }
    {
        Best { name, diff, trip }
    }

    /// The clock's name.
    pub(crate) fn name(&self) -> &Name
        ensures { result.now ≡ self.now.name }
    {
        &self.name
    }

    /// Whether it is the clock of this name.
    pub(crate) fn is_of(&self, name: &Name) -> bool
        ensures { result ≡ bytes_eq self.now.name name.now }
    {
        self.name.octets() == name.octets()
    }

    /// The round trip, in milliseconds.
    pub(crate) fn trip(&self) -> u32
        ensures { result ≡ self.now.trip }
    {
        self.trip
    }

    /// How far the clock is ahead, in microseconds.
    pub(crate) fn micros(&self) -> i64
        ensures value { result ≡ micros_of self.now }
        ensures near { IsNear result }
    {
        1000 * self.diff
    }
}
