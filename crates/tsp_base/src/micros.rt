//! Time values: seconds and microseconds of a message, as one number.
ghost use Rattle.std.specs.Prelude.{◌≡◌, ◌↔◌, IsSome, IfSome, pos, negsuc, ◌≤ℤ◌, ◌<ℤ◌};
ghost use Rattle.tsp_base.specs.Times.{IsMicros};

use crate::constants::LIMIT;
use std::marker::Model;

/// A time value in microseconds, from -2^31 seconds to one microsecond less than 2^31 seconds: what a
/// message's two fields can hold.
#[derive(Clone, Copy, PartialEq, Eq, Debug)]
pub struct Micros(i64);

impl Model for Micros {
    ghost use Rattle.tsp_base.specs.Times.{ℤ, IsMicros};

    ghost Value = { ℤ };

    ghost view = { λ m. m.0 };

    ghost invariant = { λ m. IsMicros m.0 };

    ghost inverse = { λ v. record { 0 = v } };
}

impl Micros {
    /// The time value of so many microseconds; None exactly outside the range.
    pub fn of(v: i64) -> Option<Micros>
        ensures variant { IsSome result ↔ IsMicros v }
        ensures value { IfSome result (λ m. m ≡ v) }
    {
        if -LIMIT <= v && v < LIMIT {
            Some(Micros(v))
        } else {
            None
        }
    }

    /// The microseconds.
    pub fn get(&self) -> i64
        ensures value { result ≡ self.now }
        ensures range { IsMicros self.now }
    {
        self.0
    }
}
