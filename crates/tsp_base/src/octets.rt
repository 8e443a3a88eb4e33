//! The octets of an event.
ghost use Rattle.std.specs.Prelude.{◌≡◌, ◌≤◌, ◌↔◌, length, IsSome, IfSome};

use arrayvec::ArrayVec;
use std::marker::Model;

/// At most 300 octets.
#[derive(Drop)]
pub struct Octets {
    octets: ArrayVec<u8, 300>,
}

impl Model for Octets {
    ghost use Rattle.std.specs.Prelude.{List, ℕ, length, ◌≤◌};

    ghost Value = { List ℕ };

    ghost view = { λ o. o.octets.items };

    ghost invariant = { λ o. length o.octets.items ≤ 300 };
}

impl Octets {
    /// These octets; None exactly where there are more than 300.
    pub fn of(octets: &[u8]) -> Option<Octets>
        ensures variant { IsSome result ↔ (length octets.now ≤ 300) }
        ensures value { IfSome result (λ o. o ≡ octets.now) }
    {
        if octets.len() > 300 {
            return None;
        }
        let mut held = ArrayVec::new();
        let _ = held.try_extend_from_slice(octets);
        Some(Octets { octets: held })
    }

    /// The octets.
    pub fn octets(&self) -> &[u8]
        ensures value { result.now ≡ self.now }
        ensures short { length self.now ≤ 300 }
    {
        self.octets.as_slice()
    }
}
