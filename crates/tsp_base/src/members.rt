//! The members of a network.
ghost use Rattle.std.specs.Prelude.{◌≡◌, ◌≤◌, ◌↔◌, length, IsTrue, IsSome, IfSome};
ghost use Rattle.std.specs.List.Sorted.{IsStrictlyIncreasing};

use arrayvec::ArrayVec;
use std::marker::Model;

/// At most 64 numbers of nodes.
#[derive(Drop)]
pub struct Members {
    numbers: ArrayVec<u32, 64>,
}

impl Model for Members {
    ghost use Rattle.std.specs.Prelude.{List, ℕ, length, ◌≤◌};

    ghost Value = { List ℕ };

    ghost view = { λ m. m.numbers.items };

    ghost invariant = { λ m. length m.numbers.items ≤ 64 };
}

impl Members {
    /// These numbers; None exactly where there are more than 64.
    pub fn of(numbers: &[u32]) -> Option<Members>
        ensures variant { IsSome result ↔ (length numbers.now ≤ 64) }
        ensures value { IfSome result (λ m. m ≡ numbers.now) }
    {
        if numbers.len() > 64 {
            return None;
        }
        let mut held = ArrayVec::new();
        let _ = held.try_extend_from_slice(numbers);
        Some(Members { numbers: held })
    }

    /// The numbers.
    pub fn numbers(&self) -> &[u32]
        ensures value { result.now ≡ self.now }
        ensures short { length self.now ≤ 64 }
    {
        self.numbers.as_slice()
    }
}

/// Whether each number is greater than the one before it.
pub fn is_ascending(numbers: &[u32]) -> bool
    ensures { IsTrue result ↔ IsStrictlyIncreasing numbers.now }
{
    for next in 1..numbers.len() {
        if numbers[next - 1] >= numbers[next] {
            return false;
        }
    }
    true
}
