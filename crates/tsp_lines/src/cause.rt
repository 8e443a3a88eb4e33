//! The cause of a refusal.
ghost use Rattle.std.specs.Prelude.{◌≡◌, ◌≤◌, length};

use arrayvec::ArrayVec;
use std::marker::Model;

/// Why a line is refused, as words: at most 64 octets, without a line feed at the end.
#[derive(Drop)]
pub struct Cause {
    words: ArrayVec<u8, 64>,
}

impl Model for Cause {
    ghost use Rattle.std.specs.Prelude.{List, ℕ, ◌≤◌, length};

    ghost Value = { List ℕ };

    ghost view = { λ c. c.words.items };

    ghost invariant = { λ c. length c.words.items ≤ 64 };
}

impl Cause {
    /// The cause with these words.
    pub fn new(words: ArrayVec<u8, 64>) -> Cause
        ensures { result ≡ words.items }
    {
        Cause { words }
    }

    /// The cause with these words, at most 64 octets.
    pub fn of(words: &[u8]) -> Cause
        requires { length words.now ≤ 64 }
        ensures { result ≡ words.now }
    {
        let mut copy = ArrayVec::new();
        let _ = copy.try_extend_from_slice(words);
        Cause { words: copy }
    }

    /// The words.
    pub fn words(&self) -> &[u8]
        ensures value { result.now ≡ self.now }
        ensures short { length result.now ≤ 64 }
    {
        self.words.as_slice()
    }
}
