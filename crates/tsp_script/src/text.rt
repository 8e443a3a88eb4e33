//! A text that is being written.
ghost use Rattle.std.specs.Prelude.{◌≡◌, ◌+◌, ◌-◌, ◌<◌, ◌≤◌, [], ◌∷◌, ◌++◌, length, take};
ghost use Rattle.arrayvec.specs.ArrayVec.{array_vec_len};

use arrayvec::ArrayVec;
use std::marker::Model;

/// A text of at most 1,024 octets, to which others are appended.
///
/// It is an `ArrayVec<u8, 1024>`, except that octets which are taken off its end aren't cleared. So a line of a trace
/// that takes the place of the one before it clears nothing.
#[derive(Drop)]
pub struct Text {
    octets: [u8; 1024],
    len: usize,
}

impl Model for Text {
    ghost use Rattle.std.specs.Prelude.{ℕ, ◌≤◌, take};
    ghost use Rattle.arrayvec.specs.ArrayVec.{ArrayVec};

    ghost Value = { ArrayVec ℕ };

    ghost view = { λ t. record { items = take t.len t.octets } };

    ghost invariant = { λ t. t.len ≤ 1024 };
}

impl Text {
    /// An empty text.
    pub fn new() -> Text
        ensures { result.items ≡ [] }
    {
        Text {
            octets: [0; 1024],
            len: 0,
        }
    }

    /// How many octets it has.
    #[inline(always)]
    pub fn len(&self) -> usize
        ensures value { result ≡ array_vec_len self.now }
        ensures fits { result ≤ 1024 }
    {
        self.len
    }

    /// The octets.
    #[inline(always)]
    pub fn as_slice(&self) -> &[u8]
        ensures value { result.now ≡ self.now.items }
        ensures fits { length result.now ≤ 1024 }
    {
        &self.octets[..self.len]
    }

    /// The same text as a vector.
    pub fn array(&self) -> ArrayVec<u8, 1024>
        ensures { result.items ≡ self.now.items }
    {
        let mut array = ArrayVec::new();
        let _ = array.try_extend_from_slice(self.as_slice());
        array
    }

    /// Appends an octet. There must be room.
    #[inline(always)]
    pub fn push(&mut self, octet: u8)
        requires { array_vec_len self.old < 1024 }
        ensures items { self.new.items ≡ self.old.items ++ octet ∷ [] }
        ensures len { array_vec_len self.new ≡ array_vec_len self.old + 1 }
    {
        let len = self.len;
        self.octets[len] = octet;
        self.len = len + 1;
    }

    /// Appends octets. There must be room.
    #[inline(always)]
    pub fn extend(&mut self, piece: &[u8])
        requires { array_vec_len self.old + length piece.now ≤ 1024 }
        ensures items { self.new.items ≡ self.old.items ++ piece.now }
        ensures len { array_vec_len self.new ≡ array_vec_len self.old + length piece.now }
    {
        let len = self.len;
        let end = len + piece.len();
        self.octets[len..end].copy_from_slice(piece);
        self.len = end;
    }

    /// Appends the first octets of 16, so many. There must be room for all 16, which are written at once.
    #[inline(always)]
    pub fn extend_front(&mut self, octets: &[u8; 16], count: usize)
        requires room { array_vec_len self.old + 16 ≤ 1024 }
        requires count { count ≤ 16 }
        ensures items { self.new.items ≡ self.old.items ++ take count octets.now }
        ensures len { array_vec_len self.new ≡ array_vec_len self.old + count }
    {
        let len = self.len;
        self.extend(octets);
        self.len = len + count;
    }

    /// Keeps the first octets, so many.
    #[inline(always)]
    pub fn truncate(&mut self, len: usize)
        ensures { self.new.items ≡ take len self.old.items }
    {
        if len < self.len {
            self.len = len;
        }
    }

    /// Removes all octets.
    #[inline(always)]
    pub fn clear(&mut self)
        ensures { self.new.items ≡ [] }
    {
        self.len = 0;
    }
}
