//! The list of differences that a group is taken from.
ghost use Rattle.std.specs.Prelude.{◌≡◌, pos, ◌+◌, ◌-◌, ◌^◌, ◌≤◌, ◌<◌, [], ◌∷◌, ◌++◌, length, min};
ghost use Rattle.std.specs.Prelude.{slice_index_or, IfOk};
ghost use Rattle.std.specs.List.{All};
ghost use Rattle.std.specs.List.Sorted.{IsPermutation};
ghost use Rattle.tsp_group.specs.Values.{IsNear, IsAscending};

use std::alloc::{AllocError, Global};
use std::marker::Model;

/// Differences in microseconds, at most as many as its room, with a count of the looks at them.
///
/// The room is the memory that the list holds, so a call that leaves the room takes none.
/// A value can be read by [`Values::look`] alone, so the count says what a computation over them cost.
#[derive(Drop)]
pub struct Values {
    items: Vec<i64>,
    looks: u64,
}

impl Model for Values {
    ghost use Rattle.std.specs.Prelude.{vec_capacity};
    ghost use Rattle.tsp_group.specs.Values.{ValueList, IsValues};

    ghost Value = { ValueList };

    ghost view = { λ v. record {
      items = v.items.items;
      room = vec_capacity v.items;
      looks = v.looks;
    } };

    ghost invariant = { λ v. IsValues v.items.items (vec_capacity v.items) };
}

impl Values {
    /// An empty list with room for so many values, and no look counted yet.
    ///
    /// Fails only if out of memory. No later call allocates any.
    pub fn new(alloc: Global, room: usize) -> Result<Values, AllocError>
        requires { room < 2 ^ 32 }
        ensures { IfOk result (λ v. v ≡ record { items = []; room = room; looks = 0 }) }
    {
        let items = Vec::with_capacity(alloc, room)?;
        Ok(Values { items, looks: 0 })
    }

    /// Adds a difference of less than 2^30 seconds, in microseconds, at the end.
    pub fn add(&mut self, diff: i64)
        requires room { length self.old.items < self.old.room }
        requires near { IsNear diff }
        ensures { self.new ≡ record self.old { items = self.old.items ++ diff ∷ [] } }
    {
        self.items.push_reserved(diff);
    }

    /// Empties the list. Its room and its count of looks are unchanged.
    pub fn clear(&mut self)
        ensures { self.new ≡ record self.old { items = [] } }
    {
        self.items.clear();
    }

    /// The number of values.
    pub fn len(&self) -> usize
        ensures value { result ≡ length self.now.items }
        ensures near { All IsNear self.now.items }
        ensures room { (length self.now.items ≤ self.now.room) × (self.now.room < 2 ^ 32) }
    {
        self.items.len()
    }

    /// Puts the values in ascending order.
    pub fn sort(&mut self)
        ensures same { IsPermutation self.old.items self.new.items }
        ensures ascending { IsAscending self.new.items }
        ensures near { All IsNear self.new.items }
        ensures room { self.new.room ≡ self.old.room }
        ensures looks { self.new.looks ≡ self.old.looks }
    {
        self.items.sort_unstable();
    }

    /// The value at a place, counted from 0. Each look is counted.
    pub fn look(&mut self, place: usize) -> i64
        requires { place < length self.old.items }
        ensures value { result ≡ slice_index_or self.old.items place (pos 0) }
        ensures near { IsNear result }
        ensures items { self.new.items ≡ self.old.items }
        ensures room { self.new.room ≡ self.old.room }
        ensures looks { self.new.looks ≡ min (self.old.looks + 1) (2 ^ 64 - 1) }
    {
        self.looks = self.looks.saturating_add(1);
        self.items[place]
    }

    /// The number of looks at a value, which stays at `u64::MAX` once it is there.
    pub fn looks(&self) -> u64
        ensures { result ≡ self.now.looks }
    {
        self.looks
    }
}
