//! A mark for each place of a list.
ghost use Rattle.std.specs.Prelude.{◌≡◌, ◌<◌, true, false, length, replicate, slice_index_or, slice_set, IfOk};

use std::alloc::{AllocError, Global};
use std::boxed::BoxedSlice;
use std::marker::Model;

/// A mark for each place, set or not.
#[derive(Drop)]
pub struct Marks {
    items: BoxedSlice<bool>,
}

impl Model for Marks {
    ghost use Rattle.std.specs.Prelude.{Bool, List};
    ghost use Rattle.std.specs.Box.{boxed_slice_items};

    ghost Value = { List Bool };

    ghost view = { λ m. boxed_slice_items m.items };
}

/// Removes all marks.
fn unset_each(marks: &mut [bool])
    ensures { marks.new ≡ replicate (length marks.old) false }
{
    for mark in marks.iter_mut() {
        *mark = false;
    }
}

impl Marks {
    /// So many places, none of which is marked. Fails only if out of memory.
    pub(crate) fn new(alloc: Global, count: usize) -> Result<Marks, AllocError>
        ensures { IfOk result (λ m. m ≡ replicate count false) }
    {
        let items = vec![in alloc; false; count]?;
        Ok(Marks {
            items: items.into_boxed_slice(),
        })
    }

    /// Whether a place is marked.
    pub(crate) fn at(&self, place: usize) -> bool
        requires { place < length self.now }
        ensures { result ≡ slice_index_or self.now place false }
    {
        self.items[place]
    }

    /// Marks a place.
    pub(crate) fn set(&mut self, place: usize)
        requires { place < length self.old }
        ensures { self.new ≡ slice_set self.old place true }
    {
        self.items[place] = true;
    }

    /// Removes all marks.
    pub(crate) fn clear(&mut self)
        ensures { self.new ≡ replicate (length self.old) false }
    {
        unset_each(self.items.as_mut_slice());
    }
}
